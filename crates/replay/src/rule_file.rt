ghost use Rattle.std.specs.Prelude.{◌≡◌, ◌<◌, ◌≤◌, ◌-◌, ℕ, true, List, length, take, drop, slice_index_or, Ok, Err, Result, IfOk, IfSome, IsErrOf};
ghost use Rattle.fx_io.specs.Outside.{Rose, file_told, IsMissing, IsOnShelf};
ghost use Rattle.drl_parse.specs.Parsed.{Parsed, GivesParsed as GivesFile};
ghost use Rattle.drl_check.specs.Answers.{FailsCheck};
ghost use Rattle.drl_check.specs.Outcomes.{checked};
ghost use Rattle.drl_names.specs.Names.{names_of};
ghost use Rattle.replay.specs.Names.{names_read};
ghost use Rattle.drl_check.specs.Checks.{Failure};
ghost use Rattle.drl_grammar.specs.declared.written.Written.{Written as WrittenFile};
ghost use Rattle.subrules.specs.Faults.{obstacle};
ghost use Rattle.subrules.specs.Outcomes.{IsExpanded, IsRefusal};
ghost use Rattle.rule_world.specs.Programs.{IsRunnable};
ghost use Rattle.rule_model.specs.declared.program.Program.{Program as ProgramData};
ghost use Rattle.replay.specs.Refusals.{of_parsed, of_obstacle, of_checked_with, plain_file, reading, IsRefusedReading, IsSoundReading};
ghost use Rattle.drl_show.specs.Shown.{shown};
ghost use Rattle.replay.specs.Checkpoints.{rules_shown};
ghost use Rattle.replay.specs.Titles.{renamed, with_titles};
ghost use Rattle.replay.specs.declared.rule_file.Reading.TheVariants.{Refused};
ghost use Rattle.replay.specs.declared.rule_file.FileFault.TheVariants.{NoMemory as OutOfMemory};

use crate::refusal::{Refusal, RefusalCode, whole_file};
use drl_check::{CheckFault, check};
use drl_grammar::{File, Written};
use drl_names::{RuleNames, names};
use drl_parse::{ParseFault, parse};
use drl_show::show;
use fx_base::{Copies, NoMemory, Seq, Text};
use fx_io::{Shelf, ShelfFault};
use rule_model::{Program, Rule};
use std::alloc::{AllocError, Global};
use subrules::{ExpandFault, Expanded, expand};

/// Why a file was not read.
#[derive(Clone, Copy, Debug, PartialEq, Eq)]
pub enum FileFault {
    Missing,
    ReadFault,
    NoMemory,
}

impl From<AllocError> for FileFault {
    ghost from_gives = { λ _ fault. fault ≡ OutOfMemory };

    fn from(_: AllocError) -> Self {
        FileFault::NoMemory
    }
}

// Reads a piece of a file, of at most so many bytes.
#[tactic(auto, using(crate::proofs::Files::take_front))]
fn read_piece<F: Shelf>(
    shelf: &mut F,
    name: &str,
    at: usize,
    most: usize,
    buffer: &mut [u8],
) -> Result<usize, ShelfFault>
    requires some { 0 < most }
    requires room { 0 < length buffer.old }
    ensures within { IfOk result (λ n. n ≤ length buffer.old) }
    ensures few { IfOk result (λ n. n ≤ most) }
    ensures bytes { IfSome (file_told (F.files shelf.old) name.now) (λ file. IfOk result (λ n. take n buffer.new ≡ take n (drop at file))) }
    ensures end { IfSome (file_told (F.files shelf.old) name.now) (λ file. result ≡ Ok 0 → length file ≤ at) }
    ensures missing { IsErrOf result ShelfFault.Missing → IsMissing (F.files shelf.old) name.now }
    ensures found { IfOk result (λ _. IsOnShelf (F.files shelf.old) name.now) }
    ensures failed_found { IsErrOf result ShelfFault.Failed → IsOnShelf (F.files shelf.old) name.now }
    ensures files { F.files shelf.new ≡ F.files shelf.old }
    ensures counts { (other : List ℕ) → F.faults shelf.old other ≤ F.faults shelf.new other }
    ensures miss_counts { (other : List ℕ) → F.misses shelf.old other ≤ F.misses shelf.new other }
    ensures cause { IsErrOf result ShelfFault.Failed → Rose (F.faults shelf.old name.now) (F.faults shelf.new name.now) }
    ensures miss { IsErrOf result ShelfFault.Missing → Rose (F.misses shelf.old name.now) (F.misses shelf.new name.now) }
{
    let room = buffer.len().min(most);
    shelf.read_file(name, at as u64, &mut buffer[..room])
}

/// Reads a file to its end, or so many bytes of it.
pub fn read_whole<F: Shelf>(
    alloc: Global,
    shelf: &mut F,
    name: &str,
    most: usize,
) -> Result<Vec<u8>, FileFault>
    requires { 0 < most }
    ensures bytes { IfSome (file_told (F.files shelf.old) name.now) (λ file. IfOk result (λ v. v.items ≡ take most file)) }
    ensures found { IfOk result (λ _. IsOnShelf (F.files shelf.old) name.now) }
    ensures missing { IsErrOf result FileFault.Missing → IsMissing (F.files shelf.old) name.now }
    ensures cause { IsErrOf result FileFault.ReadFault → Rose (F.faults shelf.old name.now) (F.faults shelf.new name.now) }
    ensures miss { IsErrOf result FileFault.Missing → Rose (F.misses shelf.old name.now) (F.misses shelf.new name.now) }
    ensures failed_found { IsErrOf result FileFault.ReadFault → IsOnShelf (F.files shelf.old) name.now }
    ensures files { F.files shelf.new ≡ F.files shelf.old }
    ensures counts { (other : List ℕ) → F.faults shelf.old other ≤ F.faults shelf.new other }
    ensures miss_counts { (other : List ℕ) → F.misses shelf.old other ≤ F.misses shelf.new other }
{
    let mut bytes = Vec::new(alloc);
    let mut buffer = [0u8; 4096];
    loop {
        let n = match read_piece(shelf, name, bytes.len(), most - bytes.len(), &mut buffer) {
            Ok(n) => n,
            Err(ShelfFault::Missing) => return Err(FileFault::Missing),
            Err(ShelfFault::Failed) => return Err(FileFault::ReadFault),
        };
        bytes.extend_from_slice(&buffer[..n])?;
        if n == 0 || bytes.len() == most {
            return Ok(bytes);
        }
    }
}

/// What a rule file is.
#[derive(Drop)]
pub enum Reading {
    Accepted(Program),
    Refused(Refusal),
}

// The place and the code of a fault of the parser.
fn parse_refusal(fault: ParseFault) -> Result<Refusal, NoMemory>
    ensures told { IfOk result (λ refusal. (read : Parsed) → GivesFile (Err fault) read → of_parsed read ≡ Refused refusal) }
{
    match fault {
        ParseFault::TooLong => Ok(whole_file(RefusalCode::TooLong)),
        ParseFault::Lexical { code, line } => Ok(Refusal {
            item: 0,
            line: u64::from(line),
            code: RefusalCode::Lexical(code),
        }),
        ParseFault::Syntax { item, line } => Ok(Refusal {
            item: u64::from(item),
            line: u64::from(line),
            code: RefusalCode::Syntax,
        }),
        ParseFault::NoMemory => Err(NoMemory),
    }
}

// The place and the code of a fault of writing out.
fn expand_refusal(fault: ExpandFault) -> Result<Refusal, NoMemory>
    ensures told { IfOk result (λ refusal. (file : WrittenFile) → IsRefusal file fault → of_obstacle file (obstacle file.items) ≡ Refused refusal) }
{
    match fault {
        ExpandFault::Refused(obstacle) => Ok(Refusal {
            item: obstacle.number,
            line: u64::from(obstacle.line),
            code: RefusalCode::Expanded(obstacle.code),
        }),
        ExpandFault::NoMemory => Err(NoMemory),
    }
}

// The number of the item from which an item of the plain file comes, of one of the front.
fn origin(origins: &[u64], item: u32) -> u64
    ensures { result ≡ slice_index_or origins.now (item - 1) 0 }
{
    match origins.get((item as usize).saturating_sub(1)) {
        Some(number) => *number,
        None => 0,
    }
}

// The place and the code of a fault of the checks, of a file written out to one whose items come from these.
fn check_refusal(fault: CheckFault, origins: &[u64]) -> Result<Refusal, NoMemory>
    ensures told { IfOk result (λ refusal. (titles : List (List ℕ)) (found : Result ProgramData Failure) → FailsCheck fault found
        → of_checked_with titles origins.now found ≡ Refused refusal) }
{
    match fault {
        CheckFault::Refused { item, line, code } => Ok(Refusal {
            item: origin(origins, item),
            line: u64::from(line),
            code: RefusalCode::Checked(code),
        }),
        CheckFault::NoMemory => Err(NoMemory),
    }
}

// The program with these names of rules.
#[tactic(auto, using(crate::proofs::Titles::is_runnable))]
fn with_titles(alloc: Global, program: Program, titles: &[Text]) -> Result<Program, NoMemory>
    ensures named { IfOk result (λ p. p ≡ with_titles titles.now program) }
    ensures runnable { IsRunnable program → IfOk result IsRunnable }
{
    let Program {
        types,
        entries,
        rules,
    } = program;
    Ok(Program {
        types,
        entries,
        rules: Seq::from_vec(renamed(alloc, rules.into_vec(), titles)?),
    })
}

// Rules under these names, as far as there are some.
#[tactic(auto, unfolding(crate::specs::Titles::renamed))]
fn renamed(alloc: Global, rules: Vec<Rule>, titles: &[Text]) -> Result<Vec<Rule>, NoMemory>
    ensures { IfOk result (λ named. named.items ≡ renamed titles.now rules.items) }
{
    let mut named = Vec::with_capacity(alloc, rules.len())?;
    for rule in rules {
        let title = match titles.get(named.len()) {
            Some(title) => title.copy(alloc)?,
            None => rule.name.copy(alloc)?,
        };
        named.push(Rule {
            name: title,
            ..rule
        })?;
    }
    Ok(named)
}

// What a file is that is written out to this one.
#[tactic(auto, using(crate::proofs::Expanding::accepted_of))]
fn read_expanded(alloc: Global, expanded: &Expanded) -> Result<Reading, NoMemory>
    ensures reading { IfOk result (λ found. (file : WrittenFile) → IsExpanded file expanded.now → found ≡ of_obstacle file (obstacle file.items)) }
    ensures sound { IfOk result IsSoundReading }
    ensures accepted { IfOk result (λ found. (IsRefusedReading found → ⊥) → (p : ProgramData) × (checked expanded.now.file ≡ Ok p)) }
{
    match check(alloc, &expanded.file) {
        Ok(program) => {
            let titles = expanded.titles.as_slice();
            Ok(Reading::Accepted(with_titles(alloc, program, titles)?))
        }
        Err(fault) => {
            let origins = expanded.origins.as_slice();
            Ok(Reading::Refused(check_refusal(fault, origins)?))
        }
    }
}

// The names of the variables of a file, where they are wanted.
fn wanted_names(alloc: Global, file: &File, named: bool) -> Result<Seq<RuleNames>, NoMemory>
    ensures { named ≡ true → IfOk result (λ all. all ≡ names_of file.now) }
{
    if named {
        names(alloc, file)
    } else {
        Ok(Seq::from_vec(Vec::new(alloc)))
    }
}

// What a file is, and the names of its variables, where they are wanted.
#[tactic(auto, using(crate::proofs::Expanding::names_alike))]
fn read_file(
    alloc: Global,
    file: &Written,
    named: bool,
) -> Result<(Reading, Seq<RuleNames>), NoMemory>
    ensures reading { IfOk result (λ r. r.0 ≡ of_obstacle file.now (obstacle file.now.items)) }
    ensures sound { IfOk result (λ r. IsSoundReading r.0) }
    ensures names { named ≡ true → IfOk result (λ r. (IsRefusedReading r.0 → ⊥) → r.1 ≡ names_of (plain_file file.now)) }
{
    match expand(alloc, file) {
        Ok(expanded) => {
            let reading = read_expanded(alloc, &expanded)?;
            let names = wanted_names(alloc, &expanded.file, named)?;
            Ok((reading, names))
        }
        Err(fault) => {
            let refusal = expand_refusal(fault)?;
            Ok((Reading::Refused(refusal), Seq::from_vec(Vec::new(alloc))))
        }
    }
}

// The text of the rules of a file, where it is to be shown.
fn shown_text(alloc: Global, file: &Written, shows: bool) -> Result<Vec<u8>, NoMemory>
    ensures { shows ≡ true → IfOk result (λ text. text.items ≡ shown file.now) }
{
    if shows {
        show(alloc, file)
    } else {
        Ok(Vec::new(alloc))
    }
}

/// A rule file that was read, once.
#[derive(Drop)]
pub struct RulesRead {
    /// What its bytes are.
    pub reading: Reading,
    /// The text of its rules, where it is accepted and the text was to be shown.
    pub text: Vec<u8>,
    /// The names of its rules' variables, where it is accepted and they were wanted.
    pub names: Seq<RuleNames>,
}

/// Reads what the bytes of a rule file are, the text of its rules, where that is to be shown, and the names of their variables, where these are
/// wanted.
#[tactic(auto, unfolding(crate::specs::Checkpoints::rules_shown, crate::specs::Names::names_read))]
pub fn read_named_rules(
    alloc: Global,
    bytes: &[u8],
    shows: bool,
    named: bool,
) -> Result<RulesRead, NoMemory>
    ensures reading { IfOk result (λ read. read.reading ≡ reading bytes.now) }
    ensures sound { IfOk result (λ read. IsSoundReading read.reading) }
    ensures text { shows ≡ true → IfOk result (λ read. (IsRefusedReading read.reading → ⊥) → read.text.items ≡ rules_shown bytes.now) }
    ensures names { named ≡ true → IfOk result (λ read. (IsRefusedReading read.reading → ⊥) → read.names ≡ names_read bytes.now) }
{
    match parse(alloc, bytes) {
        Ok(file) => {
            let text = shown_text(alloc, &file, shows)?;
            let (reading, names) = read_file(alloc, &file, named)?;
            Ok(RulesRead {
                reading,
                text,
                names,
            })
        }
        Err(fault) => {
            let refusal = parse_refusal(fault)?;
            Ok(RulesRead {
                reading: Reading::Refused(refusal),
                text: Vec::new(alloc),
                names: Seq::from_vec(Vec::new(alloc)),
            })
        }
    }
}

/// What the bytes of a rule file are, and the text of the rules of one that is accepted, where that is to be shown. They are read once.
pub fn read_rules(alloc: Global, bytes: &[u8], shows: bool) -> Result<(Reading, Vec<u8>), NoMemory>
    ensures reading { IfOk result (λ read. read.0 ≡ reading bytes.now) }
    ensures sound { IfOk result (λ read. IsSoundReading read.0) }
    ensures text { shows ≡ true → IfOk result (λ read. (IsRefusedReading read.0 → ⊥) → read.1.items ≡ rules_shown bytes.now) }
{
    let RulesRead { reading, text, .. } = read_named_rules(alloc, bytes, shows, false)?;
    Ok((reading, text))
}

/// What the bytes of a rule file are.
pub(crate) fn reading_of(alloc: Global, bytes: &[u8]) -> Result<Reading, NoMemory>
    ensures reading { IfOk result (λ found. found ≡ reading bytes.now) }
    ensures sound { IfOk result IsSoundReading }
{
    let (reading, _) = read_rules(alloc, bytes, false)?;
    Ok(reading)
}
