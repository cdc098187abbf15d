//! The rule files that a desk reads.
ghost use Rattle.std.specs.Prelude.{◌≡◌, ◌≤◌, ℕ, List, true, Err, IfOk, IfSome, IsErrOf};
ghost use Rattle.fx_io.specs.Outside.{IsOnShelf, Rose};
ghost use Rattle.replay.specs.declared.refusal.Refusal.{Refusal as RefusalData};
ghost use Rattle.replay.specs.Wanted.{Files};
ghost use Rattle.rule_world.specs.Programs.{IsRunnable};
ghost use Rattle.desk.specs.declared.reading.RulesFault.TheVariants.{NoMemory as NoRoom};
ghost use Rattle.desk.specs.Rules.{AreAccepted, AreRefused, AreRefusedIn, coming_as};
ghost use Rattle.desk.specs.Wanted.{cannot_come, to_come};

use drl_names::RuleNames;
use fx_base::{NoMemory, Seq, Text};
use fx_io::Shelf;
use replay::{
    FILE_MAX, FileFault, Reading, Refusal, RefusalCode, RulesRead, read_named_rules, read_whole,
    whole_file,
};
use rule_model::Program;
use std::alloc::Global;

/// An accepted rule file: its program, the text of its rules, where that is shown, and the names of their variables, where these are wanted.
#[derive(Drop)]
pub(crate) struct Rules {
    pub(crate) program: Program,
    pub(crate) text: Vec<u8>,
    pub(crate) names: Seq<RuleNames>,
}

/// Why there are no rules.
#[derive(Drop)]
pub(crate) enum RulesFault {
    Refused(Refusal),
    ReadFault,
    NoMemory,
}

impl From<NoMemory> for RulesFault {
    ghost from_gives = { λ _ fault. fault ≡ NoRoom };

    fn from(_: NoMemory) -> Self {
        RulesFault::NoMemory
    }
}

/// The rules of a text, where it is accepted.
pub(crate) fn rules_of(
    alloc: Global,
    bytes: &[u8],
    shows: bool,
    named: bool,
) -> Result<Rules, RulesFault>
    ensures accepted { IfOk result (AreAccepted bytes.now shows named) }
    ensures refused { (refusal : RefusalData) → result ≡ Err (RulesFault.Refused refusal) → AreRefused bytes.now refusal }
    ensures runnable { IfOk result (λ rules. IsRunnable rules.program) }
    ensures read { IsErrOf result RulesFault.ReadFault → ⊥ }
{
    let RulesRead {
        reading,
        text,
        names,
    } = read_named_rules(alloc, bytes, shows, named)?;
    match reading {
        Reading::Accepted(program) => Ok(Rules {
            program,
            text,
            names,
        }),
        Reading::Refused(refusal) => Err(RulesFault::Refused(refusal)),
    }
}

/// The rules in the file of this name, where they are accepted.
pub(crate) fn rules_in<F: Shelf>(
    alloc: Global,
    shelf: &mut F,
    name: &str,
    shows: bool,
    named: bool,
) -> Result<Rules, RulesFault>
    ensures accepted { IfOk result (λ rules. (files : Files) → F.files shelf.old ≡ Some files → IfSome (files name.now) (λ file. AreAccepted file shows named rules)) }
    ensures found { IfOk result (λ _. IsOnShelf (F.files shelf.old) name.now) }
    ensures refused { (refusal : RefusalData) → result ≡ Err (RulesFault.Refused refusal) → (files : Files) → F.files shelf.old ≡ Some files
        → AreRefusedIn (files name.now) refusal }
    ensures runnable { IfOk result (λ rules. IsRunnable rules.program) }
    ensures failed { IsErrOf result RulesFault.ReadFault → Rose (F.faults shelf.old name.now) (F.faults shelf.new name.now) }
    ensures files { F.files shelf.new ≡ F.files shelf.old }
    ensures counts { (other : List ℕ) → F.faults shelf.old other ≤ F.faults shelf.new other }
{
    match read_whole(alloc, shelf, name, FILE_MAX + 1) {
        Ok(file) => rules_of(alloc, &file, shows, named),
        Err(FileFault::Missing) => Err(RulesFault::Refused(whole_file(RefusalCode::Missing))),
        Err(FileFault::ReadFault) => Err(RulesFault::ReadFault),
        Err(FileFault::NoMemory) => Err(RulesFault::NoMemory),
    }
}

/// The program of the rules that are to come, where their file is named.
pub(crate) fn later_rules<F: Shelf>(
    alloc: Global,
    shelf: &mut F,
    name: &Option<Text>,
) -> Result<Option<Program>, RulesFault>
    ensures later { IfOk result (λ later. (files : Files) → F.files shelf.old ≡ Some files → to_come name.now files ≡ coming_as later) }
    ensures refused { (refusal : RefusalData) → result ≡ Err (RulesFault.Refused refusal) → (files : Files) → F.files shelf.old ≡ Some files
        → to_come name.now files ≡ cannot_come refusal }
    ensures runnable { IfOk result (λ later. IfSome later IsRunnable) }
    ensures failed { IsErrOf result RulesFault.ReadFault → (it : List ℕ) × (name.now ≡ Some it) × Rose (F.faults shelf.old it) (F.faults shelf.new it) }
    ensures files { F.files shelf.new ≡ F.files shelf.old }
    ensures counts { (other : List ℕ) → F.faults shelf.old other ≤ F.faults shelf.new other }
{
    match name {
        Some(name) => {
            let rules = rules_in(alloc, shelf, name.as_str(), false, false)?;
            Ok(Some(rules.program))
        }
        None => Ok(None),
    }
}
