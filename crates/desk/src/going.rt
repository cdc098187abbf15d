//! By which lives a live run goes.
ghost use Rattle.std.specs.Prelude.{◌≡◌, ◌++◌, ◌≤◌, ◌^◌, length, slice_get, Option, IfOk, IfErr, IfNone, IfSome, OnOk};
ghost use Rattle.replay.specs.declared.refused_checkpoint.CheckpointCode.TheVariants.{Unfit};
ghost use Rattle.replay.specs.Checkpoints.{checkpoint_text};
ghost use Rattle.life_meaning.specs.Tables.{IsSafeTable};
ghost use Rattle.rule_model.specs.declared.life.LifeTable.{LifeTable as TableOfLives};
ghost use Rattle.rule_world.specs.Programs.{IsRunnable};
ghost use Rattle.desk.specs.declared.going.Inferred.{Inferred as InferredLives};
ghost use Rattle.desk.specs.Going.{AreInferred, AreLater, HaveFewTypes, IsBarred, IsTold, IsTooShort, Lasts, MayGoBy, change_code_text};
ghost use Rattle.desk.specs.Going.{change_text as text_of_change, table_in, type_name};
ghost use Rattle.desk.specs.declared.going.Bar.TheVariants.{NoMemory as NoRoom};
ghost use Rattle.desk.specs.Bars.{IsBar, IsBarOf, IsBarWith, IsFoundOf, IsFoundWith};
ghost use Rattle.desk.specs.Report.{GoesBy, live_in, table_by};

use crate::live::Live;
use crate::wanted::{Begun, Setting};
use change_rules::laws::as_long_lives_are_safe;
use change_rules::{is_as_long, longer_type, longest_table};
use expiry_infer::lives;
use fx_base::{NoMemory, Seq, TypeId};
use replay::Beginning;
use rule_change::ChangeCode;
use rule_model::{LifeTable, Program};
use std::alloc::Global;

/// The line that refuses an image whose lives are none of its rules.
const UNFIT: &[u8] = b"refused checkpoint Unfit\n";

/// Rules that are to come, with their lives.
#[derive(Drop)]
pub(crate) struct Later {
    pub(crate) program: Program,
    pub(crate) lives: LifeTable,
}

/// The lives that are inferred: of the types of a run's rules, and of those of rules that are to come.
#[derive(Drop)]
pub(crate) struct Inferred {
    pub(crate) own: LifeTable,
    pub(crate) later: Option<Later>,
}

fn later_of(alloc: Global, later: Option<Program>) -> Result<Option<Later>, NoMemory>
    requires { IfSome later IsRunnable }
    ensures later { IfOk result (AreLater later) }
    ensures few { IfOk result (λ it. HaveFewTypes it) }
{
    match later {
        Some(program) => {
            let lives = lives(alloc, &program)?;
            Ok(Some(Later { program, lives }))
        }
        None => Ok(None),
    }
}

// The lives of a program's types, and those of the rules that are to come.
fn infer_lives(
    alloc: Global,
    program: &Program,
    later: Option<Program>,
) -> Result<Inferred, NoMemory>
    requires runnable { IsRunnable program.now }
    requires later { IfSome later IsRunnable }
    ensures inferred { IfOk result (AreInferred program.now later) }
    ensures safe { IfOk result (λ it. IsSafeTable program.now it.own) }
    ensures few { IfOk result (λ it. HaveFewTypes it.later) }
{
    let own = lives(alloc, program)?;
    let later = later_of(alloc, later)?;
    Ok(Inferred { own, later })
}

/// A copy of lives.
pub(crate) fn copied(alloc: Global, lives: &LifeTable) -> Result<LifeTable, NoMemory>
    ensures { IfOk result (λ copy. copy ≡ lives.now) }
{
    let lives = lives.lives.as_slice().to_vec(alloc)?;
    Ok(LifeTable {
        lives: Seq::from_vec(lives),
    })
}

// The table by which a run goes that begins there, with the lives that its image says.
fn table_of(
    alloc: Global,
    program: &Program,
    inferred: &Inferred,
    beginning: &Beginning,
    lives: Option<LifeTable>,
) -> Result<LifeTable, NoMemory>
    requires { HaveFewTypes inferred.now.later }
    ensures { IfOk result (λ table. table ≡ table_in program.now inferred.now beginning.now lives) }
{
    match (beginning, lives, &inferred.later) {
        (Beginning::Behind(_), Some(lives), _) => Ok(lives),
        (Beginning::Behind(_), None, _) => copied(alloc, &inferred.own),
        (Beginning::First(_), _, None) => copied(alloc, &inferred.own),
        (Beginning::First(_), _, Some(later)) => longest_table(
            alloc,
            program,
            &later.program,
            &inferred.own,
            &later.lives,
        ),
    }
}

// What the images of a run by a table say of it, where these lives are its own.
fn told(alloc: Global, own: &LifeTable, table: &LifeTable) -> Result<Option<LifeTable>, NoMemory>
    ensures { IfOk result (IsTold own.now table.now) }
{
    if table.lives == own.lives {
        return Ok(None);
    }
    let told = copied(alloc, table)?;
    Ok(Some(told))
}

// Appends the name of a type.
fn push_type(text: &mut Vec<u8>, program: &Program, ty: TypeId) -> Result<(), NoMemory>
    ensures { OnOk result (text.new.items ≡ text.old.items ++ type_name (slice_get program.now.types ty.0)) }
{
    if let Some(info) = program.types.as_slice().get(usize::from(ty.0)) {
        text.extend_from_slice(info.name.as_str().as_bytes())?;
    }
    Ok(())
}

// Appends the code, with its type.
fn push_code(text: &mut Vec<u8>, program: &Program, code: ChangeCode) -> Result<(), NoMemory>
    ensures { OnOk result (text.new.items ≡ text.old.items ++ change_code_text program.now code) }
{
    match code {
        ChangeCode::OtherTypes => text.extend_from_slice(b"OtherTypes")?,
        ChangeCode::OtherEntries => text.extend_from_slice(b"OtherEntries")?,
        ChangeCode::Pending => text.extend_from_slice(b"Pending")?,
        ChangeCode::Longer(ty) => {
            text.extend_from_slice(b"Longer ")?;
            push_type(text, program, ty)?;
        }
        ChangeCode::Forgotten(ty) => {
            text.extend_from_slice(b"Forgotten ")?;
            push_type(text, program, ty)?;
        }
    }
    Ok(())
}

/// The line with which other rules are refused. Types are those of these rules.
pub(crate) fn change_text(
    alloc: Global,
    program: &Program,
    code: ChangeCode,
) -> Result<Vec<u8>, NoMemory>
    ensures { IfOk result (λ text. text.items ≡ text_of_change program.now code) }
{
    let mut text = Vec::new(alloc);
    text.extend_from_slice(b"refused checkpoint ")?;
    push_code(&mut text, program, code)?;
    text.push(b'\n')?;
    Ok(text)
}

// The line that bars a run whose events are kept too short for rules that are to come.
fn short_text(
    alloc: Global,
    program: &Program,
    later: &Option<Later>,
    table: &LifeTable,
) -> Result<Option<Vec<u8>>, NoMemory>
    requires types { length program.now.types ≤ 2 ^ 16 }
    requires later { HaveFewTypes later.now }
    ensures short { IfOk result (λ line. IfSome line (λ text. IsTooShort program.now later.now table.now text.items)) }
    ensures lasts { IfOk result (λ line. IfNone line (Lasts program.now later.now table.now)) }
{
    let Some(later) = later else {
        return Ok(None);
    };
    match longer_type(alloc, program, &later.program, table, &later.lives)? {
        Some(ty) => {
            let text = change_text(alloc, &later.program, ChangeCode::Longer(ty))?;
            Ok(Some(text))
        }
        None => Ok(None),
    }
}

/// A live run with the table by which it goes.
#[derive(Drop)]
pub(crate) struct Going {
    pub(crate) live: Live,
    pub(crate) table: LifeTable,
}

/// Why a live run does not go.
#[derive(Drop)]
pub(crate) enum Bar {
    /// By its lives no run may go, as this line says.
    Line(Vec<u8>),
    NoMemory,
}

impl From<NoMemory> for Bar {
    ghost from_gives = { λ _ bar. bar ≡ NoRoom };

    fn from(_: NoMemory) -> Self {
        Bar::NoMemory
    }
}

fn unfit_text(alloc: Global) -> Result<Vec<u8>, NoMemory>
    ensures { IfOk result (λ text. text.items ≡ checkpoint_text Unfit) }
{
    let mut text = Vec::new(alloc);
    text.extend_from_slice(UNFIT)?;
    Ok(text)
}

// The line that bars a run by this table, where no run of the program may go by it.
fn bar_text(
    alloc: Global,
    program: &Program,
    inferred: &Inferred,
    table: &LifeTable,
) -> Result<Option<Vec<u8>>, NoMemory>
    requires types { length program.now.types ≤ 2 ^ 16 }
    requires later { HaveFewTypes inferred.now.later }
    ensures barred { IfOk result (λ line. IfSome line (λ text. IsBarred program.now inferred.now table.now text.items)) }
    ensures may_go { IfOk result (λ line. IfNone line (MayGoBy program.now inferred.now table.now)) }
{
    if is_as_long(&inferred.own, table) {
        short_text(alloc, program, &inferred.later, table)
    } else {
        Ok(Some(unfit_text(alloc)?))
    }
}

// The table by which a run goes, and what its images say of it, if they say some.
#[derive(Drop)]
pub(crate) struct Found {
    pub(crate) table: LifeTable,
    pub(crate) told: Option<LifeTable>,
}

// With these lives that are inferred.
fn find_with(
    alloc: Global,
    program: &Program,
    inferred: &Inferred,
    beginning: &Beginning,
    lives: Option<LifeTable>,
) -> Result<Found, Bar>
    requires types { length program.now.types ≤ 2 ^ 16 }
    requires later { HaveFewTypes inferred.now.later }
    ensures found { IfOk result (IsFoundWith program.now inferred.now beginning.now lives) }
    ensures barred { IfErr result (IsBarWith program.now inferred.now beginning.now lives) }
{
    let table = table_of(alloc, program, inferred, beginning, lives)?;
    if let Some(line) = bar_text(alloc, program, inferred, &table)? {
        return Err(Bar::Line(line));
    }
    let told = told(alloc, &inferred.own, &table)?;
    Ok(Found { table, told })
}

// The table by which a run of a program goes from its beginning, with the lives that its image says, where these rules are to come.
fn find_table(
    alloc: Global,
    program: &Program,
    later: Option<Program>,
    beginning: &Beginning,
    lives: Option<LifeTable>,
) -> Result<Found, Bar>
    requires runnable { IsRunnable program.now }
    requires later { IfSome later IsRunnable }
    ensures found { IfOk result (IsFoundOf program.now later beginning.now lives) }
    ensures safe { IfOk result (λ it. IsSafeTable program.now it.table) }
    ensures barred { IfErr result (IsBarOf program.now later beginning.now lives) }
{
    as_long_lives_are_safe();
    let inferred = infer_lives(alloc, program, later)?;
    find_with(alloc, program, &inferred, beginning, lives)
}

/// A live run with the table by which it goes, or why it does not go.
pub(crate) fn find_going(alloc: Global, begun: Begun) -> Result<Going, Bar>
    requires runnable { IsRunnable begun.setting.program }
    requires later { IfSome begun.setting.later IsRunnable }
    ensures goes { IfOk result (λ it. (inferred : InferredLives) × (told : Option TableOfLives) × GoesBy begun inferred told × (it.live ≡ live_in begun told) × (it.table ≡ table_by begun inferred)) }
    ensures safe { IfOk result (λ it. IsSafeTable begun.setting.program it.table) }
    ensures barred { IfErr result (IsBar begun) }
{
    let Begun {
        setting,
        beginning,
        lives,
    } = begun;
    let Setting {
        program,
        each,
        form,
        image,
        later,
    } = setting;
    match find_table(alloc, &program, later, &beginning, lives) {
        Ok(found) => {
            let live = Live {
                program,
                beginning,
                each,
                form,
                image,
                told: found.told,
            };
            Ok(Going {
                live,
                table: found.table,
            })
        }
        Err(bar) => Err(bar),
    }
}
