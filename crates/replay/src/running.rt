//! A run over a program, from its beginning.
ghost use Rattle.std.specs.Prelude.{◌≡◌, ◌≤◌, ◌^◌, List, Option, ℕ, Some, IfOk, OnOk, IsErrOf};
ghost use Rattle.command_words.specs.declared.asking.Asked.TheVariants.{RuleFile};
ghost use Rattle.life_meaning.specs.Tables.{AreLives, IsSafeTable};
ghost use Rattle.rule_model.specs.declared.life.LifeTable.{LifeTable as TableOfLives};
ghost use Rattle.rule_world.specs.Programs.{IsRunnable};
ghost use Rattle.rule_world.specs.Worlds.{World};
ghost use Rattle.replay.specs.Beginnings.{BeginsIn, CanBegin, IsBeginningFor, part_of};
ghost use Rattle.replay.specs.Calls.{ShelfSeen, seen, RunOf};
ghost use Rattle.replay.specs.Report.{IsPrompt};
ghost use Rattle.replay.specs.Wanted.{wanted_at};

use crate::beginning::Beginning;
use crate::refused_checkpoint::{CheckpointCode, refuse_checkpoint};
use crate::status::{status_found, status_of_fault};
use checkpoint::RunPart;
use command_words::Mode;
use engine::{Engine, ResumeFault};
use expiry_infer::lives;
use fx_io::{Sink, Source};
use line_run::Progress;
use rule_model::{LifeTable, Program};
use script_run::run_from;
use std::alloc::Global;

// An engine in each world of the beginning.
fn engine_in<E: Engine>(
    alloc: Global,
    program: Program,
    lives: LifeTable,
    beginning: Beginning,
) -> Result<E, ResumeFault>
    requires runnable { IsRunnable program }
    requires table { IsSafeTable program lives }
    ensures stands { IfOk result (λ e. (w : World) → BeginsIn program lives beginning w → E.stands e w) }
    ensures program { IfOk result (λ e. E.made_with e ≡ program) }
    ensures table { IfOk result (λ e. E.table e ≡ lives) }
    ensures tags { IfOk result (λ e. E.tags e ≤ 2 ^ 61) }
    ensures lines { OnOk result ((part_of beginning).lines ≤ 2 ^ 61) }
    ensures fits { OnOk result (CanBegin program lives beginning) }
    ensures unfit { IsErrOf result ResumeFault.Unfit → CanBegin program lives beginning → ⊥ }
{
    match beginning {
        Beginning::First(_) => Ok(E::new(alloc, program, lives)?),
        Beginning::Behind(image) => E::resume(alloc, program, lives, image),
    }
}

/// An engine in each world of the beginning, and what an image says of the run before it has gone on. What an image holds goes into the
/// engine.
pub fn begun<E: Engine>(
    alloc: Global,
    program: Program,
    lives: LifeTable,
    beginning: Beginning,
) -> Result<(E, RunPart), ResumeFault>
    requires runnable { IsRunnable program }
    requires table { IsSafeTable program lives }
    ensures stands { IfOk result (λ b. (w : World) → BeginsIn program lives beginning w → E.stands b.0 w) }
    ensures program { IfOk result (λ b. E.made_with b.0 ≡ program) }
    ensures table { IfOk result (λ b. E.table b.0 ≡ lives) }
    ensures tags { IfOk result (λ b. E.tags b.0 ≤ 2 ^ 61) }
    ensures part { IfOk result (λ b. b.1 ≡ part_of beginning) }
    ensures lines { OnOk result ((part_of beginning).lines ≤ 2 ^ 61) }
    ensures fits { OnOk result (CanBegin program lives beginning) }
    ensures unfit { IsErrOf result ResumeFault.Unfit → CanBegin program lives beginning → ⊥ }
{
    let part = beginning.part(alloc)?;
    let engine = engine_in::<E>(alloc, program, lives, beginning)?;
    Ok((engine, part))
}

// Runs a program with the table of its lives over a script, from the beginning.
fn run_with_lives<E: Engine, S: Source<K>, K: Sink>(
    alloc: Global,
    program: Program,
    lives: LifeTable,
    beginning: Beginning,
    limit: u64,
    script: &mut S,
    out: &mut K,
) -> u8
    requires runnable { IsRunnable program }
    requires lives { AreLives program lives }
    requires table { IsSafeTable program lives }
    requires low { limit ≤ 1000000 }
    requires prompt { (bytes : List ℕ) (now : K)
        → IsPrompt E.gives E.fires E.counts (wanted_at Mode.Run limit beginning program) bytes (K.written out.old) (K.written now) → S.may_ask script.old bytes now }
    ensures run { (name : List ℕ) (image : Option (List ℕ)) (first last : ShelfSeen) → IsBeginningFor first.files Mode.Run image beginning
        → RunOf E.gives E.fires E.counts (Some (RuleFile name Mode.Run limit image)) (Some (wanted_at Mode.Run limit beginning program))
        (seen first (S.left script.old) (S.given script.old) (S.faults script.old) (K.written out.old) (K.faults out.old))
        (seen last (S.left script.new) (S.given script.new) (S.faults script.new) (K.written out.new) (K.faults out.new)) result }
    ensures untouched { result ≡ 9 → script.new ≡ script.old }
    ensures unread { (CanBegin program lives beginning → ⊥) → script.new ≡ script.old }
{
    let begun = match begun::<E>(alloc, program, lives, beginning) {
        Ok(begun) => begun,
        Err(ResumeFault::Unfit) => return refuse_checkpoint(alloc, out, CheckpointCode::Unfit),
        Err(ResumeFault::NoMemory) => return 7,
    };
    let (engine, part) = begun;
    let at = Progress::behind(&part, limit);
    match run_from::<E, S, K>(alloc, engine, at, limit, script, out, false) {
        Ok(found) => status_found(found),
        Err(fault) => status_of_fault(fault),
    }
}

/// Runs a program over a script, from the beginning, by the lives that are inferred of its types.
pub(crate) fn run_program<E: Engine, S: Source<K>, K: Sink>(
    alloc: Global,
    program: Program,
    beginning: Beginning,
    limit: u64,
    script: &mut S,
    out: &mut K,
) -> u8
    requires runnable { IsRunnable program }
    requires low { limit ≤ 1000000 }
    requires prompt { (bytes : List ℕ) (now : K)
        → IsPrompt E.gives E.fires E.counts (wanted_at Mode.Run limit beginning program) bytes (K.written out.old) (K.written now) → S.may_ask script.old bytes now }
    ensures run { (name : List ℕ) (image : Option (List ℕ)) (first last : ShelfSeen) → IsBeginningFor first.files Mode.Run image beginning
        → RunOf E.gives E.fires E.counts (Some (RuleFile name Mode.Run limit image)) (Some (wanted_at Mode.Run limit beginning program))
        (seen first (S.left script.old) (S.given script.old) (S.faults script.old) (K.written out.old) (K.faults out.old))
        (seen last (S.left script.new) (S.given script.new) (S.faults script.new) (K.written out.new) (K.faults out.new)) result }
    ensures untouched { result ≡ 9 → script.new ≡ script.old }
    ensures unread { ((table : TableOfLives) → AreLives program table → CanBegin program table beginning → ⊥) → script.new ≡ script.old }
{
    match lives(alloc, &program) {
        Ok(lives) => {
            run_with_lives::<E, S, K>(alloc, program, lives, beginning, limit, script, out)
        }
        Err(_) => 7,
    }
}
