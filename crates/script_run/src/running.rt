ghost use Rattle.std.specs.Prelude.{◌≡◌, ◌+◌, ◌<◌, ◌≤◌, ◌^◌, [], length, List, ℕ, true, IfOk, IfSome, OnErr, IsErrOf};
ghost use Rattle.fx_io.specs.Outside.{Rose, append, AppendsFront, count_after};
ghost use Rattle.fx_io.specs.Lines.{lines_of};
ghost use Rattle.life_meaning.specs.Tables.{IsSafeTable};
ghost use Rattle.rule_world.specs.Programs.{IsRunnable};
ghost use Rattle.rule_world.specs.Worlds.{World};
ghost use Rattle.line_run.specs.Prompt.{heard, whole_lines, IsPromptRun};
ghost use Rattle.line_run.specs.Run.{state_in};
ghost use Rattle.line_run.specs.Turns.{AtEnd, ReachesWorld, ended_as};
ghost use Rattle.line_run.specs.Unfinished.{StoppedAtRead};
ghost use Rattle.script_run.specs.Run.{setting_of, run as run_lines, whole_run};
ghost use Rattle.script_run.specs.Turns.{TakesScript, as_ended};
ghost use Rattle.script_run.specs.Unfinished.{Long};

use crate::form::Form;
use crate::obeying::{Obeying, boxed_scratch};
use crate::run_fault::RunFault;
use engine::Engine;
use fx_io::{Sink, Source};
use line_run::{Ended, Progress, StopFault, run_lines};
use rule_model::{LifeTable, Program};
use std::alloc::Global;

/// The most bytes that a script may have.
const SCRIPT_MAX: u64 = 1_073_741_824;

/// Runs a script with an engine, from where the run has come so far, to its end or to the limit of firings. At the end of the script it
/// hands back the engine and how far the run has come, so that it can go on; at the limit nothing. What lines print is gathered, and
/// written before the next read of the script; a silent run writes nothing.
///
/// It may be run over each source that asks for no more than this (`prompt`): whenever more is asked of it, all that the lines print whose ends
/// were taken is written, and nothing else. This is required of each single call of `read`, so it holds of a run too that never comes to its end.
pub fn run_from<E: Engine, S: Source<K>, K: Sink>(
    alloc: Global,
    engine: E,
    at: Progress,
    limit: u64,
    script: &mut S,
    out: &mut K,
    silent: bool,
) -> Result<Option<(E, Progress)>, RunFault>
    requires tags { E.tags engine ≤ 2 ^ 61 }
    requires counted { at.lines ≤ 2 ^ 61 }
    requires low { at.left ≤ 1000000 }
    requires prompt { (bytes : List ℕ) (now : K)
        → IsPromptRun silent (E.stands engine) (λ w. run_lines (setting_of E.gives E.fires E.counts limit (E.made_with engine) (E.table engine)) (state_in w at))
        bytes (K.written out.old) (K.written now)
        → S.may_ask script.old bytes now }
    ensures done { IfOk result (λ found. (text : List ℕ) × (K.written out.new ≡ append (K.written out.old) text)
        × ((w : World) → E.stands engine w → IfSome (S.left script.old) (λ bytes.
        let outcome = heard silent (run_lines (setting_of E.gives E.fires E.counts limit (E.made_with engine) (E.table engine)) (state_in w at) (lines_of bytes)) in
        (text ≡ outcome.bytes) × (ended_as found ≡ outcome.ended) × ReachesWorld E.stands outcome.comes_to found))) }
    ensures program { IfOk result (λ found. IfSome found (λ it. E.made_with it.0 ≡ E.made_with engine)) }
    ensures table { IfOk result (λ found. IfSome found (λ it. E.table it.0 ≡ E.table engine)) }
    ensures front { (w : World) → E.stands engine w → IfSome (S.left script.old) (λ bytes. OnErr result
        (AppendsFront (K.written out.old) (K.written out.new)
        (heard silent (run_lines (setting_of E.gives E.fires E.counts limit (E.made_with engine) (E.table engine)) (state_in w at) (lines_of bytes))).bytes)) }
    ensures quiet { silent ≡ true → K.written out.new ≡ K.written out.old }
    ensures taken { (n : ℕ) × (S.given script.new ≡ count_after (S.given script.old) n) × TakesScript (as_ended result) n × (n ≤ 2 ^ 30 + 1) }
    ensures read { IsErrOf result RunFault.ReadFault → Rose (S.faults script.old) (S.faults script.new) }
    ensures write { IsErrOf result RunFault.WriteFault → Rose (K.faults out.old) (K.faults out.new) }
    ensures long { (w : World) → E.stands engine w → IsErrOf result RunFault.ScriptLong → IfSome (S.left script.old)
        (Long (run_lines (setting_of E.gives E.fires E.counts limit (E.made_with engine) (E.table engine)) (state_in w at))) }
    ensures over { IsErrOf result RunFault.ScriptLong → IfSome (S.left script.old) (λ bytes. 2 ^ 30 < length bytes) }
    ensures stopped_at_read { (w : World) → E.stands engine w → IsErrOf result RunFault.ReadFault → IfSome (S.left script.old) (λ bytes.
        StoppedAtRead (λ lines. heard silent (run_lines (setting_of E.gives E.fires E.counts limit (E.made_with engine) (E.table engine)) (state_in w at) lines))
        bytes (S.left script.new) (K.written out.old) (K.written out.new)) }
    ensures stopped_at_length { (w : World) → E.stands engine w → IsErrOf result RunFault.ScriptLong → IfSome (S.left script.old) (λ bytes.
        StoppedAtRead (λ lines. heard silent (run_lines (setting_of E.gives E.fires E.counts limit (E.made_with engine) (E.table engine)) (state_in w at) lines))
        bytes (S.left script.new) (K.written out.old) (K.written out.new)) }
    ensures nothing_left { IfOk result (λ found. AtEnd (ended_as found) (IfSome (S.left script.new) (λ bytes. bytes ≡ []))) }
    ensures script_counts { S.faults script.old ≤ S.faults script.new }
    ensures out_counts { K.faults out.old ≤ K.faults out.new }
{
    let scratch = boxed_scratch(alloc)?;
    let taker = Obeying {
        engine,
        limit,
        live: None,
        form: Form::Text,
        scratch,
    };
    match run_lines(alloc, taker, at, SCRIPT_MAX, script, out, silent) {
        Ok(Some((taker, at))) => Ok(Some((taker.engine, at))),
        Ok(None) => Ok(None),
        Err(StopFault::ReadFault) => Err(RunFault::ReadFault),
        Err(StopFault::WriteFault) => Err(RunFault::WriteFault),
        Err(StopFault::ScriptLong) => Err(RunFault::ScriptLong),
        // No line of a recorded script saves, so none is refused.
        Err(StopFault::NoMemory) | Err(StopFault::Refused(_)) => Err(RunFault::NoMemory),
    }
}

fn ending<E: Engine>(found: Option<(E, Progress)>) -> Ended
    ensures { result ≡ ended_as found }
{
    match found {
        Some((_, at)) => Ended::Script(at.faulted),
        None => Ended::Limit,
    }
}

/// Runs a script to its end or to the limit of firings, by a table of the lives of the program's types. What lines print is gathered, and
/// written before the next read of the script (`prompt`, as of [`run_from`]).
pub fn run<E: Engine, S: Source<K>, K: Sink>(
    alloc: Global,
    program: Program,
    lives: LifeTable,
    limit: u64,
    script: &mut S,
    out: &mut K,
) -> Result<Ended, RunFault>
    requires runnable { IsRunnable program }
    requires table { IsSafeTable program lives }
    requires low { limit ≤ 1000000 }
    requires prompt { (bytes : List ℕ) (now : K)
        → K.written now ≡ append (K.written out.old) (whole_run (setting_of E.gives E.fires E.counts limit program lives) (whole_lines bytes)).bytes
        → S.may_ask script.old bytes now }
    ensures done { IfSome (S.left script.old) (λ bytes. IfOk result (λ ended.
        (ended ≡ (whole_run (setting_of E.gives E.fires E.counts limit program lives) (lines_of bytes)).ended)
        × (K.written out.new ≡ append (K.written out.old) (whole_run (setting_of E.gives E.fires E.counts limit program lives) (lines_of bytes)).bytes))) }
    ensures front { IfSome (S.left script.old) (λ bytes. OnErr result
        (AppendsFront (K.written out.old) (K.written out.new) (whole_run (setting_of E.gives E.fires E.counts limit program lives) (lines_of bytes)).bytes)) }
    ensures taken { (n : ℕ) × (S.given script.new ≡ count_after (S.given script.old) n) × TakesScript result n × (n ≤ 2 ^ 30 + 1) }
    ensures read { IsErrOf result RunFault.ReadFault → Rose (S.faults script.old) (S.faults script.new) }
    ensures write { IsErrOf result RunFault.WriteFault → Rose (K.faults out.old) (K.faults out.new) }
    ensures long { IsErrOf result RunFault.ScriptLong → IfSome (S.left script.old) (Long (whole_run (setting_of E.gives E.fires E.counts limit program lives))) }
    ensures over { IsErrOf result RunFault.ScriptLong → IfSome (S.left script.old) (λ bytes. 2 ^ 30 < length bytes) }
    ensures stopped_at_read { IsErrOf result RunFault.ReadFault → IfSome (S.left script.old) (λ bytes.
        StoppedAtRead (whole_run (setting_of E.gives E.fires E.counts limit program lives)) bytes (S.left script.new) (K.written out.old) (K.written out.new)) }
    ensures stopped_at_length { IsErrOf result RunFault.ScriptLong → IfSome (S.left script.old) (λ bytes.
        StoppedAtRead (whole_run (setting_of E.gives E.fires E.counts limit program lives)) bytes (S.left script.new) (K.written out.old) (K.written out.new)) }
    ensures nothing_left { IfOk result (λ ended. AtEnd ended (IfSome (S.left script.new) (λ bytes. bytes ≡ []))) }
    ensures script_counts { S.faults script.old ≤ S.faults script.new }
    ensures out_counts { K.faults out.old ≤ K.faults out.new }
{
    let engine = E::new(alloc, program, lives)?;
    match run_from(
        alloc,
        engine,
        Progress::first(limit),
        limit,
        script,
        out,
        false,
    ) {
        Ok(found) => Ok(ending(found)),
        Err(fault) => Err(fault),
    }
}
