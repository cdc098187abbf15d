ghost use Rattle.std.specs.Prelude.{◌≡◌, ◌+◌, ◌<◌, ◌≤◌, ◌^◌, [], length, List, ℕ, true, IfOk, IfSome, OnErr, IsErrOf};
ghost use Rattle.fx_io.specs.Outside.{Rose, append, AppendsFront, count_after};
ghost use Rattle.fx_io.specs.Lines.{lines_of};
ghost use Rattle.rule_world.specs.Worlds.{World};
ghost use Rattle.line_run.specs.declared.fault.ImageFault.{ImageFault as ImageFaultData};
ghost use Rattle.line_run.specs.Prompt.{heard, whole_lines, IsPromptRun};
ghost use Rattle.line_run.specs.Run.{state_in, run, saved_states};
ghost use Rattle.line_run.specs.Saves.{ArePut};
ghost use Rattle.line_run.specs.Turns.{TakesUpTo, AtEnd, ReachesWorld, ended_as, as_ended};
ghost use Rattle.line_run.specs.Unfinished.{LongOver, StoppedAtRead, KeptFront, StoppedKept, RefusedAt};

use crate::fault::{StopFault, of_line_fault};
use crate::gathered::{flush, flush_front, hush};
use crate::taker::LineTaker;
use crate::turn::{Progress, Turn};
use fx_base::limits::LINE_MAX;
use fx_io::{LineReader, Sink, Source, write_all};
use std::alloc::Global;

/// So many gathered bytes are written though the next line is at hand.
const PIECE: usize = 65_536;

/// Hands the lines of a script of at most so many bytes to what takes them, from where the run has come so far, to the end of the script or to
/// the limit of firings. At the end of the script it hands back what took them and how far the run has come, so that it can go on; at the
/// limit nothing. What lines print is gathered, and written before the next read of the script; a silent run writes nothing. Behind a line that
/// saves the image of the state is put: what the lines before it print is written first, and what it prints afterwards.
///
/// It may be run over each source that asks for no more than this (`prompt`): whenever more is asked of it, all that the lines print whose ends
/// were taken is written, and nothing else, and all their images are put. This is required of each single call of `read`, so it holds of a run
/// too that never comes to its end.
pub fn run_lines<T: LineTaker<K>, S: Source<K>, K: Sink>(
    alloc: Global,
    taker: T,
    at: Progress,
    most: u64,
    script: &mut S,
    out: &mut K,
    silent: bool,
) -> Result<Option<(T, Progress)>, StopFault>
    requires counted { at.lines ≤ 2 ^ 61 }
    requires low { most ≤ 2 ^ 61 }
    requires ready { T.ready taker at (most + 1) }
    requires prompt { (bytes : List ℕ) (now : K)
        → IsPromptRun silent (T.stands taker) (λ w. run (T.steps taker) (state_in w at)) bytes (K.written out.old) (K.written now)
        → ((w : World) → T.stands taker w
        → ArePut (T.puts taker) (saved_states (T.steps taker) (state_in w at) (whole_lines bytes)) (K.files out.old) (K.files now))
        → S.may_ask script.old bytes now }
    ensures done { IfOk result (λ found. (text : List ℕ) × (K.written out.new ≡ append (K.written out.old) text)
        × ((w : World) → T.stands taker w → IfSome (S.left script.old) (λ bytes.
        let outcome = heard silent (run (T.steps taker) (state_in w at) (lines_of bytes)) in
        (text ≡ outcome.bytes) × (ended_as found ≡ outcome.ended) × ReachesWorld T.stands outcome.comes_to found))) }
    ensures program { IfOk result (λ found. IfSome found (λ it. T.program it.0 ≡ T.program taker)) }
    ensures table { IfOk result (λ found. IfSome found (λ it. T.table it.0 ≡ T.table taker)) }
    ensures front { (w : World) → T.stands taker w → IfSome (S.left script.old) (λ bytes. OnErr result
        (AppendsFront (K.written out.old) (K.written out.new) (heard silent (run (T.steps taker) (state_in w at) (lines_of bytes))).bytes)) }
    ensures quiet { silent ≡ true → K.written out.new ≡ K.written out.old }
    ensures taken { (n : ℕ) × (S.given script.new ≡ count_after (S.given script.old) n) × TakesUpTo most (as_ended result) n × (n ≤ most + 1) }
    ensures read { IsErrOf result StopFault.ReadFault → Rose (S.faults script.old) (S.faults script.new) }
    ensures write { IsErrOf result StopFault.WriteFault → Rose (K.faults out.old) (K.faults out.new) }
    ensures long { (w : World) → T.stands taker w → IsErrOf result StopFault.ScriptLong → IfSome (S.left script.old)
        (LongOver most (run (T.steps taker) (state_in w at))) }
    ensures over { IsErrOf result StopFault.ScriptLong → IfSome (S.left script.old) (λ bytes. most < length bytes) }
    ensures stopped_at_read { (w : World) → T.stands taker w → IsErrOf result StopFault.ReadFault → IfSome (S.left script.old) (λ bytes.
        StoppedAtRead (λ lines. heard silent (run (T.steps taker) (state_in w at) lines)) bytes (S.left script.new) (K.written out.old) (K.written out.new)) }
    ensures stopped_at_length { (w : World) → T.stands taker w → IsErrOf result StopFault.ScriptLong → IfSome (S.left script.old) (λ bytes.
        StoppedAtRead (λ lines. heard silent (run (T.steps taker) (state_in w at) lines)) bytes (S.left script.new) (K.written out.old) (K.written out.new)) }
    ensures kept { (w : World) → T.stands taker w → IfSome (S.left script.old) (λ bytes. IfOk result (λ found.
        ArePut (T.puts taker) (saved_states (T.steps taker) (state_in w at) (lines_of bytes)) (K.files out.old) (K.files out.new))) }
    ensures kept_front { (w : World) → T.stands taker w → IfSome (S.left script.old) (λ bytes. OnErr result
        (KeptFront (T.puts taker) (λ lines. heard silent (run (T.steps taker) (state_in w at) lines)) (saved_states (T.steps taker) (state_in w at))
        bytes (K.written out.old) (K.written out.new) (K.files out.old) (K.files out.new))) }
    ensures kept_at_read { (w : World) → T.stands taker w → IsErrOf result StopFault.ReadFault → IfSome (S.left script.old) (λ bytes.
        StoppedKept (T.puts taker) (λ lines. heard silent (run (T.steps taker) (state_in w at) lines)) (saved_states (T.steps taker) (state_in w at))
        bytes (S.left script.new) (K.written out.old) (K.written out.new) (K.files out.old) (K.files out.new)) }
    ensures refused { (w : World) → T.stands taker w → (why : ImageFaultData) → IsErrOf result (StopFault.Refused why) → IfSome (S.left script.old)
        (λ bytes. RefusedAt (T.puts taker) (T.refuses taker) why (T.steps taker) (λ lines. heard silent (run (T.steps taker) (state_in w at) lines))
        (saved_states (T.steps taker) (state_in w at)) bytes (K.written out.old) (K.written out.new) (K.files out.old) (K.files out.new)) }
    ensures nothing_left { IfOk result (λ found. AtEnd (ended_as found) (IfSome (S.left script.new) (λ bytes. bytes ≡ []))) }
    ensures script_counts { S.faults script.old ≤ S.faults script.new }
    ensures out_counts { K.faults out.old ≤ K.faults out.new }
{
    let mut reader = LineReader::new(alloc, LINE_MAX, most)?;
    let mut text = Vec::new(alloc);
    let mut taker = taker;
    let mut at = at;
    loop {
        let wanted = !reader.is_ready() || text.len() >= PIECE;
        flush(out, &mut text, wanted)?;
        let line = match reader.next_line(script, out) {
            Ok(line) => line,
            Err(fault) => return Err(of_line_fault(fault)),
        };
        let before = text.len();
        let (next, turn) = taker.take(alloc, at, line, &mut text)?;
        hush(&mut text, silent);
        match turn {
            None => {
                write_all(out, &text)?;
                return Ok(Some((next, at)));
            }
            Some(Turn::Stops) => {
                write_all(out, &text)?;
                return Ok(None);
            }
            Some(Turn::Goes(bad, left)) => {
                taker = next;
                at = at.next(bad, left);
            }
            Some(Turn::Saves(bad, left)) => {
                let behind = at.next(bad, left);
                flush_front(out, &mut text, before)?;
                next.keep(alloc, behind, out)?;
                taker = next;
                at = behind;
            }
        }
    }
}
