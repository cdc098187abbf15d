//! A live run by the lives by which it goes, and one behind an image of other rules.
ghost use Rattle.std.specs.Prelude.{◌≡◌, ◌⊎◌, ◌<◌, ◌≤◌, ℕ, List, length, IfSome};
ghost use Rattle.fx_io.specs.Outside.{append, AppendsFront, Rose};
ghost use Rattle.rule_world.specs.Programs.{IsRunnable};
ghost use Rattle.script_run.specs.Live.{most_firings};
ghost use Rattle.desk.specs.Changes.{Changed, begun_over};
ghost use Rattle.desk.specs.Report.{IsChange, IsGoing, IsKeptOut, IsPromptRun, IsRun, IsSaid, IsStoppedRun};

use crate::changing::{Outcome, change_over};
use crate::going::{Bar, find_going};
use crate::live::run_by;
use crate::wanted::{Begun, Changing};
use engine::Inspect;
use fx_io::{Sink, Source, write_all};
use fx_store::FileSink;
use replay::{CheckpointCode, refuse_checkpoint};
use std::alloc::Global;

// Writes a line that refuses an image.
fn refuse_by<K: Sink>(line: Vec<u8>, out: &mut K) -> u8
    ensures said { IsSaid line.items 9 (K.written out.old) (K.written out.new) (K.files out.old) (K.files out.new) result }
    ensures answers { (result ≡ 9) ⊎ (result ≡ 6) }
    ensures write { result ≡ 6 → Rose (K.faults out.old) (K.faults out.new) }
{
    match write_all(out, &line) {
        Ok(()) => 9,
        Err(_) => 6,
    }
}

/// Runs it.
pub(crate) fn run<E: Inspect, S: Source<K>, K: FileSink>(
    alloc: Global,
    begun: Begun,
    script: &mut S,
    out: &mut K,
) -> u8
    requires runnable { IsRunnable begun.setting.program }
    requires later { IfSome begun.setting.later IsRunnable }
    requires prompt { (bytes : List ℕ) (now : K)
        → IsPromptRun (record { gives = E.gives; fires = E.fires; counts = E.counts }) begun bytes (K.written out.old) (K.written now) (K.files out.old) (K.files now)
        → S.may_ask script.old bytes now }
    ensures served { IfSome (S.left script.old) (λ bytes. IsRun (record { gives = E.gives; fires = E.fires; counts = E.counts }) begun bytes
        (K.written out.old) (K.written out.new) (K.files out.old) (K.files out.new) result) }
    ensures stopped { result ≡ 5 → IfSome (S.left script.old) (λ bytes. IsStoppedRun (record { gives = E.gives; fires = E.fires; counts = E.counts }) begun bytes (S.left script.new)
        (K.written out.old) (K.written out.new) (K.files out.old) (K.files out.new)) }
    ensures long { result ≡ 8 → IfSome (S.left script.old) (λ bytes. most_firings < length bytes) }
    ensures answers { (result ≤ 1) ⊎ ((5 ≤ result) × (result ≤ 9)) ⊎ (result ≡ 11) }
    ensures read { result ≡ 5 → Rose (S.faults script.old) (S.faults script.new) }
    ensures write { result ≡ 6 → Rose (K.faults out.old) (K.faults out.new) }
{
    match find_going(alloc, begun) {
        Ok(going) => run_by::<E, S, K>(alloc, going.live, going.table, script, out),
        Err(Bar::Line(line)) => refuse_by(line, out),
        Err(Bar::NoMemory) => 7,
    }
}

// Runs it behind these lines.
fn run_behind<E: Inspect, S: Source<K>, K: FileSink>(
    alloc: Global,
    begun: Begun,
    lines: Vec<u8>,
    script: &mut S,
    out: &mut K,
) -> u8
    requires runnable { IsRunnable begun.setting.program }
    requires later { IfSome begun.setting.later IsRunnable }
    requires prompt { (bytes : List ℕ) (now : K)
        → IsPromptRun (record { gives = E.gives; fires = E.fires; counts = E.counts }) begun bytes (append (K.written out.old) lines.items) (K.written now) (K.files out.old) (K.files now)
        → S.may_ask script.old bytes now }
    ensures served { IfSome (S.left script.old) (λ bytes.
        IsGoing (record { gives = E.gives; fires = E.fires; counts = E.counts }) begun bytes (append (K.written out.old) lines.items) (K.written out.new) (K.files out.old) (K.files out.new) result
        ⊎ IsKeptOut begun (K.written out.old) (K.written out.new) (K.files out.old) (K.files out.new) result
        ⊎ ((5 ≤ result) × (result ≤ 7) × AppendsFront (K.written out.old) (K.written out.new) lines.items × (K.files out.new ≡ K.files out.old))) }
    ensures stopped { result ≡ 5 → IfSome (S.left script.old) (λ bytes. IsStoppedRun (record { gives = E.gives; fires = E.fires; counts = E.counts }) begun bytes (S.left script.new)
        (append (K.written out.old) lines.items) (K.written out.new) (K.files out.old) (K.files out.new)) }
    ensures long { result ≡ 8 → IfSome (S.left script.old) (λ bytes. most_firings < length bytes) }
    ensures answers { (result ≤ 1) ⊎ ((5 ≤ result) × (result ≤ 9)) ⊎ (result ≡ 11) }
    ensures read { result ≡ 5 → Rose (S.faults script.old) (S.faults script.new) }
    ensures write { result ≡ 6 → Rose (K.faults out.old) (K.faults out.new) }
{
    match find_going(alloc, begun) {
        Ok(going) => match write_all(out, &lines) {
            Ok(()) => run_by::<E, S, K>(alloc, going.live, going.table, script, out),
            Err(_) => 6,
        },
        Err(Bar::Line(line)) => refuse_by(line, out),
        Err(Bar::NoMemory) => 7,
    }
}

/// Runs it, where its rules are taken over the worlds of the image.
pub(crate) fn run_over<E: Inspect, S: Source<K>, K: FileSink>(
    alloc: Global,
    changing: Changing,
    script: &mut S,
    out: &mut K,
) -> u8
    requires runnable { IsRunnable changing.setting.program }
    requires old { IsRunnable changing.old }
    requires later { IfSome changing.setting.later IsRunnable }
    requires prompt { (bytes : List ℕ) (now : K) (to : Changed changing)
        → IsPromptRun (record { gives = E.gives; fires = E.fires; counts = E.counts }) (begun_over changing to) bytes (append (K.written out.old) to.lines) (K.written now) (K.files out.old) (K.files now)
        → S.may_ask script.old bytes now }
    ensures served { IfSome (S.left script.old) (λ bytes. IsChange (record { gives = E.gives; fires = E.fires; counts = E.counts }) changing bytes
        (K.written out.old) (K.written out.new) (K.files out.old) (K.files out.new) result) }
    ensures stopped { result ≡ 5 → IfSome (S.left script.old) (λ bytes. (to : Changed changing)
        × IsStoppedRun (record { gives = E.gives; fires = E.fires; counts = E.counts }) (begun_over changing to) bytes (S.left script.new)
        (append (K.written out.old) to.lines) (K.written out.new) (K.files out.old) (K.files out.new)) }
    ensures long { result ≡ 8 → IfSome (S.left script.old) (λ bytes. most_firings < length bytes) }
    ensures answers { (result ≤ 1) ⊎ ((5 ≤ result) × (result ≤ 9)) ⊎ (result ≡ 11) }
    ensures read { result ≡ 5 → Rose (S.faults script.old) (S.faults script.new) }
    ensures write { result ≡ 6 → Rose (K.faults out.old) (K.faults out.new) }
{
    match change_over(alloc, changing) {
        Ok(Outcome::Taken(begun, lines)) => {
            run_behind::<E, S, K>(alloc, begun, lines, script, out)
        }
        Ok(Outcome::Refused(line)) => refuse_by(line, out),
        Ok(Outcome::Unfit) => refuse_checkpoint(alloc, out, CheckpointCode::Unfit),
        Err(_) => 7,
    }
}
