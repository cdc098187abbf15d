//! A live run over a program, from its beginning to the end of its script.
ghost use Rattle.std.specs.Prelude.{◌≡◌, ◌⊎◌, ◌<◌, ◌≤◌, ℕ, List, length, IfSome};
ghost use Rattle.fx_io.specs.Outside.{Rose};
ghost use Rattle.life_meaning.specs.Tables.{IsSafeTable};
ghost use Rattle.rule_world.specs.Programs.{IsRunnable};
ghost use Rattle.script_run.specs.Live.{most_firings};
ghost use Rattle.desk.specs.Report.{IsPromptBy, IsStoppedBy, LivesBy};

use crate::ending::{end, refusal_code};
use crate::taking::Keeping;
use engine::{Inspect, ResumeFault};
use fx_base::Text;
use fx_io::Source;
use fx_store::FileSink;
use line_run::{Progress, StopFault, run_lines};
use replay::{Beginning, CheckpointCode, begun, refuse_checkpoint};
use rule_model::{LifeTable, Program};
use script_run::{Form, LIVE_MAX};
use std::alloc::Global;

/// A live run: its program, where it begins, the most firings of each fire command, the form of its answers, the name of its image, where one is
/// given, and the lives that its images say, if they say some.
#[derive(Drop)]
pub(crate) struct Live {
    pub(crate) program: Program,
    pub(crate) beginning: Beginning,
    pub(crate) each: u64,
    pub(crate) form: Form,
    pub(crate) image: Option<Text>,
    pub(crate) told: Option<LifeTable>,
}

/// Runs it by a table of lives.
pub(crate) fn run_by<E: Inspect, S: Source<K>, K: FileSink>(
    alloc: Global,
    live: Live,
    lives: LifeTable,
    script: &mut S,
    out: &mut K,
) -> u8
    requires runnable { IsRunnable live.program }
    requires table { IsSafeTable live.program lives }
    requires prompt { (bytes : List ℕ) (now : K)
        → IsPromptBy (record { gives = E.gives; fires = E.fires; counts = E.counts }) live lives bytes (K.written out.old) (K.written now) (K.files out.old) (K.files now)
        → S.may_ask script.old bytes now }
    ensures live { IfSome (S.left script.old) (λ bytes. LivesBy (record { gives = E.gives; fires = E.fires; counts = E.counts }) live lives bytes
        (K.written out.old) (K.written out.new) (K.files out.old) (K.files out.new) result) }
    ensures stopped { result ≡ 5 → IfSome (S.left script.old) (λ bytes. IsStoppedBy (record { gives = E.gives; fires = E.fires; counts = E.counts }) live lives bytes (S.left script.new)
        (K.written out.old) (K.written out.new) (K.files out.old) (K.files out.new)) }
    ensures long { result ≡ 8 → IfSome (S.left script.old) (λ bytes. most_firings < length bytes) }
    ensures answers { (result ≤ 1) ⊎ ((5 ≤ result) × (result ≤ 9)) ⊎ (result ≡ 11) }
    ensures read { result ≡ 5 → Rose (S.faults script.old) (S.faults script.new) }
    ensures write { result ≡ 6 → Rose (K.faults out.old) (K.faults out.new) }
{
    let Live {
        program,
        beginning,
        each,
        form,
        image,
        told,
    } = live;
    let (engine, part) = match begun::<E>(alloc, program, lives, beginning) {
        Ok(begun) => begun,
        Err(ResumeFault::Unfit) => return refuse_checkpoint(alloc, out, CheckpointCode::Unfit),
        Err(ResumeFault::NoMemory) => return 7,
    };
    let at = Progress::behind(&part, LIVE_MAX);
    let taker = match Keeping::new(alloc, engine, each, form, &part, &image, &told) {
        Ok(taker) => taker,
        Err(_) => return 7,
    };
    match run_lines(alloc, taker, at, LIVE_MAX, script, out, false) {
        Ok(Some((taker, at))) => {
            let engine = taker.lines.into_engine();
            end::<E, K>(alloc, engine, &told, at.part(part, LIVE_MAX), &image, out)
        }
        Ok(None) => 11,
        Err(StopFault::ReadFault) => 5,
        Err(StopFault::WriteFault) => 6,
        Err(StopFault::NoMemory) => 7,
        Err(StopFault::ScriptLong) => 8,
        Err(StopFault::Refused(why)) => refuse_checkpoint(alloc, out, refusal_code(why)),
    }
}
