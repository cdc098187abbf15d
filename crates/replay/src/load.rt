//! The run over a generated load, of which a summary is written.
ghost use Rattle.std.specs.Prelude.{◌≡◌, ◌⊎◌, ◌<◌, ◌≤◌, ◌^◌, List, Option, Some, ℕ, IfOk};
ghost use Rattle.fx_io.specs.Outside.{Rose, append, AppendsFront};
ghost use Rattle.fx_io.specs.Lines.{lines_of};
ghost use Rattle.command_words.specs.declared.asking.Asked.TheVariants.{Load};
ghost use Rattle.life_meaning.specs.Tables.{AreLives, IsSafeTable};
ghost use Rattle.rule_model.specs.declared.life.LifeTable.{LifeTable as TableOfLives};
ghost use Rattle.rule_world.specs.Programs.{IsRunnable};
ghost use Rattle.script_run.specs.Run.{setting_of, whole_run};
ghost use Rattle.replay.specs.Calls.{ShelfSeen, seen, RunOf};
ghost use Rattle.replay.specs.Report.{Reports, run_status, summary_report};
ghost use Rattle.replay.specs.Summary.{summary_text};
ghost use Rattle.replay.specs.Wanted.{wanted_by_number};

use crate::rule_file::{Reading, reading_of};
use crate::saying::{refuse, say};
use crate::status::status_of;
use crate::summing::push_summary;
use engine::Engine;
use expiry_infer::lives;
use fx_base::{NoMemory, Seq};
use fx_io::{MemSink, PlainSource, Sink};
use gen_load::{Generated, generate};
use line_run::Ended;
use rule_model::{LifeTable, Program};
use script_run::run;
use std::alloc::Global;

/// Room for what a run over a load prints: for 1,000,000 firings of at most 28 bytes, 20,000 insertions and 60,000 faults, in bytes.
const PRINTED_MAX: usize = 33_554_432;

// Runs a program with its table of lives over a script in memory, with what it prints. The source has less than 1 GiB and does not fail, and the sink is meant to
// have room enough; whatever stops the run counts as want of memory.
fn run_in_memory<E: Engine>(
    alloc: Global,
    program: Program,
    lives: LifeTable,
    limit: u64,
    script: Seq<u8>,
) -> Result<(Ended, MemSink), NoMemory>
    requires runnable { IsRunnable program }
    requires table { IsSafeTable program lives }
    requires low { limit ≤ 1000000 }
    ensures ended { IfOk result (λ r. r.0 ≡ (whole_run (setting_of E.gives E.fires E.counts limit program lives) (lines_of script)).ended) }
    ensures printed { IfOk result (λ r. r.1.written ≡ (whole_run (setting_of E.gives E.fires E.counts limit program lives) (lines_of script)).bytes) }
{
    let mut source = PlainSource::new(script.into_vec());
    let mut printed = MemSink::new(alloc, PRINTED_MAX, Vec::new(alloc))?;
    match run::<E, PlainSource, MemSink>(alloc, program, lives, limit, &mut source, &mut printed) {
        Ok(ended) => Ok((ended, printed)),
        Err(_) => Err(NoMemory),
    }
}

// Writes the summary of what the run over the load of this number printed.
fn sum_up<K: Sink>(alloc: Global, number: u32, ended: Ended, printed: &[u8], out: &mut K) -> u8
    ensures said { result ≤ 4 → (K.written out.new ≡ append (K.written out.old) (summary_text number printed.now)) × (result ≡ run_status ended) }
    ensures front { 5 ≤ result → AppendsFront (K.written out.old) (K.written out.new) (summary_text number printed.now) }
    ensures answers { (result ≤ 1) ⊎ (result ≡ 4) ⊎ ((6 ≤ result) × (result ≤ 7)) }
    ensures cause { result ≡ 6 → Rose (K.faults out.old) (K.faults out.new) }
{
    let mut text = Vec::new(alloc);
    match push_summary(&mut text, number, printed) {
        Ok(()) => say(out, text.as_slice(), status_of(ended)),
        Err(_) => 7,
    }
}

// Runs the program with its table of lives over the script of the load of this number, and writes the summary.
fn run_with_lives<E: Engine, K: Sink>(
    alloc: Global,
    number: u32,
    limit: u64,
    program: Program,
    lives: LifeTable,
    script: Seq<u8>,
    out: &mut K,
) -> u8
    requires runnable { IsRunnable program }
    requires table { IsSafeTable program lives }
    requires low { limit ≤ 1000000 }
    ensures exact { let outcome = whole_run (setting_of E.gives E.fires E.counts limit program lives) (lines_of script) in
        result ≤ 4 → (K.written out.new ≡ append (K.written out.old) (summary_text number outcome.bytes)) × (result ≡ run_status outcome.ended) }
    ensures front { 5 ≤ result → AppendsFront (K.written out.old) (K.written out.new)
        (summary_text number (whole_run (setting_of E.gives E.fires E.counts limit program lives) (lines_of script)).bytes) }
    ensures answers { (result ≤ 1) ⊎ (result ≡ 4) ⊎ ((6 ≤ result) × (result ≤ 7)) }
    ensures cause { result ≡ 6 → Rose (K.faults out.old) (K.faults out.new) }
{
    match run_in_memory::<E>(alloc, program, lives, limit, script) {
        Ok((ended, printed)) => sum_up(alloc, number, ended, printed.written(), out),
        Err(_) => 7,
    }
}

// Runs the program over the script of the load of this number, and writes the summary.
fn run_and_sum_up<E: Engine, K: Sink>(
    alloc: Global,
    number: u32,
    limit: u64,
    program: Program,
    script: Seq<u8>,
    out: &mut K,
) -> u8
    requires runnable { IsRunnable program }
    requires low { limit ≤ 1000000 }
    ensures exact { result ≤ 4 → (table : TableOfLives) × AreLives program table
        × Reports (K.written out.old) (K.written out.new) result (summary_report number (whole_run (setting_of E.gives E.fires E.counts limit program table) (lines_of script))) }
    ensures front { (table : TableOfLives) → AreLives program table → 5 ≤ result
        → AppendsFront (K.written out.old) (K.written out.new) (summary_text number (whole_run (setting_of E.gives E.fires E.counts limit program table) (lines_of script)).bytes) }
    ensures answers { (result ≤ 1) ⊎ (result ≡ 4) ⊎ ((6 ≤ result) × (result ≤ 7)) }
    ensures cause { result ≡ 6 → Rose (K.faults out.old) (K.faults out.new) }
{
    match lives(alloc, &program) {
        Ok(lives) => run_with_lives::<E, K>(alloc, number, limit, program, lives, script, out),
        Err(_) => 7,
    }
}

/// Runs over the load of this number with an engine of this type, with at most so many firings, and writes the summary.
pub(crate) fn run_load<E: Engine, K: Sink>(
    alloc: Global,
    number: u32,
    limit: u64,
    out: &mut K,
) -> u8
    requires numbered { number < 2 ^ 31 }
    requires low { limit ≤ 1000000 }
    ensures { (first last : ShelfSeen) (left : Option (List ℕ)) (given faults : ℕ) → RunOf E.gives E.fires E.counts (Some (Load number limit)) (Some (wanted_by_number number limit))
        (seen first left given faults (K.written out.old) (K.faults out.old)) (seen last left given faults (K.written out.new) (K.faults out.new)) result }
{
    let Generated { rules, script } = match generate(alloc, number) {
        Ok(load) => load,
        Err(_) => return 7,
    };
    match reading_of(alloc, rules.as_slice()) {
        Ok(Reading::Accepted(program)) => {
            run_and_sum_up::<E, K>(alloc, number, limit, program, script, out)
        }
        Ok(Reading::Refused(refusal)) => refuse(alloc, out, refusal),
        Err(_) => 7,
    }
}
