//! A run of which the image is written in place of its lines.
ghost use Rattle.std.specs.Prelude.{◌≡◌, ◌⊎◌, ◌≤◌, List, Option, ℕ, Some, IfOk};
ghost use Rattle.fx_io.specs.Outside.{Rose, append, AppendsFront};
ghost use Rattle.checkpoint.specs.Bytes.{image_bytes, IsImage};
ghost use Rattle.checkpoint.specs.declared.image.Image.{Image as ImageData};
ghost use Rattle.command_words.specs.declared.asking.Asked.TheVariants.{RuleFile};
ghost use Rattle.image_laws.specs.Images.{IsImageOf};
ghost use Rattle.life_meaning.specs.Tables.{AreLives, IsSafeTable};
ghost use Rattle.rule_model.specs.declared.life.LifeTable.{LifeTable as TableOfLives};
ghost use Rattle.rule_world.specs.Programs.{IsRunnable};
ghost use Rattle.rule_world.specs.Worlds.{World};
ghost use Rattle.script_run.specs.Texts.{limit_text};
ghost use Rattle.replay.specs.Beginnings.{CanBegin, IsBeginningFor};
ghost use Rattle.replay.specs.Calls.{ShelfSeen, seen, RunOf, Says};
ghost use Rattle.replay.specs.Checkpoints.{can_go_on};
ghost use Rattle.replay.specs.Report.{image_report, IsPrompt};
ghost use Rattle.replay.specs.Wanted.{wanted_at};

use crate::beginning::Beginning;
use crate::checkpoint_file::IMAGE_MAX;
use crate::refused_checkpoint::{CheckpointCode, refuse_checkpoint};
use crate::running::begun;
use crate::saying::say;
use crate::status::status_of_fault;
use checkpoint::{Image, RunPart, encode};
use command_words::Mode;
use engine::{Engine, ResumeFault};
use expiry_infer::lives;
use fx_base::NoMemory;
use fx_io::{Sink, Source};
use line_run::Progress;
use rule_model::{LifeTable, Program};
use script_run::{push_limit, run_from};
use std::alloc::Global;

/// The greatest number from which a run goes on.
const NUMBER_MAX: u64 = 2_305_843_009_213_693_952;

/// Whether the numbers of an image let a run go on from it.
pub fn can_go_on(image: &Image) -> bool
    ensures { result ≡ can_go_on image.now }
{
    image.next_id <= NUMBER_MAX
        && image.next_tag <= NUMBER_MAX
        && image.run.lines <= NUMBER_MAX
        && image.run.firings <= NUMBER_MAX
}

// Writes the bytes of an image, or why it is refused.
fn write_bytes<K: Sink>(alloc: Global, image: &Image, bytes: &[u8], out: &mut K) -> u8
    requires { bytes.now ≡ image_bytes image.now }
    ensures said { Says (K.written out.old) (K.written out.new) result (image_report image.now) }
    ensures answers { (result ≤ 1) ⊎ ((6 ≤ result) × (result ≤ 7)) ⊎ (result ≡ 9) }
    ensures cause { result ≡ 6 → Rose (K.faults out.old) (K.faults out.new) }
{
    if bytes.len() > IMAGE_MAX {
        return refuse_checkpoint(alloc, out, CheckpointCode::TooLong);
    }
    if !can_go_on(image) {
        return refuse_checkpoint(alloc, out, CheckpointCode::Unfit);
    }
    say(out, bytes, u8::from(image.run.faulty))
}

// The image of an engine, with this part of the run. The engine is given up.
fn image_of<E: Engine>(alloc: Global, engine: E, run: RunPart) -> Result<Image, NoMemory>
    ensures run { IfOk result (λ image. image.run ≡ run) }
    ensures image { IfOk result (λ image. (w : World) → E.stands engine w → IsImageOf (E.made_with engine) (E.table engine) w image) }
{
    engine.save(alloc, run)
}

// Writes the image of an engine, with this part of the run. The engine is given up before the bytes are made.
fn write_image<E: Engine, K: Sink>(alloc: Global, engine: E, run: RunPart, out: &mut K) -> u8
    ensures said { ((result ≡ 7) × (K.written out.new ≡ K.written out.old))
        ⊎ ((image : ImageData) × (image.run ≡ run) × ((w : World) → E.stands engine w → IsImageOf (E.made_with engine) (E.table engine) w image)
        × IsImage image × Says (K.written out.old) (K.written out.new) result (image_report image)) }
    ensures answers { (result ≤ 1) ⊎ ((6 ≤ result) × (result ≤ 7)) ⊎ (result ≡ 9) }
    ensures cause { result ≡ 6 → Rose (K.faults out.old) (K.faults out.new) }
{
    let image = match image_of::<E>(alloc, engine, run) {
        Ok(image) => image,
        Err(_) => return 7,
    };
    match encode(alloc, &image) {
        Ok(bytes) => write_bytes(alloc, &image, &bytes, out),
        Err(_) => 7,
    }
}

// Writes the line of the limit of firings.
fn say_limit<K: Sink>(alloc: Global, limit: u64, out: &mut K) -> u8
    ensures said { result ≤ 4 → (K.written out.new ≡ append (K.written out.old) (limit_text limit)) × (result ≡ 4) }
    ensures front { 5 ≤ result → AppendsFront (K.written out.old) (K.written out.new) (limit_text limit) }
    ensures answers { (result ≡ 4) ⊎ ((6 ≤ result) × (result ≤ 7)) }
    ensures cause { result ≡ 6 → Rose (K.faults out.old) (K.faults out.new) }
{
    let mut text = Vec::new(alloc);
    match push_limit(&mut text, limit) {
        Ok(()) => say(out, text.as_slice(), 4),
        Err(_) => 7,
    }
}

// Runs a program with the table of its lives over a script, from the beginning, and writes the image of what the run comes to.
fn save_with_lives<E: Engine, S: Source<K>, K: Sink>(
    alloc: Global,
    program: Program,
    lives: LifeTable,
    beginning: Beginning,
    limit: u64,
    script: &mut S,
    out: &mut K,
) -> u8
    requires runnable { IsRunnable program }
    requires lives { AreLives program lives }
    requires table { IsSafeTable program lives }
    requires low { limit ≤ 1000000 }
    requires prompt { (bytes : List ℕ) (now : K)
        → IsPrompt E.gives E.fires E.counts (wanted_at Mode.Save limit beginning program) bytes (K.written out.old) (K.written now) → S.may_ask script.old bytes now }
    ensures run { (name : List ℕ) (image : Option (List ℕ)) (first last : ShelfSeen) → IsBeginningFor first.files Mode.Save image beginning
        → RunOf E.gives E.fires E.counts (Some (RuleFile name Mode.Save limit image)) (Some (wanted_at Mode.Save limit beginning program))
        (seen first (S.left script.old) (S.given script.old) (S.faults script.old) (K.written out.old) (K.faults out.old))
        (seen last (S.left script.new) (S.given script.new) (S.faults script.new) (K.written out.new) (K.faults out.new)) result }
    ensures unread { (CanBegin program lives beginning → ⊥) → script.new ≡ script.old }
{
    let begun = match begun::<E>(alloc, program, lives, beginning) {
        Ok(begun) => begun,
        Err(ResumeFault::Unfit) => return refuse_checkpoint(alloc, out, CheckpointCode::Unfit),
        Err(ResumeFault::NoMemory) => return 7,
    };
    let (engine, part) = begun;
    let at = Progress::behind(&part, limit);
    match run_from::<E, S, K>(alloc, engine, at, limit, script, out, true) {
        Ok(Some((engine, at))) => write_image::<E, K>(alloc, engine, at.part(part, limit), out),
        Ok(None) => say_limit(alloc, limit, out),
        Err(fault) => status_of_fault(fault),
    }
}

/// Runs a program over a script, from the beginning, by the lives that are inferred of its types, and writes the image of what the run comes
/// to.
pub(crate) fn save_program<E: Engine, S: Source<K>, K: Sink>(
    alloc: Global,
    program: Program,
    beginning: Beginning,
    limit: u64,
    script: &mut S,
    out: &mut K,
) -> u8
    requires runnable { IsRunnable program }
    requires low { limit ≤ 1000000 }
    requires prompt { (bytes : List ℕ) (now : K)
        → IsPrompt E.gives E.fires E.counts (wanted_at Mode.Save limit beginning program) bytes (K.written out.old) (K.written now) → S.may_ask script.old bytes now }
    ensures run { (name : List ℕ) (image : Option (List ℕ)) (first last : ShelfSeen) → IsBeginningFor first.files Mode.Save image beginning
        → RunOf E.gives E.fires E.counts (Some (RuleFile name Mode.Save limit image)) (Some (wanted_at Mode.Save limit beginning program))
        (seen first (S.left script.old) (S.given script.old) (S.faults script.old) (K.written out.old) (K.faults out.old))
        (seen last (S.left script.new) (S.given script.new) (S.faults script.new) (K.written out.new) (K.faults out.new)) result }
    ensures unread { ((table : TableOfLives) → AreLives program table → CanBegin program table beginning → ⊥) → script.new ≡ script.old }
{
    match lives(alloc, &program) {
        Ok(lives) => {
            save_with_lives::<E, S, K>(alloc, program, lives, beginning, limit, script, out)
        }
        Err(_) => 7,
    }
}
