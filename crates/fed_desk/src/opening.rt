//! The beginning of a desk.
ghost use Rattle.std.specs.Prelude.{◌≡◌, ◌⊎◌, [], true, false, Some, None, IfOk, IfErr, IsErrOf, OnOk, option_map, is_some};
ghost use Rattle.life_meaning.specs.Tables.{IsSafeTable};
ghost use Rattle.rule_world.specs.Programs.{IsRunnable};
ghost use Rattle.rule_world.specs.Worlds.{World};
ghost use Rattle.script_run.specs.Live.{live_by, most_firings};
ghost use Rattle.replay.specs.Beginnings.{BeginsIn, CanBegin};
ghost use Rattle.replay.specs.declared.beginning.Beginning.TheVariants.{Behind};
ghost use Rattle.fed_desk.specs.declared.opening.OpenFault.TheVariants.{NoMemory as NoRoom};
ghost use Rattle.fed_desk.specs.Openings.{RefusesRules, IsOpen, IsOpenIn, RefusesImage, TellsImageFault, TellsOpenFault, TellsNoBeginning};
ghost use Rattle.fed_desk.specs.Openings.{course_in, fed_start, live_of, opens_from};
ghost use Rattle.fed_desk.specs.Runs.{HasCome, fed_setting};

use crate::desk::Desk;
use crate::lines::Lines;
use crate::refused::{image_line, refusal_line};
use crate::running::Running;
use checkpoint::{DecodeFault, Image, decode};
use engine::{Inspect, ResumeFault};
use expiry_infer::lives;
use fx_base::{NoMemory, Seq};
use fx_io::MemSink;
use line_feed::begin;
use line_run::Progress;
use replay::{Beginning, CheckpointCode, IMAGE_MAX, Reading, RulesRead, begun, read_named_rules};
use rule_model::{LifeTable, Program};
use script_run::{Form, LIVE_MAX, LiveLines};
use std::alloc::Global;

/// How the lines of a desk are done.
#[derive(Clone, Copy, Debug, PartialEq, Eq)]
pub struct Options {
    /// The most firings of each fire command.
    pub each: u64,
    /// Whether answers are lines of text, and not objects of JSON.
    pub text: bool,
}

/// Why a desk is not opened.
#[derive(Drop)]
pub enum OpenFault {
    /// The rules are refused, as this line says.
    Rules(Vec<u8>),
    /// The image is refused, as this line says.
    Image(Vec<u8>),
    NoMemory,
}

impl From<NoMemory> for OpenFault {
    ghost from_gives = { λ _ fault. fault ≡ NoRoom };

    fn from(_: NoMemory) -> Self {
        OpenFault::NoMemory
    }
}

/// Why there is no beginning.
#[derive(Clone, Copy, Debug, PartialEq, Eq)]
pub(crate) enum StartFault {
    /// The image is refused.
    Refused(CheckpointCode),
    NoMemory,
}

// The image of these bytes, of rules with this text.
#[tactic(auto, unfolding(replay::specs::Checkpoints::checkpoint_of))]
fn image_of(alloc: Global, rules: &[u8], bytes: &[u8]) -> Result<Image, StartFault>
    ensures found { IfOk result (λ image. fed_start rules.now (Some bytes.now) ≡ opens_from (Behind image)) }
    ensures refused { IfErr result (TellsNoBeginning (fed_start rules.now (Some bytes.now))) }
{
    if bytes.len() > IMAGE_MAX {
        return Err(StartFault::Refused(CheckpointCode::TooLong));
    }
    match decode(alloc, bytes) {
        Ok(image) => {
            if image.run.rules.as_slice() == rules {
                Ok(image)
            } else {
                Err(StartFault::Refused(CheckpointCode::OtherRules))
            }
        }
        Err(DecodeFault::BadImage) => Err(StartFault::Refused(CheckpointCode::BadImage)),
        Err(DecodeFault::NoMemory) => Err(StartFault::NoMemory),
    }
}

// Where a desk opens_from of rules with this text, with the bytes of an image, where they are given.
fn beginning_of(
    alloc: Global,
    rules: Vec<u8>,
    image: Option<&[u8]>,
) -> Result<Beginning, StartFault>
    ensures found { IfOk result (λ beginning. fed_start rules.items (option_map (λ it. it.now) image.entry) ≡ opens_from beginning) }
    ensures refused { IfErr result (TellsNoBeginning (fed_start rules.items (option_map (λ it. it.now) image.entry))) }
{
    let Some(bytes) = image else {
        return Ok(Beginning::First(Seq::from_vec(rules)));
    };
    match image_of(alloc, &rules, bytes) {
        Ok(image) => Ok(Beginning::Behind(image)),
        Err(fault) => Err(fault),
    }
}

// A desk of a program with a table of its lives, in the beginning.
fn desk_in<E: Inspect>(
    alloc: Global,
    program: Program,
    table: LifeTable,
    beginning: Beginning,
    each: u64,
    form: Form,
) -> Result<Desk<E>, ResumeFault>
    requires runnable { IsRunnable program }
    requires safe { IsSafeTable program table }
    ensures open { IfOk result (λ desk. (w : World) → BeginsIn program table beginning w → HasCome E.stands (fed_setting E.gives E.fires E.counts E.made_with E.table)
        (course_in (live_by (Some each) form E.gives E.fires E.counts most_firings program table false) beginning w) [] [] desk) }
    ensures goes { IfOk result (λ desk. is_some desk.run ≡ true) }
    ensures fits { OnOk result (CanBegin program table beginning) }
    ensures unfit { IsErrOf result ResumeFault.Unfit → CanBegin program table beginning → ⊥ }
{
    let (engine, first) = begun::<E>(alloc, program, table, beginning)?;
    let at = Progress::behind(&first, LIVE_MAX);
    let lines = LiveLines::new(alloc, engine, each, form, false)?;
    let fed = begin::<Lines<E>, MemSink>(alloc, Lines { lines }, at, LIVE_MAX);
    Ok(Desk {
        run: Some(Running { fed, first }),
        text: Vec::new(alloc),
    })
}

// A desk of a program whose rules have this text.
fn open_in<E: Inspect>(
    alloc: Global,
    program: Program,
    rules: Vec<u8>,
    image: Option<&[u8]>,
    each: u64,
    form: Form,
) -> Result<Desk<E>, OpenFault>
    requires { IsRunnable program }
    ensures open { IfOk result (IsOpenIn E.stands (fed_setting E.gives E.fires E.counts E.made_with E.table)
        (λ table. live_by (Some each) form E.gives E.fires E.counts most_firings program table false) program (fed_start rules.items (option_map (λ it. it.now) image.entry))) }
    ensures refused { IfErr result (TellsImageFault program (fed_start rules.items (option_map (λ it. it.now) image.entry))) }
{
    let table = lives(alloc, &program)?;
    match beginning_of(alloc, rules, image) {
        Ok(beginning) => match desk_in::<E>(alloc, program, table, beginning, each, form) {
            Ok(desk) => Ok(desk),
            Err(ResumeFault::Unfit) => {
                let line = image_line(alloc, CheckpointCode::Unfit)?;
                Err(OpenFault::Image(line))
            }
            Err(ResumeFault::NoMemory) => Err(OpenFault::NoMemory),
        },
        Err(StartFault::Refused(code)) => {
            let line = image_line(alloc, code)?;
            Err(OpenFault::Image(line))
        }
        Err(StartFault::NoMemory) => Err(OpenFault::NoMemory),
    }
}

/// Opens a desk over the bytes of a rule file: in the empty world, or behind the bytes of an image of the same rules. It goes by the lives that are inferred
/// of them.
pub fn open<E: Inspect>(
    alloc: Global,
    rules: &[u8],
    image: Option<&[u8]>,
    options: Options,
) -> Result<Desk<E>, OpenFault>
    ensures open { IfOk result (IsOpen E.stands (fed_setting E.gives E.fires E.counts E.made_with E.table) (live_of E.gives E.fires E.counts options rules.now)
        rules.now (option_map (λ it. it.now) image.entry)) }
    ensures refused { IfErr result (TellsOpenFault rules.now (option_map (λ it. it.now) image.entry)) }
{
    let read = read_named_rules(alloc, rules, true, true)?;
    let RulesRead {
        reading,
        text,
        names,
    } = read;
    match reading {
        Reading::Accepted(program) => {
            let form = Form::for_answers(options.text, names);
            open_in::<E>(alloc, program, text, image, options.each, form)
        }
        Reading::Refused(refusal) => {
            let line = refusal_line(alloc, refusal)?;
            Err(OpenFault::Rules(line))
        }
    }
}

/// A desk whose run has ended, or has never begun, of which this waits to be put out.
pub fn ended<E: Inspect>(text: Vec<u8>) -> Desk<E>
    ensures run { result.run ≡ None }
    ensures text { result.text.items ≡ text.items }
{
    Desk { run: None, text }
}

/// Opens a desk, with the status 0; or makes one whose run never opens_from, and of which the line waits that says why, with the status 3, where the rules are
/// refused, or 9, where the image is.
pub fn opened<E: Inspect>(
    alloc: Global,
    rules: &[u8],
    image: Option<&[u8]>,
    options: Options,
) -> Result<(Desk<E>, u32), NoMemory>
    ensures open { IfOk result (λ r. r.1 ≡ 0 → IsOpen E.stands (fed_setting E.gives E.fires E.counts E.made_with E.table)
        (live_of E.gives E.fires E.counts options rules.now) rules.now (option_map (λ it. it.now) image.entry) r.0) }
    ensures rules { IfOk result (λ r. r.1 ≡ 3 → RefusesRules rules.now r.0.text.items) }
    ensures image { IfOk result (λ r. r.1 ≡ 9 → RefusesImage rules.now (option_map (λ it. it.now) image.entry) r.0.text.items) }
    ensures ended { IfOk result (λ r. (r.1 ≡ 0) ⊎ ((r.1 ≡ 3) ⊎ (r.1 ≡ 9)) × (r.0.run ≡ None)) }
{
    match open::<E>(alloc, rules, image, options) {
        Ok(desk) => Ok((desk, 0)),
        Err(OpenFault::Rules(line)) => Ok((ended(line), 3)),
        Err(OpenFault::Image(line)) => Ok((ended(line), 9)),
        Err(OpenFault::NoMemory) => Err(NoMemory),
    }
}
