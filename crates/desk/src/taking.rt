//! What takes the lines of a live run, and puts the images of the states behind those that save.
ghost use Rattle.std.specs.Prelude.{◌≡◌, ◌+◌, ◌*◌, ◌<◌, ◌^◌, Some, IfOk, is_some};
ghost use Rattle.line_run.specs.Parts.{run_part_at};
ghost use Rattle.script_run.specs.Doors.{answer_form, engine_of, fire_limit, run_limit};
ghost use Rattle.script_run.specs.Live.{live_by, live_step, most_firings};
ghost use Rattle.desk.specs.Keeping.{IsPutBehind, IsRefusedBehind, refusal_code};

use crate::ending::keep;
use crate::going::copied;
use checkpoint::RunPart;
use engine::{Engine, Inspect};
use fx_base::{Copies, NoMemory, Text};
use fx_io::Line;
use fx_store::FileSink;
use line_run::{KeepFault, LineTaker, Progress, Turn};
use rule_model::LifeTable;
use script_run::{Form, LIVE_MAX, LiveLines};
use std::alloc::Global;

/// What takes the lines of a live run, with what an image says of the run before it began, the name of its image, where
/// one is given, and the lives that its images say, if they say some.
#[derive(Drop)]
pub(crate) struct Keeping<E: Inspect> {
    pub(crate) lines: LiveLines<E>,
    pub(crate) first: RunPart,
    pub(crate) image: Option<Text>,
    pub(crate) told: Option<LifeTable>,
}

fn name_copy(alloc: Global, name: &Option<Text>) -> Result<Option<Text>, NoMemory>
    ensures { IfOk result (λ copy. copy ≡ name.now) }
{
    match name {
        Some(name) => Ok(Some(Text::new(alloc, name.as_str())?)),
        None => Ok(None),
    }
}

fn told_copy(alloc: Global, told: &Option<LifeTable>) -> Result<Option<LifeTable>, NoMemory>
    ensures { IfOk result (λ copy. copy ≡ told.now) }
{
    match told {
        Some(lives) => Ok(Some(copied(alloc, lives)?)),
        None => Ok(None),
    }
}

impl<E: Inspect> Keeping<E> {
    /// Takes lines with this engine: with at most so many firings for each fire command, with answers of this form, behind this part of a run, and with
    /// the name of its image, where one is given, and the lives that its images say, if they say some.
    pub(crate) fn new(
        alloc: Global,
        engine: E,
        each: u64,
        form: Form,
        first: &RunPart,
        image: &Option<Text>,
        told: &Option<LifeTable>,
    ) -> Result<Keeping<E>, NoMemory>
        ensures engine { IfOk result (λ it. engine_of it.lines ≡ engine) }
        ensures limit { IfOk result (λ it. run_limit it.lines ≡ most_firings) }
        ensures live { IfOk result (λ it. fire_limit it.lines ≡ Some each) }
        ensures form { IfOk result (λ it. answer_form it.lines ≡ form) }
        ensures has { IfOk result (λ it. it.lines.has_image ≡ is_some image.now) }
        ensures first { IfOk result (λ it. it.first ≡ first.now) }
        ensures image { IfOk result (λ it. it.image ≡ image.now) }
        ensures told { IfOk result (λ it. it.told ≡ told.now) }
    {
        let lines = LiveLines::new(alloc, engine, each, form, image.is_some())?;
        let first = first.copy(alloc)?;
        let image = name_copy(alloc, image)?;
        let told = told_copy(alloc, told)?;
        Ok(Keeping {
            lines,
            first,
            image,
            told,
        })
    }
}

impl<E: Inspect, K: FileSink> LineTaker<K> for Keeping<E> {
    ghost stands = { λ it. E.stands (engine_of it.lines) };

    ghost steps = { λ it. live_step (live_by (fire_limit it.lines) (answer_form it.lines) E.gives E.fires E.counts (run_limit it.lines)
        (E.made_with (engine_of it.lines)) (E.table (engine_of it.lines)) it.lines.has_image) };

    ghost program = { λ it. E.made_with (engine_of it.lines) };

    ghost table = { λ it. E.table (engine_of it.lines) };

    // the tags given, and those that the firings that are left and these lines may give
    ghost ready = { λ it at n. E.tags (engine_of it.lines) + 16 * at.left + 16 * n < 2 ^ 62 };

    ghost puts = { λ it s before after. IsPutBehind (E.made_with (engine_of it.lines)) (E.table (engine_of it.lines)) it.told it.first s before after it.image };

    ghost refuses = { λ it s why. IsRefusedBehind (E.made_with (engine_of it.lines)) (E.table (engine_of it.lines)) it.told it.first s (refusal_code why) };

    fn take(
        self,
        alloc: Global,
        at: Progress,
        line: Line,
        text: &mut Vec<u8>,
    ) -> Result<(Self, Option<Turn>), NoMemory> {
        let Keeping {
            lines,
            first,
            image,
            told,
        } = self;
        let (lines, turn) = lines.take(alloc, at, line, text)?;
        let next = Keeping {
            lines,
            first,
            image,
            told,
        };
        Ok((next, turn))
    }

    fn keep(&self, alloc: Global, at: Progress, out: &mut K) -> Result<(), KeepFault> {
        match &self.image {
            Some(name) => {
                let run = at.part(self.first.copy(alloc)?, LIVE_MAX);
                keep::<E, K>(
                    alloc,
                    self.lines.engine(),
                    &self.told,
                    run,
                    name.as_str(),
                    out,
                )
            }
            None => Ok(()),
        }
    }
}
