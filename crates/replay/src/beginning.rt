//! Where a run begins: with its script, or behind the image of a checkpoint.
ghost use Rattle.std.specs.Prelude.{◌≡◌, IfOk};
ghost use Rattle.replay.specs.Beginnings.{part_of};

use checkpoint::{Image, RunPart};
use fx_base::{Copies, NoMemory, Seq};
use std::alloc::Global;

/// Where a run begins.
#[derive(Drop)]
pub enum Beginning {
    /// In the empty world, of rules with this text. It is shown where the run is saved alone.
    First(Seq<u8>),
    /// In the world of an image.
    Behind(Image),
}

impl Beginning {
    /// What an image says of the run before it has gone on. It copies the text of the rules.
    pub fn part(&self, alloc: Global) -> Result<RunPart, NoMemory>
        ensures { IfOk result (λ part. part ≡ part_of self.now) }
    {
        match self {
            Beginning::First(rules) => Ok(RunPart {
                rules: rules.copy(alloc)?,
                lines: 0,
                firings: 0,
                faulty: false,
            }),
            Beginning::Behind(image) => Ok(RunPart {
                rules: image.run.rules.copy(alloc)?,
                lines: image.run.lines,
                firings: image.run.firings,
                faulty: image.run.faulty,
            }),
        }
    }
}
