//! A run that goes on.
ghost use Rattle.std.specs.Prelude.{◌+◌, ◌*◌, ◌<◌, ◌^◌};
ghost use Rattle.script_run.specs.Doors.{engine_of};

use crate::lines::Lines;
use checkpoint::RunPart;
use engine::Inspect;
use line_feed::Fed;

/// A run that goes on, and that can take all lines that may still come, with what an image says of the run before it began.
#[derive(Drop)]
pub struct Running<E: Inspect> {
    pub fed: Fed<Lines<E>>,
    pub first: RunPart,
    // the tags given, and those that the firings that are left and the bytes that may still come may give
    ghost tags: { E.tags (engine_of fed.taker.lines) + 16 * fed.at.left + 16 * (fed.room + 1) < 2 ^ 62 },
    ghost counted: { fed.at.lines + fed.room < 2 ^ 63 },
}
