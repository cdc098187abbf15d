//! What takes the lines of a desk that is fed.
ghost use Rattle.std.specs.Prelude.{◌≡◌, ◌+◌, ◌*◌, ◌<◌, ◌^◌};
ghost use Rattle.script_run.specs.Doors.{answer_form, engine_of, fire_limit, run_limit};
ghost use Rattle.script_run.specs.Live.{live_by, live_step};

use engine::Inspect;
use fx_base::NoMemory;
use fx_io::{Line, Sink};
use line_run::{KeepFault, LineTaker, Progress, Turn};
use script_run::LiveLines;
use std::alloc::Global;

/// What takes the lines of a live run, of which no image is put into a file.
#[derive(Drop)]
pub struct Lines<E: Inspect> {
    pub lines: LiveLines<E>,
}

impl<E: Inspect, K: Sink> LineTaker<K> for Lines<E> {
    ghost stands = { λ it. E.stands (engine_of it.lines) };

    ghost steps = { λ it. live_step (live_by (fire_limit it.lines) (answer_form it.lines) E.gives E.fires E.counts (run_limit it.lines)
        (E.made_with (engine_of it.lines)) (E.table (engine_of it.lines)) it.lines.has_image) };

    ghost program = { λ it. E.made_with (engine_of it.lines) };

    ghost table = { λ it. E.table (engine_of it.lines) };

    // the tags given, and those that the firings that are left and these lines may give
    ghost ready = { λ it at n. E.tags (engine_of it.lines) + 16 * at.left + 16 * n < 2 ^ 62 };

    ghost puts = { λ it s before after. after ≡ before };

    ghost refuses = { λ it s why. ⊥ };

    fn take(
        self,
        alloc: Global,
        at: Progress,
        line: Line,
        text: &mut Vec<u8>,
    ) -> Result<(Self, Option<Turn>), NoMemory> {
        let Lines { lines } = self;
        let (lines, turn) = lines.take(alloc, at, line, text)?;
        Ok((Lines { lines }, turn))
    }

    fn keep(&self, _alloc: Global, _at: Progress, _out: &mut K) -> Result<(), KeepFault> {
        Ok(())
    }
}
