//! What is told of a run, for C.
ghost use Rattle.std.specs.Prelude.{◌≡◌};
ghost use Rattle.desk_c.specs.Handles.{TellsAs, status_of};

use fed_desk::Told;
use script_run::LIVE_MAX;

/// What is told of a run between two lines.
#[repr(C)]
#[derive(Clone, Copy, Debug, PartialEq, Eq)]
pub struct Counts {
    /// The clock, in milliseconds.
    pub clock: i64,
    /// How many matches are pending.
    pub pending: u64,
    /// How many lines were done, those before an image too.
    pub lines: u64,
    /// How many firings were made, those before an image too.
    pub firings: u64,
    /// Whether a line was a fault: 1, or 0.
    pub faulted: u32,
}

fn flag(faulted: bool) -> u32
    ensures { result ≡ status_of faulted }
{
    if faulted { 1 } else { 0 }
}

/// What is told, as C has it.
pub(crate) fn counts_of(told: &Told) -> Counts
    ensures { TellsAs told.now.at told.now.counts result }
{
    Counts {
        clock: told.counts.clock,
        pending: told.counts.pending,
        lines: told.at.lines,
        firings: LIVE_MAX.saturating_sub(told.at.left),
        faulted: flag(told.at.faulted),
    }
}
