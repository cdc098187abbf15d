ghost use Rattle.std.specs.Prelude.{◌≡◌};
ghost use Rattle.rule_model.specs.Moments.{moment_in, snapshot_at};
ghost use Rattle.rule_model.specs.Snapshots.{floor};

use crate::Program;
use fx_base::{EntryId, Millis};

/// A moment of a run: the clock, and what its entry points have reached, by their places; beyond the end of a list it is 0. All are in
/// milliseconds.
#[derive(Debug, Drop)]
pub struct Moment<'a> {
    pub clock: Millis,
    /// The start of the event that was inserted last.
    pub last_starts: &'a [Millis],
    /// The moment before which no event starts any more.
    pub promises: &'a [Millis],
}

// What stands at the place of an entry point; 0 beyond the end.
fn moment_in(moments: &[Millis], entry: EntryId) -> Millis
    ensures { result ≡ moment_in moments.now entry.0 }
{
    moments.get(entry.0 as usize).copied().unwrap_or(0)
}

impl<'a> Moment<'a> {
    /// The start of the event that was inserted last in an entry point. Takes no memory.
    pub fn last_start(&self, entry: EntryId) -> Millis
        ensures { result ≡ moment_in self.now.last_starts.now entry.0 }
    {
        moment_in(self.last_starts, entry)
    }

    /// The moment before which no event of an entry point starts any more. Takes no memory.
    pub fn promise(&self, entry: EntryId) -> Millis
        ensures { result ≡ moment_in self.now.promises.now entry.0 }
    {
        moment_in(self.promises, entry)
    }

    /// The floor of an entry point, its watermark: no event that comes from now on starts before it. Takes no memory.
    #[tactic(auto, unfolding(crate::specs::Snapshots::floor))]
    pub fn floor(&self, program: &Program, entry: EntryId) -> i128
        ensures { result ≡ floor program.now (snapshot_at self.now) entry.0 }
    {
        let known = self.last_start(entry).max(self.promise(entry));
        let late = i128::from(self.clock) - i128::from(program.lateness(entry));
        i128::from(known).max(late)
    }
}
