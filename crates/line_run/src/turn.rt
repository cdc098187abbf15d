ghost use Rattle.std.specs.Prelude.{◌≡◌, ◌+◌, ◌<◌, ◌^◌, ◌||◌, false};
ghost use Rattle.line_run.specs.Parts.{progress_behind, run_part_at};

use checkpoint::RunPart;

/// How far a run has come, between two lines of its script.
#[derive(Clone, Copy, Debug, PartialEq, Eq)]
pub struct Progress {
    /// How many lines were taken.
    pub lines: u64,
    /// How many firings are left.
    pub left: u64,
    /// Whether a line was a fault.
    pub faulted: bool,
}

impl Progress {
    /// Before the first line, with so many firings.
    pub fn first(limit: u64) -> Progress
        ensures { result ≡ record { lines = 0; left = limit; faulted = false } }
    {
        Progress {
            lines: 0,
            left: limit,
            faulted: false,
        }
    }

    /// Where a run goes on behind what an image says of it, with a limit of all its firings.
    pub fn behind(part: &RunPart, limit: u64) -> Progress
        ensures { result ≡ progress_behind limit part.now }
    {
        Progress {
            lines: part.lines,
            left: limit.saturating_sub(part.firings),
            faulted: part.faulty,
        }
    }

    /// What an image says of a run that began behind this part and has come so far.
    pub fn part(self, first: RunPart, limit: u64) -> RunPart
        ensures { result ≡ run_part_at limit first self }
    {
        let firings = limit
            .saturating_sub(first.firings)
            .saturating_sub(self.left);
        RunPart {
            lines: self.lines,
            firings: first.firings + firings,
            faulty: self.faulted,
            ..first
        }
    }

    // Behind one line more.
    pub(crate) fn next(self, bad: bool, left: u64) -> Progress
        requires { self.lines + 1 < 2 ^ 64 }
        ensures { result ≡ record { lines = self.lines + 1; left = left; faulted = self.faulted || bad } }
    {
        Progress {
            lines: self.lines + 1,
            left,
            faulted: self.faulted || bad,
        }
    }
}

/// What became of a line of the script.
#[derive(Clone, Copy, Debug, PartialEq, Eq)]
pub enum Turn {
    /// It was done: whether it was a fault, and how many firings are left to the run.
    Goes(bool, u64),
    /// As `Goes`, and the image of the state behind the line is to be put before what it prints is written.
    Saves(bool, u64),
    /// It was a fire command, and a match was pending where no firing was left.
    Stops,
}

/// How a run ended of which no call failed.
#[derive(Clone, Copy, Debug, PartialEq, Eq)]
pub enum Ended {
    /// At the end of the script; whether one of its lines was a fault.
    Script(bool),
    /// At the limit of firings.
    Limit,
}
