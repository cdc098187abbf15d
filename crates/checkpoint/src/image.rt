use fx_base::{Copies, Fact, NoMemory, RuleId, Seq};
use row_delta::{Extra, Row};
use std::alloc::Global;

/// What an image says of the run so far.
#[derive(Debug, Drop)]
pub struct RunPart {
    /// The text of the rule file, as it is shown.
    pub rules: Seq<u8>,
    /// How many lines of the script were taken.
    pub lines: u64,
    /// How many firings were made.
    pub firings: u64,
    /// Whether a fault line was given.
    pub faulty: bool,
}

impl Copies for RunPart {
    fn copy(&self, alloc: Global) -> Result<RunPart, NoMemory> {
        Ok(RunPart {
            rules: self.rules.copy(alloc)?,
            lines: self.lines,
            firings: self.firings,
            faulty: self.faulty,
        })
    }
}

/// A match that was fired: the place of its rule, from 0, and its row.
#[derive(Debug, Drop)]
pub struct FiredMatch {
    pub rule: RuleId,
    pub row: Row,
}

/// What a session holds, as plain data.
#[derive(Debug, Drop)]
pub struct Image {
    pub run: RunPart,
    /// In milliseconds.
    pub clock: i64,
    /// Whether the world has begun: with its first event, or because the script said so.
    pub begun: bool,
    /// The last start at each entry point, by their places, in milliseconds.
    pub last_starts: Seq<i64>,
    /// The start that each entry point promises, by their places, in milliseconds.
    pub promises: Seq<i64>,
    /// The number of the next inserted fact.
    pub next_id: u64,
    /// The number of the next version of a fact.
    pub next_tag: u64,
    pub facts: Seq<Fact>,
    pub fired: Seq<FiredMatch>,
    pub extras: Seq<Extra>,
}
