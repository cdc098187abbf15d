use fx_base::{Millis, Seq};

/// What an engine tells of a world in numbers.
#[derive(Debug, PartialEq, Drop)]
pub struct WorldCounts {
    /// In milliseconds.
    pub clock: Millis,
    /// How many facts of each type are kept, in the order of the program's types.
    pub facts: Seq<u64>,
    /// The floor of each entry point, in milliseconds, in the order of the program's entry points.
    pub floors: Seq<Millis>,
    /// How many matches are pending.
    pub pending: u64,
}
