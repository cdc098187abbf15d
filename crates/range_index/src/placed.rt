ghost use Rattle.std.specs.Prelude.{◌≡◌};
ghost use Rattle.range_index.specs.Ranges.{has_number};

/// The whole numbers from the least to the most, both among them, and a place that stands for them. Without numbers where the most is below the least.
#[derive(Clone, Copy, Debug, PartialEq, Eq)]
pub struct PlacedRange {
    pub least: i64,
    pub most: i64,
    pub place: usize,
}

impl PlacedRange {
    /// Whether the number is one of the range. Takes no memory.
    pub fn has(&self, number: i64) -> bool
        ensures { result ≡ has_number self.now number }
    {
        self.least <= number && number <= self.most
    }
}
