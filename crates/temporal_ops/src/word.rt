ghost use Rattle.std.specs.Prelude.{◌≡◌};

/// The words of the temporal operators (Drools Fusion 5 User Guide), written `this word[parameters] $b`.
#[derive(Clone, Copy, Debug, PartialEq, Eq)]
pub enum OpWord {
    After,
    Before,
    Coincides,
    During,
    Includes,
    Finishes,
    FinishedBy,
    Starts,
    StartedBy,
    Meets,
    MetBy,
    Overlaps,
    OverlappedBy,
}

impl OpWord {
    ghost use Rattle.temporal_ops.specs.Table.{takes_negative as takes_negative_of};

    /// Whether its parameters may be below 0.
    pub(crate) fn takes_negative(self) -> bool
        ensures { result ≡ takes_negative_of self }
    {
        matches!(self, OpWord::After | OpWord::Before)
    }
}
