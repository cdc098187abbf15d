use fx_base::{Fact, FactId, Millis, RuleId, Seq, TypeId};
use rule_world::Code;

/// How much the lines of an engine tell.
#[derive(Clone, Copy, Debug, PartialEq, Eq)]
pub enum Detail {
    /// Numbers and types: `New`, `Fire` and faults.
    Brief,
    /// Facts with their fields: `Inserted`, `Modified`, `Retracted`, `FiredFor` and faults.
    Full,
}

/// The lines of a change or a firing, in their order. Those of a firing are its own line and those of its actions.
pub type Lines = Seq<OutLine>;

/// A line that the engine answers.
#[derive(Debug, Drop)]
pub enum OutLine {
    /// A fact was inserted.
    New {
        id: FactId,
        ty: TypeId,
    },
    /// A rule fired for what its conditions bound, in their order.
    Fire {
        rule: RuleId,
        cells: Seq<Cell>,
    },
    /// The change or the action had this fault and changed nothing.
    Fault(Code),
    /// In full: this fact was inserted.
    Inserted(Fact),
    /// In full: this fact has other values now, these.
    Modified(Fact),
    /// In full: the fact of the type and the id was retracted. An event may have been gone before.
    Retracted {
        id: FactId,
        ty: TypeId,
    },
    /// In full: a rule fired at this moment, in milliseconds, for these facts, in the order of its conditions and as they were before its
    /// actions, and for these results of its accumulates.
    FiredFor {
        rule: RuleId,
        clock: Millis,
        facts: Seq<Fact>,
        values: Seq<i64>,
    },
}

/// What a condition bound for a firing.
#[derive(Clone, Copy, Debug, PartialEq, Eq)]
pub enum Cell {
    /// The fact of a pattern.
    Fact(FactId),
    /// The result of an accumulate.
    Value(i64),
}

/// What a firing answers.
#[derive(Debug, Drop)]
pub enum Fired {
    /// Nothing was pending.
    No,
    Yes(Lines),
}
