ghost use Rattle.drl_check.specs.declared.fault.CheckFault.TheVariants.{NoMemory as OutOfMemory};
ghost use Rattle.std.specs.Prelude.{◌≡◌};
ghost use Rattle.drl_check.specs.CodeNames.{check_code_name};

use thiserror::Error;

/// Why an item is refused. The codes are tried over an item in the order in which they stand here.
#[derive(Clone, Copy, Debug, PartialEq, Eq)]
pub enum CheckCode {
    /// An earlier item declares the same type, entry point or rule; or an annotation, a field, an attribute or a variable stands
    /// twice in it; or a modification assigns a field twice.
    TwiceDeclared,
    /// It exceeds a limit: 128 types, 64 entry points with `DEFAULT`, 256 rules, 32 fields, 8 conditions, 16 actions, 32
    /// bindings, temporal tests and comparisons of a pattern, 32 operands of `in`, 32 tests of a result, names of 64 bytes, names
    /// of entry points of 1 to 64 bytes, rule names of 1 to 256 bytes, texts of 4,096 bytes, a salience of 2^31 - 1 in size,
    /// spans of time of 2^53 ms in size, a window of 1,000,000 events.
    LimitPassed,
    /// A pattern or an insert names a type that the file does not declare.
    UnknownType,
    /// An annotation, a test, a binding, a modification or an expression names a field that the type does not have.
    UnknownField,
    /// A variable is used that no earlier condition of the rule binds outside not, exists and accumulate; in an action, no
    /// condition; as the argument of an accumulate, not its own pattern.
    UnknownVariable,
    /// A kind word is none of the seven; a comparison is between two kinds, or an order between other values than whole
    /// numbers; a fact stands for a value, or a value for a fact; an accumulate, but to count, is over no whole numbers; an
    /// insert has too few or too many expressions; an expression is of another kind than its field; an operator has an operand
    /// that is no whole number.
    WrongKind,
    /// A plain type has a timestamp, a duration or an expiry, or stands under a window or in a temporal test.
    NotAnEvent,
    /// The field of a timestamp or a duration holds no whole numbers.
    BadTimestamp,
    /// An event type is marked as a reference type.
    BadReference,
    /// An action modifies an event.
    EventFixed,
    /// An action retracts an event of a type that the file observes: one that stands in a not, an exists or an accumulate of
    /// some rule, or under a length window.
    EventObserved,
    /// An action inserts, modifies or retracts a fact of a reference type, one that is marked by `@reference`.
    ReferenceFixed,
    /// A lateness is below 0, an expiry or a time window below 1 ms, a length window of no events; or a temporal operator has
    /// another number of parameters than it takes, or one below 0 and is neither `after` nor `before`.
    BadParams,
    /// No events can match the patterns of a rule outside not, exists and accumulate: their temporal tests contradict one
    /// another.
    NeverMatches,
}

impl CheckCode {
    /// The name of the code, as the line of a refused file prints it. Takes no memory.
    pub fn name(self) -> &'static str
        ensures { result.now ≡ check_code_name self }
    {
        match self {
            CheckCode::TwiceDeclared => "TwiceDeclared",
            CheckCode::LimitPassed => "LimitPassed",
            CheckCode::UnknownType => "UnknownType",
            CheckCode::UnknownField => "UnknownField",
            CheckCode::UnknownVariable => "UnknownVariable",
            CheckCode::WrongKind => "WrongKind",
            CheckCode::NotAnEvent => "NotAnEvent",
            CheckCode::BadTimestamp => "BadTimestamp",
            CheckCode::BadReference => "BadReference",
            CheckCode::EventFixed => "EventFixed",
            CheckCode::EventObserved => "EventObserved",
            CheckCode::ReferenceFixed => "ReferenceFixed",
            CheckCode::BadParams => "BadParams",
            CheckCode::NeverMatches => "NeverMatches",
        }
    }
}

/// Why `check` gave no program.
#[derive(Clone, Copy, Debug, PartialEq, Eq, Error)]
pub enum CheckFault {
    /// The item of this number, counted from 1, whose first token stands in this line, is the first that fails a check, and
    /// this is the first check that it fails. Beyond 2^32 - 1 items the number stands still.
    #[error("item {item} in line {line}: {code:?}")]
    Refused {
        item: u32,
        line: u32,
        code: CheckCode,
    },
    #[error("no memory")]
    NoMemory,
}

impl From<fx_base::NoMemory> for CheckFault {
    ghost from_gives = { λ _ fault. fault ≡ OutOfMemory };

    fn from(_: fx_base::NoMemory) -> Self {
        CheckFault::NoMemory
    }
}
