ghost use Rattle.std.specs.Prelude.{◌≡◌};
ghost use Rattle.subrules.specs.declared.fault.ExpandFault.TheVariants.{NoMemory as OutOfMemory};
ghost use Rattle.subrules.specs.CodeNames.{expand_code_name};

use thiserror::Error;

/// Why an item cannot be written out. The codes are tried in this order.
#[derive(Clone, Copy, Debug, PartialEq, Eq)]
pub enum ExpandCode {
    /// The type that a type extends is not declared.
    UnknownType,
    /// A type, or one above it, stands above itself.
    BadExtends,
    /// An `exists`, an accumulate or a window of length stands on a type that another one extends.
    HasSubtypes,
    /// A rule is written out to more than 256 rules, or to one of more than 8 conditions; a type has more than 32 fields with those
    /// that it inherits.
    LimitPassed,
}

impl ExpandCode {
    /// Its name, as a refusal prints it. Takes no memory.
    pub fn name(self) -> &'static str
        ensures { result.now ≡ expand_code_name self }
    {
        match self {
            ExpandCode::UnknownType => "UnknownType",
            ExpandCode::BadExtends => "BadExtends",
            ExpandCode::HasSubtypes => "HasSubtypes",
            ExpandCode::LimitPassed => "LimitPassed",
        }
    }
}

/// An item that cannot be written out: its number, counted from 1, its line, and the first code that it has.
#[derive(Clone, Copy, Debug, PartialEq, Eq)]
pub struct Obstacle {
    pub number: u64,
    pub line: u32,
    pub code: ExpandCode,
}

/// Why a file is not written out.
#[derive(Clone, Copy, Debug, PartialEq, Eq, Error)]
pub enum ExpandFault {
    /// The first item that cannot be written out.
    #[error("item {number} in line {line}: {code:?}", number = .0.number, line = .0.line, code = .0.code)]
    Refused(Obstacle),
    #[error("memory was refused")]
    NoMemory,
}

impl From<fx_base::NoMemory> for ExpandFault {
    ghost from_gives = { λ _ fault. fault ≡ OutOfMemory };

    fn from(_: fx_base::NoMemory) -> Self {
        ExpandFault::NoMemory
    }
}
