ghost use Rattle.std.specs.Prelude.{◌≡◌};

use fx_base::NoMemory;
use std::alloc::AllocFailed;

/// Why an expression has no value.
#[derive(Clone, Copy, Debug, PartialEq, Eq)]
pub enum EvalFault {
    /// The whole number of the expression or of a part of it is outside 64 bits with sign.
    Overflow,
    /// Memory was refused, at whatever expression.
    NoMemory,
}

impl From<NoMemory> for EvalFault {
    ghost use Rattle.action_eval.specs.declared.fault.EvalFault.TheVariants.{NoMemory as Refused};

    ghost from_gives = { λ _ fault. fault ≡ Refused };

    fn from(_: NoMemory) -> EvalFault {
        EvalFault::NoMemory
    }
}

impl<T: Drop> From<AllocFailed<T>> for EvalFault {
    ghost use Rattle.action_eval.specs.declared.fault.EvalFault.TheVariants.{NoMemory as Refused};

    ghost from_gives = { λ _ fault. fault ≡ Refused };

    fn from(_: AllocFailed<T>) -> EvalFault {
        EvalFault::NoMemory
    }
}
