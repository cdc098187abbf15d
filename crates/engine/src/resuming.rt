ghost use Rattle.std.specs.Prelude.{◌≡◌};
ghost use Rattle.engine.specs.declared.resuming.ResumeFault.TheVariants.{NoMemory as OutOfMemory};

use fx_base::NoMemory;
use std::alloc::AllocError;

/// Why no engine was resumed from an image.
#[derive(Clone, Copy, Debug, PartialEq, Eq)]
pub enum ResumeFault {
    /// The image does not fit the program and its table of lives.
    Unfit,
    /// Memory was refused.
    NoMemory,
}

impl From<NoMemory> for ResumeFault {
    ghost from_gives = { λ _ fault. fault ≡ OutOfMemory };

    fn from(_: NoMemory) -> Self {
        ResumeFault::NoMemory
    }
}

impl From<AllocError> for ResumeFault {
    ghost from_gives = { λ _ fault. fault ≡ OutOfMemory };

    fn from(_: AllocError) -> Self {
        ResumeFault::NoMemory
    }
}
