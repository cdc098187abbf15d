ghost use Rattle.std.specs.Prelude.{◌≡◌};
ghost use Rattle.line_run.specs.declared.fault.KeepFault.TheVariants.{NoMemory as NoRoom};
ghost use Rattle.line_run.specs.declared.fault.StopFault.TheVariants.{WriteFault, NoMemory as OutOfMemory};
ghost use Rattle.line_run.specs.Faults.{run_fault, unkept_fault};

use fx_base::NoMemory;
use fx_io::{Failed, LineFault};

/// Why an image is refused.
#[derive(Clone, Copy, Debug, PartialEq, Eq)]
pub enum ImageFault {
    /// It has more bytes than an image may have.
    TooLong,
    /// No run could go on from its numbers.
    Unfit,
}

/// Why an image was not put.
#[derive(Clone, Copy, Debug, PartialEq, Eq)]
pub enum KeepFault {
    /// The outside refused a call.
    WriteFault,
    NoMemory,
    /// No run could go on from it, or it is too long.
    Refused(ImageFault),
}

impl From<NoMemory> for KeepFault {
    ghost from_gives = { λ _ fault. fault ≡ NoRoom };

    fn from(_: NoMemory) -> Self {
        KeepFault::NoMemory
    }
}

/// Why a run stopped before the end of the script.
#[derive(Clone, Copy, Debug, PartialEq, Eq)]
pub enum StopFault {
    /// The script's source failed.
    ReadFault,
    /// The sink failed.
    WriteFault,
    NoMemory,
    /// The script has more bytes than the run may take.
    ScriptLong,
    /// The image of the state behind a line that saves is refused.
    Refused(ImageFault),
}

impl From<NoMemory> for StopFault {
    ghost from_gives = { λ _ fault. fault ≡ OutOfMemory };

    fn from(_: NoMemory) -> Self {
        StopFault::NoMemory
    }
}

impl From<Failed> for StopFault {
    ghost from_gives = { λ _ fault. fault ≡ WriteFault };

    fn from(_: Failed) -> Self {
        StopFault::WriteFault
    }
}

impl From<KeepFault> for StopFault {
    ghost from_gives = { λ fault found. found ≡ unkept_fault fault };

    fn from(fault: KeepFault) -> Self {
        match fault {
            KeepFault::WriteFault => StopFault::WriteFault,
            KeepFault::NoMemory => StopFault::NoMemory,
            KeepFault::Refused(why) => StopFault::Refused(why),
        }
    }
}

pub(crate) fn of_line_fault(fault: LineFault) -> StopFault
    ensures { result ≡ run_fault fault }
{
    match fault {
        LineFault::ReadFault => StopFault::ReadFault,
        LineFault::ScriptLong => StopFault::ScriptLong,
        LineFault::NoMemory => StopFault::NoMemory,
    }
}
