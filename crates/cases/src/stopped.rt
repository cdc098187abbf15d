use fx_base::NoMemory;
use fx_io::Failed;
use std::alloc::{AllocError, AllocFailed};

/// Why the cases were not run to their end: reading or writing failed, memory was refused, or a line sets what no case has.
#[derive(Clone, Copy, Debug, PartialEq, Eq)]
pub(crate) struct Stopped;

impl From<NoMemory> for Stopped {
    fn from(_: NoMemory) -> Stopped {
        Stopped
    }
}

impl From<AllocError> for Stopped {
    fn from(_: AllocError) -> Stopped {
        Stopped
    }
}

impl<T: Drop> From<AllocFailed<T>> for Stopped {
    fn from(_: AllocFailed<T>) -> Stopped {
        Stopped
    }
}

impl From<Failed> for Stopped {
    fn from(_: Failed) -> Stopped {
        Stopped
    }
}
