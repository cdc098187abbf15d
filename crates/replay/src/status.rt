//! The statuses of the program.
ghost use Rattle.std.specs.Prelude.{◌≡◌, ◌⊎◌, ◌≤◌};
ghost use Rattle.line_run.specs.Turns.{ended_as};
ghost use Rattle.replay.specs.Report.{run_status, fault_status};

use engine::Engine;
use line_run::{Ended, Progress};
use script_run::RunFault;

/// Of a run of which no call failed.
pub(crate) fn status_of(ended: Ended) -> u8
    ensures status { result ≡ run_status ended }
    ensures answers { (result ≤ 1) ⊎ (result ≡ 4) }
{
    match ended {
        Ended::Script(false) => 0,
        Ended::Script(true) => 1,
        Ended::Limit => 4,
    }
}

/// Of a run that left this, or met the limit of firings.
pub(crate) fn status_found<E: Engine>(found: Option<(E, Progress)>) -> u8
    ensures { result ≡ run_status (ended_as found) }
{
    match found {
        Some((_, at)) => status_of(Ended::Script(at.faulted)),
        None => status_of(Ended::Limit),
    }
}

/// Of a run that stopped.
pub fn status_of_fault(fault: RunFault) -> u8
    ensures { result ≡ fault_status fault }
{
    match fault {
        RunFault::ReadFault => 5,
        RunFault::WriteFault => 6,
        RunFault::NoMemory => 7,
        RunFault::ScriptLong => 8,
    }
}
