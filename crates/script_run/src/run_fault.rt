ghost use Rattle.std.specs.Prelude.{◌≡◌};
ghost use Rattle.script_run.specs.declared.run_fault.RunFault.TheVariants.{NoMemory as OutOfMemory};

use fx_base::NoMemory;

/// Why the run of a recorded script stopped before the end of the script.
#[derive(Clone, Copy, Debug, PartialEq, Eq)]
pub enum RunFault {
    /// The script's source failed.
    ReadFault,
    /// The sink failed.
    WriteFault,
    NoMemory,
    /// The script has more bytes than the run may take.
    ScriptLong,
}

impl From<NoMemory> for RunFault {
    ghost from_gives = { λ _ fault. fault ≡ OutOfMemory };

    fn from(_: NoMemory) -> Self {
        RunFault::NoMemory
    }
}
