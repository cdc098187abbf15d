ghost use Rattle.std.specs.Prelude.{◌≡◌};

use fx_base::NoMemory;

/// Why a line gives no command.
#[derive(Clone, Copy, Debug, PartialEq, Eq)]
pub enum CommandFault {
    /// The line has no reading as JSON.
    BadJson,
    /// The line has a reading, which has the form of no command.
    BadCommand,
    /// Memory was refused, at whatever line.
    NoMemory,
}

impl From<NoMemory> for CommandFault {
    ghost use Rattle.script_read.specs.declared.fault.CommandFault.TheVariants.{NoMemory as Refused};

    ghost from_gives = { λ _ fault. fault ≡ Refused };

    fn from(_: NoMemory) -> CommandFault {
        CommandFault::NoMemory
    }
}
