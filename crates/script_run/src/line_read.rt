ghost use Rattle.std.specs.Prelude.{◌≡◌, IfOk};
ghost use Rattle.script_run.specs.Reads.{line_read};

use fx_base::NoMemory;
use script_read::{Command, CommandFault, Scratch, command_with, is_blank};
use std::alloc::Global;

/// What a line that is not too long reads as.
#[derive(Debug, PartialEq, Drop)]
pub(crate) enum LineRead {
    Blank,
    Asks(Command),
    /// It is no JSON.
    BadJson,
    /// It is JSON, and no command.
    BadCommand,
}

pub(crate) fn read_line(
    alloc: Global,
    line: &[u8],
    scratch: &mut Scratch,
) -> Result<LineRead, NoMemory>
    ensures { IfOk result (λ read. read ≡ line_read line.now) }
{
    if is_blank(line) {
        return Ok(LineRead::Blank);
    }
    match command_with(alloc, line, scratch) {
        Ok(command) => Ok(LineRead::Asks(command)),
        Err(CommandFault::BadJson) => Ok(LineRead::BadJson),
        Err(CommandFault::BadCommand) => Ok(LineRead::BadCommand),
        Err(CommandFault::NoMemory) => Err(NoMemory),
    }
}
