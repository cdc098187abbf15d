ghost use Rattle.std.specs.Prelude.{◌≡◌};

use drl_lex::LexCode;
use fx_base::NoMemory;
use std::alloc::{AllocError, AllocFailed};
use thiserror::Error;

/// Why the bytes are no written file.
#[derive(Clone, Copy, Debug, PartialEq, Eq, Error)]
pub enum ParseFault {
    /// The item of this number, counted from 1, is the first that is outside the grammar; its first token stands on
    /// this line, counted from 1.
    #[error("item {item} on line {line} is outside the grammar")]
    Syntax { item: u32, line: u32 },
    /// There are more than 1,048,576 bytes.
    #[error("more than 1048576 bytes")]
    TooLong,
    /// The bytes are no list of tokens: the fault that stands first, and its line, counted from 1.
    #[error("{code:?} on line {line}")]
    Lexical { code: LexCode, line: u32 },
    #[error("memory was refused")]
    NoMemory,
}

impl From<NoMemory> for ParseFault {
    ghost use Rattle.drl_parse.specs.declared.fault.ParseFault.TheVariants.{NoMemory as OutOfMemory};

    ghost from_gives = { λ _ fault. fault ≡ OutOfMemory };

    fn from(_: NoMemory) -> ParseFault {
        ParseFault::NoMemory
    }
}

impl From<AllocError> for ParseFault {
    ghost use Rattle.drl_parse.specs.declared.fault.ParseFault.TheVariants.{NoMemory as OutOfMemory};

    ghost from_gives = { λ _ fault. fault ≡ OutOfMemory };

    fn from(_: AllocError) -> ParseFault {
        ParseFault::NoMemory
    }
}

impl<T: Drop> From<AllocFailed<T>> for ParseFault {
    ghost use Rattle.drl_parse.specs.declared.fault.ParseFault.TheVariants.{NoMemory as OutOfMemory};

    ghost from_gives = { λ _ fault. fault ≡ OutOfMemory };

    fn from(_: AllocFailed<T>) -> ParseFault {
        ParseFault::NoMemory
    }
}
