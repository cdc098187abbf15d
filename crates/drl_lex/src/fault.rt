ghost use Rattle.std.specs.Prelude.{◌≡◌};
ghost use Rattle.drl_lex.specs.Faults.{lex_code_name};

use fx_base::NoMemory;
use std::alloc::{AllocError, AllocFailed};
use thiserror::Error;

/// Why a file is no list of tokens.
#[derive(Clone, Copy, Debug, PartialEq, Eq)]
pub enum LexCode {
    /// A byte that begins no token; a run that begins with a digit and is neither a number nor a time, at its
    /// first byte; an escape that is not listed, at its `\`; a closed text whose content is not UTF-8, at its
    /// opening quote.
    BadChar,
    /// A text that meets a newline or the end of the file, at its opening quote.
    OpenText,
    /// A comment from `/*` on that is not closed, at its `/*`.
    OpenComment,
    /// A number above 2^63 - 1 or a time above 2^53 ms, at its first byte.
    NumberLarge,
}

impl LexCode {
    /// The name of the code, as a refusal shows it.
    pub fn name(self) -> &'static str
        ensures { result.now ≡ lex_code_name self }
    {
        match self {
            LexCode::BadChar => "BadChar",
            LexCode::OpenText => "OpenText",
            LexCode::OpenComment => "OpenComment",
            LexCode::NumberLarge => "NumberLarge",
        }
    }
}

/// Why `lex` gave no tokens.
#[derive(Debug, Drop, Error)]
pub enum LexFault {
    /// The fault that stands first in the file, and the offset that its code tells of. In a text faults are met
    /// from left to right, and UTF-8 is looked at last.
    #[error("{code:?} at byte {at}")]
    Refused { code: LexCode, at: usize },
    #[error("no memory")]
    NoMemory,
}

impl LexFault {
    pub(crate) fn refused(code: LexCode, at: usize) -> LexFault
        ensures { result ≡ LexFault.Refused code at }
    {
        LexFault::Refused { code, at }
    }
}

impl From<AllocError> for LexFault {
    ghost use Rattle.drl_lex.specs.declared.fault.LexFault.TheVariants.{NoMemory};

    ghost from_gives = { λ _ e. e ≡ NoMemory };

    fn from(_: AllocError) -> LexFault {
        LexFault::NoMemory
    }
}

impl<T: Drop> From<AllocFailed<T>> for LexFault {
    ghost use Rattle.drl_lex.specs.declared.fault.LexFault.TheVariants.{NoMemory};

    ghost from_gives = { λ _ e. e ≡ NoMemory };

    fn from(_: AllocFailed<T>) -> LexFault {
        LexFault::NoMemory
    }
}

impl From<NoMemory> for LexFault {
    ghost use Rattle.drl_lex.specs.declared.fault.LexFault.TheVariants.{NoMemory};

    ghost from_gives = { λ _ e. e ≡ NoMemory };

    fn from(_: NoMemory) -> LexFault {
        LexFault::NoMemory
    }
}
