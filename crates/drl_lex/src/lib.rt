//! The lexer of rule files: it cuts the bytes of a file into tokens, or names the first fault and where it stands.
//! It assumes nothing of the bytes; a file of any content is read or refused in one walk from the left.
//! Calls that allocate answer `NoMemory` where memory is refused.
#![tactic(auto)]

mod bytes;
mod fault;
mod kinds;
mod laws;
mod lexer;
mod marks;
mod natural;
mod numbers;
mod texts;
mod token;

pub use fault::{LexCode, LexFault};
pub use kinds::kinds_and_starts;
pub use laws::lexed_is_exact;
pub use lexer::lex;
pub use natural::Natural;
pub use token::{Mark, Rel, Token, TokenKind};
