//! Reads what a line of a live script asks beside commands: to put the image, the kept facts, the counts.
//! A line that asks one of them asks for no command of `script_read`.
//! Calls that allocate answer `NoMemory` where memory is refused.
#![tactic(auto)]

mod asked;
pub mod laws;
mod line;

pub use asked::Question;
pub use line::question;
