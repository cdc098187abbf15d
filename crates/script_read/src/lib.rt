//! Reads the command that a line of the script asks for, by the form in JSON that each command has.
//! It stands on the reading of `serde_json` and assumes nothing of a line; its caller cuts the lines.
//! Calls that allocate answer `NoMemory` where memory is refused.
#![tactic(auto)]

mod asked;
mod blank;
mod fault;
mod flat;
mod given;
pub mod laws;
mod line;
mod members;
mod names;
mod scratch;
mod tree;
mod whole;

pub use asked::{Change, Command};
pub use blank::is_blank;
pub use fault::CommandFault;
pub use flat::command_with;
pub use given::Given;
pub use line::{command, read_value};
pub use members::{count, text_member};
pub use scratch::Scratch;
