//! Reads the words of the programs' command lines: the mode, the limit of firings, and the name of the rule file or the number of a load.
//! It stands on clap's reading of words by a command, and adds the defaults and tests of values.
//! Calls that allocate answer `NoMemory` where memory is refused.
#![tactic(auto)]

mod asking;
mod command;
mod desk;
pub mod laws;
mod numbers;
mod reading;

pub use asking::{Asked, Mode};
pub use desk::{DeskAsked, DeskWords, desk_asked};
pub use reading::asked;
