//! The loop over the lines of a script: it reads them, hands each to what takes it, and writes what they print before it reads on. Behind a line
//! that saves the image of the state is put before what the line prints is written. It knows what takes the lines, and puts images, by a trait
//! alone, and the outside by a source of the script and a sink.
//! Calls that allocate answer `NoMemory` where memory is refused.
#![tactic(auto)]

mod fault;
mod gathered;
pub mod laws;
mod running;
mod taker;
mod turn;

pub use fault::{ImageFault, KeepFault, StopFault};
pub use running::run_lines;
pub use taker::LineTaker;
pub use turn::{Ended, Progress, Turn};
