//! A desk that is fed with the bytes of its lines, and hands out what these print: the run of a live script without its outside.
//! Calls that allocate answer `NoMemory` where memory is refused.
#![tactic(auto)]

mod desk;
mod lines;
mod opening;
mod refused;
mod running;
mod saving;

pub use desk::{CountFault, Desk, FeedFault, Told, counts, feed, progress, put_front, put_out};
pub use lines::Lines;
pub use opening::{OpenFault, Options, ended, open, opened};
pub use running::Running;
pub use saving::{SaveFault, save};
