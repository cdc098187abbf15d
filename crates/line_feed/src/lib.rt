//! A run that is fed with the bytes of its lines in pieces, as they come: each line is done as soon as its end has come, and the front of the next is
//! kept. It knows what takes the lines by a trait alone.
//! Calls that allocate answer `NoMemory` where memory is refused.
#![tactic(auto)]

mod fed;
mod front;

pub use fed::{Fed, begin, feed};
