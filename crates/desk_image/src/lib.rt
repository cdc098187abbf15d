//! Images of a desk: the image of a session, and the lives by which it goes on where these are not those inferred of its rules. They have one spelling
//! for each value, and `decode_desk` takes nothing else. It stands on `checkpoint`, and assumes nothing of the bytes that it is given.
//! Calls that allocate answer `NoMemory` where memory is refused.
#![tactic(auto)]

mod front;
pub mod laws;
mod reading;
mod whole;

pub use front::lives_front;
pub use whole::{DeskImage, decode_desk};
