//! The node of a `not`: the left rows for which no candidate passes, once they are mature. It stands on the node that counts the
//! candidates, on programs and their windows of possible starts, and assumes nothing of the outside.
//! Calls that allocate answer `NoMemory` where memory is refused.
#![tactic(auto)]

pub mod laws;
mod moments;
mod node;
mod ripening;

pub use node::NotNode;
