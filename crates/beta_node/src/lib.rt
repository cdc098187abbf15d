//! The node of a condition, of whichever kind: what the condition makes of the rows of the conditions before it, by differences.
//! It stands on the nodes of each kind and the rows of conditions, and assumes nothing of the outside.
//! Calls that allocate answer `NoMemory` where memory is refused.
#![tactic(auto)]

pub mod laws;
mod node;

pub use node::{FoldNode, Node};
