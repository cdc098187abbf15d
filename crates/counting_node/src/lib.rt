//! The node of a `not`, of an `exists` and of an `accumulate`: it keeps for each row of the conditions before it a tally of the
//! candidates that pass there. It stands on rows, their changes, patterns, accumulate functions, the memories of a node and what
//! a node is given, and assumes nothing of the outside. Calls that allocate answer `NoMemory` where memory is refused.
#![tactic(auto)]

mod count;
mod gathered;
pub mod laws;
mod node;
mod result_tests;
mod tally;

pub use count::{Blockers, Witnesses};
pub use gathered::Gathered;
pub use node::TallyNode;
pub use tally::{Beyond, Tally};
