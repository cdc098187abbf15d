//! The candidates of a pattern, as facts come and go and the clock moves: the window in front of a node. It stands on windows,
//! patterns and the rows of conditions, and assumes nothing of the outside. Calls that allocate answer `NoMemory` where memory is refused.
#![tactic(auto)]

mod gate;
pub mod laws;

pub use gate::PatternGate;
