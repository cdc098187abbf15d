//! The node of a pattern that binds a fact: it keeps the rows of the conditions before it and the candidates, and answers what
//! changes in the rows that they make. It stands on rows, their changes, patterns and the memories of a node, and assumes
//! nothing of the outside. Calls that allocate answer `NoMemory` where memory is refused.
#![tactic(auto)]

mod join;
pub mod laws;

pub use join::BetaJoin;
