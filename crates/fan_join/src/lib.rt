//! The nodes of patterns that stand behind one node and look for its rows under the same values: they keep these rows once, and each
//! its candidates, and those that a row reaches answer what changes in the rows that they make. It stands on rows, their changes,
//! patterns, the memories of nodes and an index by values, and assumes nothing of the outside.
//! Calls that allocate answer `NoMemory` where memory is refused.
#![tactic(auto)]

mod asking;
mod fan;
pub mod laws;
mod member;
mod reach;
mod row_turn;

pub use fan::FanJoin;
