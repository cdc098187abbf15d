//! The two memories of a node: rows of the conditions before it, each with what the node keeps for it, and the candidates of
//! its pattern, both found by their join values. It stands on facts, rows, patterns, their joins, changes of rows and an index by values, and
//! assumes nothing of the outside. Calls that allocate answer `NoMemory` where memory is refused.
#![tactic(auto)]

mod candidates;
mod inputs;
pub mod laws;
mod left_rows;
mod making;
mod memories;
mod merge;
mod partners;

pub use candidates::Candidates;
pub use inputs::names_alone;
pub use left_rows::LeftRows;
pub use memories::Memories;
