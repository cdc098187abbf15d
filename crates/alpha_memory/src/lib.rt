//! The candidates of a condition, found by their join values: an index from join values to keys with what is kept
//! beside each, and the memory of candidates in the order of their insertion.
//! It stands on `fx_base`, `row_delta` and `indexmap`, and assumes nothing of the outside.
//! Calls that allocate answer `NoMemory` where memory is refused.
#![tactic(auto)]

mod bucket;
mod join_index;
mod memory;

pub use bucket::Bucket;
pub use join_index::JoinIndex;
pub use memory::AlphaMemory;
