//! What has changed in a set of rows so far, and what leads from one set of rows to another.
//! It stands on `fx_base` and `row_delta`, and assumes nothing of the outside. Calls that allocate answer `NoMemory` where memory is refused.
#![tactic(auto)]

mod change;
pub mod laws;
mod row_set;

pub use change::{Change, changes_nothing};
