//! The accumulate functions `count`, `sum`, `min`, `max` and `average`, kept over values that come and go.
//! It stands on `fx_base` and assumes nothing of the outside. Calls that allocate answer `NoMemory` where memory is refused.
#![tactic(auto)]

mod any_fold;
mod fold;
mod kind;
pub mod laws;
mod multiset;
mod repeat;
mod totals;

pub use any_fold::AnyFold;
pub use fold::Fold;
pub use kind::FoldKind;
