//! Written rule files written out to plain ones: alternatives to a rule for each of the ways in which they can be met, subtypes to
//! types with all that they inherit.
//! It takes any trees of the grammar, and assumes nothing of them. Calls that allocate answer `NoMemory` where memory is refused.
#![tactic(auto)]

mod counts;
mod expanding;
mod fault;
mod faults;
mod heirs;
mod hierarchy;
mod kinds;
mod known;
pub mod laws;
mod order;
mod rules;
mod sizes;
mod type_faults;
mod types;
mod varied;
mod watchers;
mod ways;

pub use expanding::{Expanded, expand};
pub use fault::{ExpandCode, ExpandFault, Obstacle};
