//! Closed ranges of whole numbers, each with a place: those that have a number are found by the order of their bounds. It stands
//! on `fx_base` and assumes nothing of the outside. Calls that allocate answer `NoMemory` where memory is refused.
#![tactic(auto)]

mod hits;
mod index;
mod node;
mod placed;

pub use hits::Hits;
pub use index::RangeIndex;
pub use placed::PlacedRange;
