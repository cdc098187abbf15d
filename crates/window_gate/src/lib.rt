//! The window in front of a node: which facts of a pattern are inside it, as they come and go and the clock moves.
//! It stands on `fx_base` and `row_delta` and assumes nothing of the outside. Calls that allocate answer `NoMemory` where memory is refused.
#![tactic(auto)]

mod change;
mod gate;
mod length_window;
mod rows;
mod time_window;

pub use change::{GateChange, WindowKind};
pub use gate::Gate;
