//! Minimal networks: the greatest differences that a set of difference constraints allows, or a negative cycle
//! that shows that nothing meets them all. It stands on `fx_base` and assumes nothing of the outside.
//! Calls that allocate answer `NoMemory` where memory is refused.
#![tactic(auto)]

mod distance;
mod edge;
mod laws;
mod minimal;
mod net;
mod table;

pub use edge::NetEdge;
pub use laws::{negative_cycle_has_no_solution, solvability_is_decided};
pub use minimal::Minimal;
pub use net::{Net, NetFault};
