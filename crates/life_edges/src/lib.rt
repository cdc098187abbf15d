//! What lives are inferred from, and what their certificates are held against: the network of the temporal tests of a rule as edges
//! between numbered points (Dechter, Meiri, Pearl 1991), the conditions that matter to one of them, and tails, which is how long behind
//! its start an event of a pattern can still come or leave. It solves no network and assumes nothing of the outside.
//! Calls that allocate answer `NoMemory` where memory is refused.
#![tactic(auto)]

mod networks;
mod scoping;
mod tails;

pub use networks::{POINTS, edges_between, end, network, start};
pub use scoping::scope;
pub use tails::tail;
