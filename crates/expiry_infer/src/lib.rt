//! Infers from the temporal tests of rules how long events can still matter (Walzer, Breddin, Groch 2008): whether the patterns of a
//! rule can match at all, how far behind an event another can start, and the lives of event types. It solves networks of differences
//! (Dechter, Meiri, Pearl 1991) and assumes nothing of the outside. Calls that allocate answer `NoMemory` where memory is refused.
#![tactic(auto)]

pub mod laws;
mod lifetimes;
mod limits;
mod solving;

pub use lifetimes::lives;
pub use solving::is_solvable;
