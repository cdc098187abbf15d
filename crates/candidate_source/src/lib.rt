//! The candidates that several nodes take alike, kept once: the gate in front, the candidates behind it, and under which values of rows the
//! nodes are found. It stands on facts, patterns, their joins, memories and gates, and assumes nothing of
//! the outside. Calls that allocate answer `NoMemory` where memory is refused.
#![tactic(auto)]

mod handed;
mod handing;
pub mod laws;
mod source;
mod sources;

pub use handed::Handed;
pub use source::Source;
pub use sources::Sources;
