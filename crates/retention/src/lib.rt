//! Which held events are past their lives, and which of these a pending match still names, so that an event that is no longer needed
//! is found without a walk. It stands on `due_queue` and `agenda` and assumes nothing of the outside.
//! Calls that allocate answer `NoMemory` where memory is refused.
#![tactic(auto)]

pub mod laws;
mod retention;

pub use retention::Retention;
