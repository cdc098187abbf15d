//! The lines of rules that change over a running state: in text, or as objects in JSON.
//! Calls that allocate answer `NoMemory` where memory is refused.
#![tactic(auto)]

mod lines;

pub use lines::push_told;
