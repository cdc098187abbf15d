//! The worlds of a program: what was inserted, the clock, the fired matches; what steps and firings do in them, why a step is
//! refused, and which worlds are lawful.
//! It stands on the definitions of `rule_model`; how an engine keeps a world is no matter of this crate. It takes no memory.
#![tactic(auto)]

mod code;
pub mod laws;
mod times;

pub use code::Code;
pub use times::{clock_after, clock_at, floor, new_times, presence_end, promise_at};
