//! The steps that the changes of a script ask for, or their faults, in the order in which faults are tried.
//! It stands on the definitions of `rule_world` and `script_read`, and assumes nothing of a change.
//! Calls that allocate answer `NoMemory` where memory is refused.
#![tactic(auto)]

mod fields;
pub mod laws;
mod merge;
mod present;
mod reading;

pub use present::Present;
pub use reading::asked_step;
