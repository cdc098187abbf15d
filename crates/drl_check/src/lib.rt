//! The checks of a rule file, and the program of a file that they accept.
//! It takes any file of trees, and assumes nothing of it. Calls that allocate answer `NoMemory` where memory is refused.
#![tactic(auto)]

mod checking;
mod events;
mod fault;
mod laws;
mod params;
mod refusal;
mod twice;
mod whole;

pub use checking::check;
pub use fault::{CheckCode, CheckFault};
pub use laws::{failures_are_exact, one_failure_is_first};
