//! From the trees of a rule file to its program.
//! It takes any trees of the grammar: a name that is not declared, which no accepted file has, counts as the first.
//! Calls that allocate answer `NoMemory` where memory is refused.
#![tactic(auto)]

mod actions_of;
mod alone;
mod conditions_of;
mod infos_of;
pub mod laws;
mod numbers;
mod observed;
mod operators;
mod programs;
mod tests_of;
mod undeclared;

pub use alone::{conditions_alone, program_of_types};
pub use programs::program;
