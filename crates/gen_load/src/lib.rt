//! A load for measuring: one rule file, and a script of events drawn by a linear congruential generator.
//! It stands on `fx_base` and assumes nothing of the outside. Calls that allocate answer `NoMemory` where memory is refused.
#![tactic(auto)]

mod draws;
mod load;
mod rule_file;
mod turn;

pub use load::{Generated, generate};
