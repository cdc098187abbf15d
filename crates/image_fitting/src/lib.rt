//! Which images fit a program with its lives, as far as it can be told before a network is loaded from one. It stands on the laws of
//! images, and assumes nothing of the outside. Calls that allocate answer `NoMemory` where memory is refused.
#![tactic(auto)]

mod extras;
mod facts;
mod fitting;
pub mod laws;
mod numbers;
mod orders;
mod table;

pub use fitting::fits_plainly;
