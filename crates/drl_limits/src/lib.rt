//! The limits of a rule file: how many there may be of a thing, how long names and texts are, how large numbers.
//! It takes any item with what the items before it declare, and assumes nothing of them. It takes no memory.
#![tactic(auto)]

mod action_limits;
mod limits;
mod room;

pub use limits::exceeds_limits;
