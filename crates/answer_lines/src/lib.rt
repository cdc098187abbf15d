//! The lines that an engine answers to a change or a firing: in brief, by numbers and types, or in full, with the fields of facts.
//! It takes no memory.
#![tactic(auto)]

mod lines;

pub use lines::{Cell, Detail, Fired, Lines, OutLine};
