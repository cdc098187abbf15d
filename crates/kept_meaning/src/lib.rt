//! What an engine that forgets keeps of a world, and what it has forgotten, decided by the clock, the table of lives and the pending matches. It has
//! definitions and laws alone, and assumes nothing of the outside. It takes no memory.
#![tactic(auto)]

pub mod laws;
