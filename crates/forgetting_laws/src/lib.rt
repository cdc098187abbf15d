//! What an engine that forgets does in a step and in a firing, over plain data: it takes the change, and then forgets what is no longer
//! kept. Definitions and laws alone; it assumes nothing of the outside. It takes no memory.
#![tactic(auto)]

pub mod laws;
