//! What follows of what an engine that forgets keeps of a world (`kept_meaning`) for the rows of conditions and for candidates, over steps. It has laws
//! alone, and assumes nothing of the outside. It takes no memory.
#![tactic(auto)]

pub mod laws;
