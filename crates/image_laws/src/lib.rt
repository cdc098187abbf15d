//! What the image of a session says of a world, which images fit a program, and the law by which a network can be loaded from one: the
//! rows of the kept facts, with what conditions count beyond them, are the rows of the world that name kept facts alone. It has
//! definitions and laws alone, and assumes nothing of the outside. It takes no memory.
#![tactic(auto)]

pub mod laws;
