//! The rows of kept facts, where conditions count and gather beyond them: over what is kept of a snapshot, with what conditions count of
//! the rest, they are the rows of the whole snapshot that name kept facts alone. Definitions and laws alone: it runs nothing, and assumes
//! nothing of the outside. It takes no memory.
#![tactic(auto)]

pub mod laws;
