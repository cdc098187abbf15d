//! What a session answers in a world, for which worlds it stands, and the laws of its steps, over plain data: the parts of a session
//! are named here, and the code that moves them stands in the crate above. It takes no memory.
#![tactic(auto)]

pub mod laws;
mod memory;
mod setting;

pub use memory::Memory;
pub use setting::Setting;
