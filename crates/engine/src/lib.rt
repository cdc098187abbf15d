//! What every engine promises: which worlds it stands for, the lines that it answers to changes and firings, and that it goes on from its
//! image; and what one tells that can be asked what it keeps.
//! What runs a script knows an engine by these contracts alone. Calls that allocate answer `NoMemory` where memory is refused.
#![tactic(auto)]

mod inspect;
pub mod laws;
mod promise;
mod resuming;
mod world_counts;

pub use answer_lines::{Cell, Detail, Fired, Lines, OutLine};
pub use inspect::Inspect;
pub use promise::Engine;
pub use resuming::ResumeFault;
pub use world_counts::WorldCounts;
