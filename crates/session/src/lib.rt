//! The engine: it keeps the facts of a program that some rule can still need, its clock, the network of its rules and an agenda, and
//! answers the lines of each change and firing, in brief or in full. What it answers is the world's, which keeps every fact. It tells what
//! it keeps, and counts.
//! Calls that allocate answer `NoMemory` where memory is refused.
#![tactic(auto)]

mod copying;
mod counting;
mod course;
mod detailed;
mod firing;
mod inspecting;
pub mod laws;
mod moving;
mod refreshing;
mod restoring;
mod running;
mod saving;
mod session;
mod settling;
mod state;
mod steps;

pub use detailed::DetailedSession;
pub use engine::{Cell, Detail, Engine, Fired, Inspect, Lines, OutLine, WorldCounts};
pub use rule_world::Code;
pub use session::Session;
pub use session_model::{Memory, Setting};
