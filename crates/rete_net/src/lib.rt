//! The network of a program: a node for each distinct front of its rules' conditions. It answers for a change of the facts and a move of
//! the clock what changes in the rows of which rules. It stands on the nodes of conditions and their gates, and assumes nothing of the
//! outside. Calls that allocate answer `NoMemory` where memory is refused.
#![tactic(auto)]

mod alike;
mod alpha_index;
mod answered;
mod bounds;
mod build;
mod changes;
mod due;
mod extras;
mod fans;
mod forgetting;
mod grouping;
mod index;
pub mod laws;
mod lists;
mod load;
mod loading;
mod membership;
mod net;
mod node;
mod pieces;
mod quiet;
mod ranges;
mod schedule;
mod seating;
mod selector;
mod sourcing;
mod steps;
mod taking;
mod timers;

pub use changes::RuleChange;
pub use forgetting::RuleRows;
pub use load::LoadFault;
pub use net::Rete;
