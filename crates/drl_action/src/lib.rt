//! The actions of rules, read from tokens by the grammar.
//! It assumes nothing of the tokens. Calls that allocate answer `NoMemory` where memory is refused.
#![tactic(auto)]

mod action;
mod assign;
mod setter;
mod word;

pub use action::Action;
pub use assign::{Assignment, Expression};
