//! The names of a rule's variables for the facts and the results that its conditions bind, as lines in JSON write them.
//! Calls that allocate answer `NoMemory` where memory is refused.
#![tactic(auto)]

mod rule_names;

pub use rule_names::{RuleNames, names};
