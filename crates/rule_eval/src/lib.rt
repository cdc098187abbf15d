//! Finds the rows of all rules anew, straight from their definition, whatever conditions they have. It looks at every fact each
//! time, and no engine stands on it: tests compare with it what the network answers by differences.
//! It stands on the definitions of `rule_model` and `rule_world`, and assumes nothing of the outside.
//! Calls that allocate answer `NoMemory` where memory is refused.
#![tactic(auto)]

mod bindings;
mod finder;
mod finding;
mod folding;
mod maturity;

pub use finding::rows_of_rules;
