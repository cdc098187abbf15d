//! What the actions of a firing are to do: the values of their expressions, or that one leaves 64 bits.
//! It stands on the definitions of `rule_model` and assumes nothing of the facts that a row names.
//! Calls that allocate answer `NoMemory` where memory is refused.
#![tactic(auto)]

mod evaluating;
mod fault;
mod number;
mod planning;

pub use evaluating::value;
pub use fault::EvalFault;
pub use planning::planned_step;
