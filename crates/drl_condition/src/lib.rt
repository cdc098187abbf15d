//! The reader of the conditions of a rule: from tokens to the trees of the grammar.
//! It assumes nothing of the tokens. It takes one walk over the tokens that it reads. Alternatives take stack, at most 16 deep.
//! Calls that allocate answer `NoMemory` where memory is refused.
#![tactic(auto)]

mod choices;
mod comparisons;
mod conditions;
mod folds;
mod parts;
mod patterns;
mod values;
mod words;

pub use choices::AskedPhrase;
pub use conditions::{ConditionPhrase, condition};
pub use drl_phrase::Phrase;
