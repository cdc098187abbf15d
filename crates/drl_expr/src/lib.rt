//! The expressions of a rule's actions: their trees, and their reading from tokens by a grammar of sums, products and factors.
//! It assumes nothing of the tokens; the limits of height and depth bound the stack for every input.
//! Calls that allocate answer `NoMemory` where memory is refused.
#![tactic(auto)]

mod atoms;
mod copying;
mod literal;
mod marks;
mod measured;
mod reading;
mod tree;
mod words;

pub use literal::LitTree;
pub use reading::expression;
pub use tree::{ExprTree, Node};
pub use words::is_ident_word;
