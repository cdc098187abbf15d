//! The text of a rule file, from its trees: a reader that reads the grammar exactly reads the same items from it.
//! It assumes nothing of the trees. Calls that allocate answer `NoMemory` where memory is refused.
#![tactic(auto)]

mod actions;
mod conditions;
mod expressions;
mod items;
mod laws;
mod patterns;
mod shapes;
mod text;
mod tokens;
mod values;

pub use laws::shown_is_read_again;
pub use text::show;
