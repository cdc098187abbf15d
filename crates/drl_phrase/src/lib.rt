//! Readers of the shapes that recur in the grammar of rule files, over readers of their members: lists, options, marks.
//! It assumes nothing of the tokens. Each reader takes one walk over what it reads. Calls that allocate answer `NoMemory` where memory is refused.
#![tactic(auto)]

mod names;
mod phrase;
mod shapes;

pub use names::{Name, Span};
pub use phrase::{Phrase, Punctuation, behind, behind_word, whole};
pub use shapes::{listed, many, maybe, optional, separated};
