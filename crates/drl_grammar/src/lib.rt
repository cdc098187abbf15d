//! Rule files as trees, as they are written and written out to plain ones, and the grammar that says which tokens stand for which
//! written file.
//! It has definitions and copies of trees alone: the readers and the writer of rule files stand on it, and nothing is assumed.
//! Calls that allocate answer `NoMemory` where memory is refused.
#![tactic(auto)]

mod action;
mod condition;
mod copying;
mod file;
mod written;

pub use action::ActTree;
pub use condition::{Cmp, CondTree, FoldWord, Operand, Part, ResultWord, SourceTree, WindowTree};
pub use copying::copy_pairs;
pub use file::{Attr, Body, File, Item, Meta, RuleTree, TypeTree};
pub use written::{Piece, Written, WrittenBody, WrittenItem, WrittenRule, WrittenType};
