//! Rule files: from their bytes to their trees, or to the first thing that is refused, with its line.
//! It assumes nothing of the bytes that it is given. Each byte and each token is looked at a bounded number of times.
//! Calls that allocate answer `NoMemory` where memory is refused.
#![tactic(auto)]

mod fault;
mod items;
mod lines;
mod parsing;
mod paths;
mod rules;
mod splitting;
mod types;
mod words;

pub use drl_expr::{ExprTree, LitTree, Node};
pub use drl_grammar::{
    ActTree, Attr, Cmp, CondTree, FoldWord, Meta, Operand, Part, Piece, SourceTree, WindowTree,
    Written, WrittenBody, WrittenItem, WrittenRule, WrittenType,
};
pub use drl_lex::{LexCode, Rel};
pub use fault::ParseFault;
pub use parsing::{parse, parsed_is_exact};
pub use temporal_ops::OpWord;
