//! What the conditions and the actions of a rule use: whether types, fields and variables are there, whether
//! kinds fit, and whether times are asked of events.
//! It takes any rule with the types of its file, and assumes nothing of them. Calls that allocate answer `NoMemory` where memory is refused.
#![tactic(auto)]

mod action_kinds;
mod action_uses;
mod asked;
mod kinded;
mod kinds;
mod times;
mod uses;

pub use action_uses::insert_unknown;
pub use asked::{Asked, is_so_in_rule};
pub use kinded::Kinded;
pub use kinds::{is_whole, lacks_kind};
pub use times::lack_times;
pub use uses::lack_type;
