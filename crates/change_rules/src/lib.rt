//! Which rules stay under other rules, why these are refused, what is told of them, the lives that go on or are long enough, and where types and entry
//! points go. What `rule_change` defines is as it defines it. It takes memory for what it answers, and for copies of conditions.
#![tactic(auto)]

mod as_long;
mod checked;
mod counted;
mod expressions;
mod ground;
mod judging;
pub mod laws;
mod lives;
mod longest;
mod moved;
mod places;
mod staying;
mod told;

pub use as_long::is_as_long;
pub use checked::{have_names, have_places};
pub use judging::verdict;
pub use lives::{carried_table, longer_type};
pub use longest::longest_table;
pub use moved::are_moved_conditions;
pub use places::{entry_there, new_entry, new_type};
pub use staying::{is_taken, staying_rules};
pub use told::{ToldRule, told_rules};
