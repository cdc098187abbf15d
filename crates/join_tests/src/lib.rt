//! When a candidate joins a row, and the equalities and the range of time by which the two find each other.
//! It stands on facts, rows and the tests of patterns, and assumes nothing of the outside.
//! Calls that allocate answer `NoMemory` where memory is refused.
#![tactic(auto)]

mod join_value;
mod joins;
mod key;
mod keyed;
pub mod laws;
mod name_key;
mod number;
mod part;
mod row_facts;
mod row_key;
mod slot;
mod sought;
mod time_key;

pub use join_value::JoinValue;
pub use joins::does_join;
pub use key::{JoinKey, JoinSide};
pub use keyed::KeyedPattern;
pub use name_key::{NameKey, NameTime};
pub use row_facts::{field_value, named_fact};
pub use row_key::{RowKey, RowTime};
pub use sought::{Sight, Sought};
pub use time_key::{Point, TimeKey};
