//! What a rule file declares, and which variables are in sight where: names with their places, types, entry points, and
//! meanings.
//! It takes any trees of the grammar, and assumes nothing of them. Calls that allocate answer `NoMemory` where memory is refused.
#![tactic(auto)]

mod annotations;
mod declared;
mod entries;
mod names;
mod observed;
mod operands;
mod places;
mod sight;

pub use annotations::{
    duration_field, expiry_offset, is_event_tree, is_reference_tree, timestamp_field,
};
pub use declared::{Declared, DeclaredType, kind_of_word, names_of_fields};
pub use entries::{default_entry, entry_points, lateness_of_entry, source_of, with_entries};
pub use names::{differ, has_at_most};
pub use observed::watched_types;
pub use operands::{LeafTest, OperandTest, some_leaf, some_operand};
pub use places::Places;
pub use sight::{Meaning, Place, Seen, binds};
