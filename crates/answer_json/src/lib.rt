//! What the lines of a script answer, as lines of JSON: each is a value of `serde_json`, written without spaces, so that its reader reads that
//! value from it. Members stand in the order of the bytes of their names.
//! Calls that allocate answer `NoMemory` where memory is refused.
#![tactic(auto)]

mod answers;
mod counted;
mod facts;
mod firings;
mod lines;
mod writing;

pub use answers::{
    push_done, push_fault, push_fired, push_held, push_kept, push_limit, push_saved,
};
pub use counted::{Counted, push_counts};
pub use lines::push_line;
