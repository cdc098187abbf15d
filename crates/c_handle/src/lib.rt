//! The value of a box behind a plain pointer, which a struct of C can hold, or nothing.
#![tactic(auto)]

mod held;
mod loose;

pub use held::Held;
