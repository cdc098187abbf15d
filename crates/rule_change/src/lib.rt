//! Other rules over a running state: which rules stay, when the new ones are refused, the world under them, and that rules that stay have in it what
//! they had in the old one, step by step. It has definitions and laws alone, as `image_change`, which has the images; no program goes by them yet. No
//! call takes memory.
#![tactic(auto)]

mod code;
pub mod laws;

pub use code::{ChangeCode, RuleStatus};
