//! Makes the image of a world under other rules of its image under the old ones, or says why these are refused.
#![tactic(auto)]

mod at_hand;
mod extras;
mod facts;
mod fired;
mod laden;
pub mod laws;
mod making;
mod moments;
mod pending;
mod taking;

pub use laden::laden_matches;
pub use making::changed_image;
pub use pending::none_pending;
pub use taking::{Lives, change};
