//! Certificates of lives: for each bound that a finite life rests on, edges of a network that give it (Dechter, Meiri, Pearl 1991).
//! `certify` makes them by a solver. `confirm` stands on the edges of the networks alone, looks each edge up and adds up: it calls
//! nothing that solves a network, neither in `temporal_net` nor in `expiry_infer`. It assumes nothing of the outside.
//! Calls that allocate answer `NoMemory` where memory is refused.
#![tactic(auto)]

mod asking;
mod certifying;
mod confirming;
pub mod laws;
mod part;
mod tables;

pub use certifying::certify;
pub use confirming::{confirm, tail_at_place, total};
pub use part::{Part, Proof};
