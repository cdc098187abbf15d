//! The image of a world under other rules, made of its image under the old ones. It has definitions and laws alone, no program goes by them yet, and
//! no call takes memory.
#![tactic(auto)]

pub mod laws;
