//! The program `desk`: a live run over a rule file, without an end, from the image of an earlier one where there is one, and to the image from
//! which the next goes on.
//! It knows the outside by its traits alone, so that its answer is a matter of proof.
//! Calls that allocate answer `NoMemory` where memory is refused, the top call status 7.
#![tactic(auto)]

mod changing;
mod ending;
mod going;
mod live;
mod reading;
mod running;
mod serving;
mod start;
mod taking;
mod wanted;

pub use serving::desk;
