//! Images of a session as plain data, and their bytes: one spelling for each image, and `decode` takes nothing else.
//! It stands on `fx_base` and `row_delta`, and assumes nothing of the bytes that it is given.
//! Calls that allocate answer `NoMemory` where memory is refused.
#![tactic(auto)]

mod codec;
mod fault;
mod image;
pub mod laws;
mod lists;
mod numbers;
mod parts;
mod pieces;
mod spelled;

pub use codec::{decode, encode};
pub use fault::DecodeFault;
pub use image::{FiredMatch, Image, RunPart};
pub use pieces::{ImagePieces, LentImage};
