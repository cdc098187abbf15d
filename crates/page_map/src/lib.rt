//! A finite map from numbers that mostly rise, as ids and tags do, to numbers: kept in pages, with no table of values that grows at once.
//! It stands on `fx_base` and assumes nothing of the outside. Calls that allocate answer `NoMemory` where memory is refused.
#![tactic(auto)]

mod directory;
mod moves;
mod page;
mod pages;
mod run;

pub use pages::PageMap;
