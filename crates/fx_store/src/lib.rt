//! Files that are put whole in the place of others, as a live run puts its image: in a store, or beside an output. The bytes of a file come in pieces.
//! Calls that allocate answer `NoMemory` where memory is refused.
#![tactic(auto)]

mod file_sink;
mod file_store;
mod mem_store;
mod store;

pub use file_sink::{FileSink, SinkWithFiles};
pub use file_store::FileStore;
pub use mem_store::MemStore;
pub use store::{Store, StoreFault};
