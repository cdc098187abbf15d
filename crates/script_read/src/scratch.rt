use crate::names::Names;
use std::alloc::Global;

/// The memory that reading a line needs. One is kept, and lent to the reading of each line.
#[derive(Drop)]
pub struct Scratch {
    pub(crate) places: json::Scratch,
    pub(crate) names: Names,
}

impl Scratch {
    /// Takes no memory.
    pub fn new(alloc: Global) -> Scratch {
        Scratch {
            places: json::Scratch::new(alloc),
            names: Names::new(alloc),
        }
    }
}
