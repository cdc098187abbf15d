/// A constraint between two points: `value(x) - value(y) <= most`, in milliseconds.
#[derive(Clone, Copy, Debug, PartialEq, Eq)]
pub struct NetEdge {
    pub x: u8,
    pub y: u8,
    pub most: i64,
}
