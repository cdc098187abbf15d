use fx_base::{Millis, RuleId, Seq};
use temporal_net::NetEdge;

/// Certificates of the finite lives of a table: a part for each of the bounds that they rest on, by rule, by `from` and by `to`.
#[derive(Debug, Drop)]
pub struct Proof {
    pub parts: Seq<Part>,
}

/// Of a rule, how far behind the end of an event of condition `from` one of condition `to` can start, both counted from 0: the edges
/// of a path from the start of that of `to` to the end of that of `from`, or of a cycle, which shows that no events meet the temporal
/// tests. The event of condition k starts at the point 2k and ends at the point 2k + 1.
#[derive(Debug, Drop)]
pub struct Part {
    pub rule: RuleId,
    pub from: u8,
    pub to: u8,
    pub cycle: bool,
    pub edges: Seq<NetEdge>,
}

/// What is asked of a part: its places, and the life that its bound is to be within.
#[derive(Clone, Copy, Debug)]
pub(crate) struct Asked {
    pub rule: usize,
    pub from: usize,
    pub to: usize,
    pub life: Millis,
}
