ghost use Rattle.std.specs.Prelude.{◌≡◌, ◌<◌, IfSome};
ghost use Rattle.std.specs.Int.Signed.{lt_z};

use crate::NetEdge;

/// How far one point is from another: the sum of a way's edges in milliseconds, and how many edges it has.
#[derive(Clone, Copy, Debug)]
pub struct Distance {
    pub sum: i64,
    pub edges: u8,
}

impl Distance {
    ghost use Rattle.temporal_net.specs.Tables.{cost, edge_distance, joined, lesser, zero_distance, IsShortDistance};

    /// The distance of a point from itself.
    pub fn zero() -> Distance
        ensures { result ≡ zero_distance }
    {
        Distance { sum: 0, edges: 0 }
    }

    /// The distance over one edge.
    pub fn of_edge(edge: &NetEdge) -> Distance
        ensures { result ≡ edge_distance edge.now }
    {
        Distance {
            sum: edge.most,
            edges: 1,
        }
    }

    /// The distance over a way and then another.
    pub fn then(self, next: Distance) -> Distance
        requires first { IsShortDistance self }
        requires second { IsShortDistance next }
        ensures { result ≡ joined self next }
    {
        Distance {
            sum: self.sum + next.sum,
            edges: self.edges + next.edges,
        }
    }

    /// The lesser by sum and then by edges.
    pub fn least(known: Option<Distance>, found: Distance) -> Distance
        requires known { IfSome known (λ d. d.edges < 32) }
        requires found { found.edges < 32 }
        ensures { result ≡ lesser known found }
    {
        match known {
            Some(known) if !found.is_less(known) => known,
            _ => found,
        }
    }

    fn is_less(self, other: Distance) -> bool
        requires first { self.edges < 32 }
        requires second { other.edges < 32 }
        ensures { result ≡ lt_z (cost self) (cost other) }
    {
        self.sum < other.sum || (self.sum == other.sum && self.edges < other.edges)
    }
}
