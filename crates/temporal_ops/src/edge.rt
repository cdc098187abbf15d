ghost use Rattle.std.specs.Prelude.{◌≡◌};
ghost use Rattle.temporal_ops.specs.Edges.{edge_holds};
ghost use Rattle.temporal_ops.specs.Operators.{opposite as opposite_of, opposite_edge};

use fx_base::{Millis, Times};

/// A start or an end of the tested event A or of the bound event B.
#[derive(Clone, Copy, Debug, PartialEq, Eq)]
pub enum Corner {
    AStart,
    AEnd,
    BStart,
    BEnd,
}

impl Corner {
    ghost use Rattle.temporal_ops.specs.Edges.{corner};

    /// The point of these two events.
    pub(crate) fn of(self, a: Times, b: Times) -> Millis
        ensures { result ≡ corner self a b }
    {
        match self {
            Corner::AStart => a.start,
            Corner::AEnd => a.end,
            Corner::BStart => b.start,
            Corner::BEnd => b.end,
        }
    }

    /// The same point of the other event.
    pub(crate) fn opposite(self) -> Corner
        ensures { result ≡ opposite_of self }
    {
        match self {
            Corner::AStart => Corner::BStart,
            Corner::AEnd => Corner::BEnd,
            Corner::BStart => Corner::AStart,
            Corner::BEnd => Corner::AEnd,
        }
    }
}

/// An upper bound on a difference of two points, `x - y <= most` in milliseconds: an edge of a simple temporal
/// network (Dechter, Meiri, Pearl 1991).
#[derive(Clone, Copy, Debug, PartialEq, Eq)]
pub struct OpEdge {
    pub x: Corner,
    pub y: Corner,
    pub most: Millis,
}

impl OpEdge {
    /// An edge that stands for none.
    pub(crate) const BLANK: OpEdge = OpEdge {
        x: Corner::AStart,
        y: Corner::AStart,
        most: 0,
    };

    /// The edge with the two events exchanged.
    pub(crate) fn exchanged(&self) -> OpEdge
        ensures { result ≡ opposite_edge self.now }
    {
        OpEdge {
            x: self.x.opposite(),
            y: self.y.opposite(),
            most: self.most,
        }
    }

    /// Whether it holds of the tested event `a` and the bound event `b`.
    #[tactic(auto, unfolding(crate::specs::Edges::edge_holds))]
    pub(crate) fn holds(&self, a: Times, b: Times) -> bool
        ensures { result ≡ edge_holds a b self.now }
    {
        i128::from(self.x.of(a, b)) - i128::from(self.y.of(a, b)) <= i128::from(self.most)
    }
}

/// The edges of an operator: the first `count` of the items. The others mean nothing.
#[derive(Clone, Copy, Debug, PartialEq, Eq)]
pub struct Edges {
    pub items: [OpEdge; 5],
    pub count: usize,
}
