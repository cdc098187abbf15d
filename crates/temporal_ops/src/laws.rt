//! Laws on the operators and on possible events, for the proofs of crates above. The functions do nothing.
ghost use Rattle.std.specs.Prelude.{◌≡◌, ◌↔◌, IsTrue, List};
ghost use Rattle.temporal_ops.specs.declared.edge.OpEdge.{OpEdge};
ghost use Rattle.temporal_ops.specs.Laws.{EdgesAreOps, EdgesMeanRows, OneWindow, WindowIsOfEdges};

use crate::Op;

/// The edges of a word with its parameters hold of exactly the events of which the table's row says so.
#[tactic(auto, using(crate::proofs::Rows::edges_mean_rows))]
pub fn edges_mean_rows()
    ensures { EdgesMeanRows }
{}

/// The edges of a word with parameters of at most 2^53 ms in size are at most 5, each joins a point of one
/// event with a point of the other, and each bound is at most 2^53 + 1 ms in size.
#[tactic(auto, using(crate::proofs::Ops::edges_are_ops))]
pub fn edges_are_ops()
    ensures { EdgesAreOps }
{}

/// Possible events have the starts of one window and no other.
#[tactic(auto, using(crate::proofs::Windows::one_window_each))]
pub fn one_window()
    ensures { OneWindow }
{}

/// Where each edge joins a point of one event with a point of the other, the window of the possible events is
/// a function of the edges.
#[tactic(auto, using(crate::proofs::WindowOfEdges::window_is_of_edges))]
pub fn window_is_of_edges()
    ensures { WindowIsOfEdges }
{}

/// `==` of two operators says whether they have the same edges in the same order.
pub fn equal_ops()
    ensures { (a : List OpEdge) (b : List OpEdge) → IsTrue (⟦<Op as PartialEq>⟧.eq a b) ↔ (a ≡ b) }
{}
