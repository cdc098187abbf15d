ghost use Rattle.std.specs.Prelude.{◌≡◌, ◌↔◌, ◌^◌, ◌<ℤ◌, pos, false, length, map, take, Any, IfOk, IsTrue};
ghost use Rattle.std.specs.List.{All};
ghost use Rattle.temporal_ops.specs.Edges.{edges_hold, IsOp, IsWithin};
ghost use Rattle.temporal_ops.specs.Laws.{Means};
ghost use Rattle.temporal_ops.specs.Operators.{edges_of, opposite_edge};
ghost use Rattle.temporal_ops.specs.Table.{table_row_of, takes_negative, HasRow};

use crate::{Edges, OpEdge, OpWord, table};
use fx_base::{Copies, Millis, NoMemory, Times};
use std::alloc::Global;
use std::marker::Model;

/// A temporal operator with its parameters, seen as its list of edges. There are at most 5, each joins a point
/// of the tested event A with a point of the bound event B, and each bound is at most 2^53 + 1 ms in size.
#[derive(Clone, Copy, Debug, PartialEq, Eq)]
pub struct Op {
    edges: Edges,
}

impl Model for Op {
    ghost use Rattle.std.specs.Prelude.{List};
    ghost use Rattle.temporal_ops.specs.declared.edge.OpEdge.{OpEdge};

    ghost Value = { List OpEdge };

    ghost use Rattle.std.specs.Prelude.{◌≤◌, length, take};
    ghost use Rattle.temporal_ops.specs.Edges.{IsOp};
    ghost use Rattle.temporal_ops.specs.Stored.{IsStored, stored, stored_again};

    ghost view = { λ op. take op.edges.count op.edges.items };

    ghost invariant = { λ op. IsStored op.edges };

    ghost inverse = { λ edges. record { edges = stored edges } };

    ghost inverse_ok = { λ op h i. record { edges = stored_again op.edges h i } };
}

impl Op {
    /// The operator of these edges.
    pub(crate) fn new(edges: &[OpEdge]) -> Op
        requires { IsOp edges.now }
        ensures { result ≡ edges.now }
    {
        let mut items = [OpEdge::BLANK; 5];
        items[..edges.len()].copy_from_slice(edges);
        Op {
            edges: Edges {
                items,
                count: edges.len(),
            },
        }
    }

    /// The operator with the two events exchanged.
    pub(crate) fn exchanged(&self) -> Op
        ensures { result ≡ map opposite_edge self.now }
    {
        let mut items = self.edges.items;
        for item in &mut items[..self.edges.count] {
            *item = item.exchanged();
        }
        Op::new(&items[..self.edges.count])
    }

    /// The operator of this word with these parameters, which are milliseconds; fewer or more than its row of the
    /// table has are refused, and so are numbers below 0 but for `after` and `before`. Takes no memory.
    #[tactic(auto, using(crate::proofs::Faults::row_rules))]
    pub fn of(word: OpWord, params: &[Millis]) -> Result<Op, OpFault>
        requires { All (IsWithin (2 ^ 53)) params.now }
        ensures edges { IfOk result (λ op. edges_of word params.now ≡ Some op) }
        ensures meaning { IfOk result (λ op. Means (Some op) (table_row_of word params.now)) }
        ensures param_count { (result ≡ Err OpFault.ParamCount) ↔ (¬ HasRow (table_row_of word params.now)) }
        ensures negative { (result ≡ Err OpFault.Negative)
            ↔ (HasRow (table_row_of word params.now) × (takes_negative word ≡ false) × Any (λ p. p <ℤ pos 0) params.now) }
    {
        match table::row(word, params) {
            None => Err(OpFault::ParamCount),
            Some(_) if !word.takes_negative() && has_negative(params) => Err(OpFault::Negative),
            Some(op) => Ok(op),
        }
    }

    /// Its edges. Takes no memory.
    pub fn edges(&self) -> Edges
        ensures items { take result.count result.items ≡ self.now }
        ensures count { result.count ≡ length self.now }
        ensures op { IsOp self.now }
    {
        self.edges
    }

    /// Its edges, in place.
    pub(crate) fn as_slice(&self) -> &[OpEdge]
        ensures edges { result.now ≡ self.now }
        ensures op { IsOp result.now }
    {
        &self.edges.items[..self.edges.count]
    }

    /// Whether it holds of the tested event `a` and the bound event `b`. Takes no memory.
    #[tactic(auto, unfolding(crate::specs::Edges::edges_hold))]
    pub fn holds(&self, a: Times, b: Times) -> bool
        ensures { result ≡ edges_hold self.now a b }
    {
        self.as_slice().iter().all(|edge| edge.holds(a, b))
    }
}

fn has_negative(params: &[Millis]) -> bool
    ensures { IsTrue result ↔ Any (λ param. param <ℤ pos 0) params.now }
{
    params.iter().any(|param| *param < 0)
}

/// Why a word with its parameters is no operator.
#[derive(Clone, Copy, Debug, PartialEq, Eq)]
pub enum OpFault {
    /// The word takes another number of parameters.
    ParamCount,
    /// A parameter is below 0, and the word is neither `after` nor `before`.
    Negative,
}

impl Copies for Op {
    /// Takes no memory.
    fn copy(&self, _alloc: Global) -> Result<Op, NoMemory>
        ensures { result ≡ Ok self.now }
    {
        Ok(*self)
    }
}
