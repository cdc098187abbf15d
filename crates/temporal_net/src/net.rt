ghost use Rattle.std.specs.Prelude.{◌≡◌, ◌<◌, ◌≤◌, length, IfErr, IfOk, OnOk, true};
ghost use Rattle.std.specs.List.{All};
ghost use Rattle.temporal_net.specs.Faults.{TellsNetFault};
ghost use Rattle.temporal_net.specs.Networks.{HasItsPoints, IsNegativeCycle, IsSmallEdge, IsSolvable};
ghost use Rattle.temporal_net.specs.Tables.{AreTable, HaveWays, loses_over};

use crate::table::{self, Row};
use crate::{Minimal, NetEdge};
use fx_base::{NoMemory, Seq};
use std::alloc::{AllocError, Global};

/// Networks of difference constraints.
pub struct Net;

/// Why a network was not solved.
#[derive(Debug, PartialEq, Drop)]
pub enum NetFault {
    /// No numbers meet all edges: those with these numbers, counted from 0, lead round to where they begin, and
    /// their sum is negative.
    NegativeCycle(Seq<usize>),
    NoMemory,
}

impl From<NoMemory> for NetFault {
    ghost use Rattle.temporal_net.specs.declared.net.NetFault.TheVariants.{NoMemory as OutOfMemory};

    ghost from_gives = { λ _ fault. fault ≡ OutOfMemory };

    fn from(_: NoMemory) -> Self {
        NetFault::NoMemory
    }
}

impl From<AllocError> for NetFault {
    ghost use Rattle.temporal_net.specs.declared.net.NetFault.TheVariants.{NoMemory as OutOfMemory};

    ghost from_gives = { λ _ fault. fault ≡ OutOfMemory };

    fn from(_: AllocError) -> Self {
        NetFault::NoMemory
    }
}

impl Net {
    /// Solves a network of at most 16 points by the Floyd-Warshall algorithm on its distance graph (Dechter,
    /// Meiri, Pearl 1991). It answers `NegativeCycle` exactly where there is no solution, and else `NoMemory` alone.
    pub fn solve(alloc: Global, points: u8, edges: &[NetEdge]) -> Result<Minimal, NetFault>
        requires few { points ≤ 16 }
        requires among { All (HasItsPoints points) edges.now }
        requires small { All IsSmallEdge edges.now }
        ensures network { IfOk result (λ minimal. minimal ≡ record { points = points; edges = edges.now }) }
        ensures solvable { OnOk result (IsSolvable edges.now) }
        ensures fault { IfErr result (TellsNetFault edges.now) }
    {
        let mut rows = direct_rows(alloc, points, edges)?;
        for via in 0..rows.len() {
            if let Some(point) = table::losing_point(&rows, via) {
                return Err(NetFault::NegativeCycle(round_trip(alloc, edges, &rows, point, via)?));
            }
            table::lower_over(&mut rows, via);
        }
        Ok(Minimal::new(Vec::from_slice(alloc, edges)?, rows))
    }
}

/// The table of the edges alone.
fn direct_rows(alloc: Global, points: u8, edges: &[NetEdge]) -> Result<Vec<Row>, NetFault>
    requires few { points ≤ 16 }
    requires among { All (HasItsPoints points) edges.now }
    requires small { All IsSmallEdge edges.now }
    ensures tall { IfOk result (λ rows. length rows.items ≡ points) }
    ensures table { IfOk result (λ rows. AreTable 0 edges.now rows.items) }
    ensures fault { IfErr result (TellsNetFault edges.now) }
{
    let mut rows = table::bare_rows(alloc, points)?;
    for (number, edge) in edges.iter().enumerate() {
        if edge.x == edge.y && edge.most < 0 {
            return Err(NetFault::NegativeCycle(Seq::from_vec(Vec::from_slice(alloc, &[number])?)));
        }
        table::add_edge(&mut rows, edges, number);
    }
    Ok(rows)
}

/// The edges of the way from `point` to `via` and back.
fn round_trip(
    alloc: Global,
    edges: &[NetEdge],
    rows: &[Row],
    point: usize,
    via: usize,
) -> Result<Seq<usize>, NoMemory>
    requires ways { HaveWays edges.now rows.now }
    requires point { point < length rows.now }
    requires via { via < length rows.now }
    requires loses { loses_over rows.now via point ≡ true }
    ensures { IfOk result (λ cycle. IsNegativeCycle edges.now cycle) }
{
    let mut cycle = table::way(alloc, edges, rows, point, via)?;
    cycle.extend_from_slice(&table::way(alloc, edges, rows, via, point)?)?;
    Ok(Seq::from_vec(cycle))
}
