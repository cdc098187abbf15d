ghost use Rattle.std.specs.Prelude.{◌≡◌, ◌≢◌, ◌<◌, length, IfOk};
ghost use Rattle.temporal_net.specs.Networks.{HasGreatest, IsBound, IsShortestPath, IsWithinNetwork};
ghost use Rattle.temporal_net.specs.Tables.{AreTable};

use crate::NetEdge;
use crate::table::{self, Row};
use fx_base::{Bound, NoMemory};
use std::alloc::Global;
use std::marker::Model;

/// A network that was solved: its distance graph's shortest paths (Dechter, Meiri, Pearl 1991).
#[derive(Debug, Drop)]
pub struct Minimal {
    edges: Vec<NetEdge>,
    rows: Vec<Row>,
}

impl Model for Minimal {
    ghost use Rattle.std.specs.Prelude.{length};
    ghost use Rattle.temporal_net.specs.Networks.{Network};
    ghost use Rattle.temporal_net.specs.Tables.{AreTable};

    ghost Value = { Network };

    ghost view = { λ m. record { points = length m.rows.items; edges = m.edges.items } };

    ghost invariant = { λ m. AreTable (length m.rows.items) m.edges.items m.rows.items };
}

impl Minimal {
    pub(crate) fn new(edges: Vec<NetEdge>, rows: Vec<Row>) -> Minimal
        requires { AreTable (length rows.items) edges.items rows.items }
        ensures { result ≡ record { points = length rows.items; edges = edges.items } }
    {
        Minimal { edges, rows }
    }

    /// The greatest `value(x) - value(y)` over all solutions; `Infinite` exactly where there is no greatest.
    /// Takes no memory.
    pub fn bound(&self, x: u8, y: u8) -> Bound
        requires x { x < self.now.points }
        requires y { y < self.now.points }
        ensures greatest { IsBound self.now.edges x y result }
        ensures within { IsWithinNetwork result }
    {
        match self.rows[x as usize][y as usize] {
            Some(distance) => Bound::Finite(distance.sum),
            None => Bound::Infinite,
        }
    }

    /// Edges of the network that lead from x to y, whose sum is the bound, of the fewest such: adding them up
    /// shows the bound. Of several it is the one whose list of edge numbers is the first in order.
    pub fn path(&self, alloc: Global, x: u8, y: u8) -> Result<Vec<NetEdge>, NoMemory>
        requires x { x < self.now.points }
        requires y { y < self.now.points }
        requires apart { x ≢ y }
        requires finite { HasGreatest self.now.edges x y }
        ensures { IfOk result (λ path. IsShortestPath self.now.edges x y path.items) }
    {
        let numbers = table::way(alloc, &self.edges, &self.rows, x as usize, y as usize)?;
        table::edges_at(alloc, &self.edges, &numbers)
    }
}
