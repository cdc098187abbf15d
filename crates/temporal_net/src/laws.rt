//! Laws of networks. The functions do nothing.
ghost use Rattle.std.specs.Prelude.{ℕ, ℤ, ◌≤◌, List};
ghost use Rattle.std.specs.Bool.{Decides};
ghost use Rattle.std.specs.List.{All};
ghost use Rattle.temporal_net.specs.Networks.{HasItsPoints, IsNegativeCycle, IsSolvable, SolvesEdges};
ghost use Rattle.temporal_net.specs.Potentials.{is_solvable};

use crate::NetEdge;

/// A negative cycle leaves a network no solution.
pub fn negative_cycle_has_no_solution()
    ensures { (edges : List NetEdge) (cycle : List ℕ) → IsNegativeCycle edges cycle → (v : ℕ → ℤ) → SolvesEdges edges v → ⊥ }
{}

/// A network of at most 16 points has a solution exactly where its potentials after 16 rounds are one.
pub fn solvability_is_decided()
    ensures { (points : ℕ) (edges : List NetEdge) → points ≤ 16 → All (HasItsPoints points) edges → Decides (is_solvable edges) (IsSolvable edges) }
{}
