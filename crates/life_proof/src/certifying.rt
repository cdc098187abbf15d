//! Makes certificates by a solver of networks.
ghost use Rattle.std.specs.Prelude.{◌≡◌, ◌<◌, length, map, IfOk};
ghost use Rattle.std.specs.List.{All};
ghost use Rattle.temporal_net.specs.Networks.{edge_at, IsShortestPath, IsUnboundedDifference};
ghost use Rattle.rule_world.specs.Programs.{IsRunnable};
ghost use Rattle.life_meaning.specs.Tables.{AreLives};
ghost use Rattle.life_edges.specs.Edges.{start_point_of, end_of, HaveNetwork};
ghost use Rattle.life_proof.specs.Asked.{IsReachAsked};
ghost use Rattle.life_proof.specs.Good.{edges_for, AreGoodParts, IsGood, IsGoodPart};
ghost use Rattle.life_proof.specs.Solved.{IsSolvedPart};

use crate::asking::{asked, scope_of};
use crate::part::{Asked, Part, Proof};
use fx_base::{Bound, NoMemory, RuleId, Seq};
use life_edges::{POINTS, edges_between, end, start};
use rule_model::{Condition, LifeTable, Program};
use std::alloc::Global;
use temporal_net::{Minimal, Net, NetEdge, NetFault};

// The edges with these numbers.
fn numbered(alloc: Global, edges: &[NetEdge], numbers: &[usize]) -> Result<Vec<NetEdge>, NoMemory>
    requires { All (λ number. number < length edges.now) numbers.now }
    ensures { IfOk result (λ way. way.items ≡ map (edge_at edges.now) numbers.now) }
{
    let mut way = Vec::with_capacity(alloc, numbers.len())?;
    for number in numbers {
        way.push(edges[*number])?;
    }
    Ok(way)
}

// The part of what is asked, with these edges.
fn part(asked: &Asked, cycle: bool, edges: Vec<NetEdge>) -> Part
    requires rule { asked.now.rule < 256 }
    requires from { asked.now.from < 8 }
    requires to { asked.now.to < 8 }
    ensures rule { result.rule.0 ≡ asked.now.rule }
    ensures from { result.from ≡ asked.now.from }
    ensures to { result.to ≡ asked.now.to }
    ensures cycle { result.cycle ≡ cycle }
    ensures edges { result.edges ≡ edges.items }
{
    Part {
        rule: RuleId(asked.rule as u16),
        from: asked.from as u8,
        to: asked.to as u8,
        cycle,
        edges: Seq::from_vec(edges),
    }
}

// The path that bounds what is asked in a solved network.
fn path_of(alloc: Global, asked: &Asked, minimal: &Minimal) -> Result<Vec<NetEdge>, NoMemory>
    requires points { minimal.now.points ≡ 16 }
    requires from { asked.now.from < 8 }
    requires to { asked.now.to < 8 }
    requires bounded { IsUnboundedDifference minimal.now.edges (start_point_of asked.now.to) (end_of asked.now.from) → ⊥ }
    ensures { IfOk result (λ path. IsShortestPath minimal.now.edges (start_point_of asked.now.to) (end_of asked.now.from) path.items) }
{
    let (from, to) = (start(asked.to), end(asked.from));
    match minimal.bound(from, to) {
        Bound::Finite(_) => minimal.path(alloc, from, to),
        Bound::Infinite => unreachable!(),
    }
}

// The part of what is asked, among the conditions that matter: a path where their network has a solution, and else a cycle.
#[tactic(auto, using(life_edges::proofs::Fitting::all_among, life_edges::proofs::Fitting::all_small))]
fn part_among(
    alloc: Global,
    program: &Program,
    conditions: &[Condition],
    asked: &Asked,
) -> Result<Part, NoMemory>
    requires network { HaveNetwork conditions.now }
    requires rule { asked.now.rule < 256 }
    requires from { asked.now.from < 8 }
    requires to { asked.now.to < 8 }
    requires bounded { IsUnboundedDifference (edges_for program.now conditions.now asked.now.from asked.now.to) (start_point_of asked.now.to) (end_of asked.now.from) → ⊥ }
    ensures { IfOk result (IsSolvedPart program.now conditions.now asked.now) }
{
    let edges = edges_between(alloc, program, conditions, asked.from, asked.to)?;
    match Net::solve(alloc, POINTS, &edges) {
        Ok(minimal) => Ok(part(asked, false, path_of(alloc, asked, &minimal)?)),
        Err(NetFault::NegativeCycle(numbers)) => {
            Ok(part(asked, true, numbered(alloc, &edges, numbers.as_slice())?))
        }
        Err(NetFault::NoMemory) => Err(NoMemory),
    }
}

// The part of what is asked.
fn part_of(
    alloc: Global,
    program: &Program,
    lives: &LifeTable,
    asked: &Asked,
) -> Result<Part, NoMemory>
    requires runnable { IsRunnable program.now }
    requires lives { AreLives program.now lives.now }
    requires asked { IsReachAsked program.now lives.now asked.now }
    ensures { IfOk result (IsGoodPart program.now asked.now) }
{
    part_among(alloc, program, scope_of(program, asked), asked)
}

// The parts of all that is asked.
fn parts_of(
    alloc: Global,
    program: &Program,
    lives: &LifeTable,
    asked: &[Asked],
) -> Result<Vec<Part>, NoMemory>
    requires runnable { IsRunnable program.now }
    requires lives { AreLives program.now lives.now }
    requires asked { All (IsReachAsked program.now lives.now) asked.now }
    ensures { IfOk result (λ parts. AreGoodParts program.now asked.now parts.items) }
{
    let mut parts = Vec::with_capacity(alloc, asked.len())?;
    for one in asked {
        let part = part_of(alloc, program, lives, one)?;
        parts.push(part)?;
    }
    Ok(parts)
}

/// Certificates of the finite lives of a program's table of lives (`expiry_infer::lives`).
pub fn certify(alloc: Global, program: &Program, lives: &LifeTable) -> Result<Proof, NoMemory>
    requires runnable { IsRunnable program.now }
    requires lives { AreLives program.now lives.now }
    ensures { IfOk result (IsGood program.now lives.now) }
{
    let asked = asked(alloc, program, lives)?;
    let parts = parts_of(alloc, program, lives, &asked)?;
    Ok(Proof {
        parts: Seq::from_vec(parts),
    })
}
