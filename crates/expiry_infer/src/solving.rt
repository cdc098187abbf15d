ghost use Rattle.std.specs.Prelude.{◌≡◌, ◌<◌, length, slice_get, Some, IfOk, IfSome};
ghost use Rattle.std.specs.Bool.{Decides};
ghost use Rattle.temporal_net.specs.Networks.{IsWithinNetwork};
ghost use Rattle.rule_model.specs.declared.condition.Condition.{Condition as AnyCondition};
ghost use Rattle.life_meaning.specs.Networks.{AreSolvable};
ghost use Rattle.life_edges.specs.Edges.{edges_of_conditions, HaveNetwork};
ghost use Rattle.expiry_infer.specs.Found.{IsReachFound, IsSolved};
ghost use Rattle.expiry_infer.specs.Solvable.{can_match};
ghost use Rattle.life_edges.specs.Places.{placed};

use fx_base::{Bound, NoMemory};
use life_edges::{POINTS, end, network, start};
use rule_model::{Condition, Program};
use std::alloc::Global;
use temporal_net::{Minimal, Net, NetFault};

// The network of the conditions and of these places, where it has a solution.
#[tactic(auto, using(life_edges::proofs::Fitting::all_among, life_edges::proofs::Fitting::all_small))]
fn solved(
    alloc: Global,
    program: &Program,
    conditions: &[Condition],
    places: &[usize],
) -> Result<Option<Minimal>, NoMemory>
    requires { HaveNetwork conditions.now }
    ensures { IfOk result (IsSolved (edges_of_conditions program.now conditions.now places.now 0 conditions.now)) }
{
    let edges = network(alloc, program, conditions, places)?;
    match Net::solve(alloc, POINTS, &edges) {
        Ok(minimal) => Ok(Some(minimal)),
        Err(NetFault::NegativeCycle(_)) => Ok(None),
        Err(NetFault::NoMemory) => Err(NoMemory),
    }
}

/// Whether some events can be a match of the patterns that bind events, as far as their temporal tests say. A rule whose patterns
/// cannot never fires.
pub fn is_solvable(
    alloc: Global,
    program: &Program,
    conditions: &[Condition],
) -> Result<bool, NoMemory>
    requires { HaveNetwork conditions.now }
    ensures answer { IfOk result (λ answer. answer ≡ can_match program.now conditions.now) }
    ensures meaning { IfOk result (λ answer. Decides answer (AreSolvable program.now conditions.now)) }
{
    let found = solved(alloc, program, conditions, &[])?;
    Ok(found.is_some())
}

/// How far behind the end of an event of condition i one of condition j can start, in milliseconds: the greatest distance over all
/// solutions of the network of the conditions and of these two, at most 15 * (2^53 + 1) in size. Nothing where there is no solution.
pub(crate) fn reach(
    alloc: Global,
    program: &Program,
    conditions: &[Condition],
    i: usize,
    j: usize,
) -> Result<Option<Bound>, NoMemory>
    requires network { HaveNetwork conditions.now }
    requires i { i < length conditions.now }
    requires j { j < length conditions.now }
    ensures size { IfOk result (λ found. IfSome found IsWithinNetwork) }
    ensures reach { (first second : AnyCondition) → slice_get conditions.now i ≡ Some first → slice_get conditions.now j ≡ Some second
        → IfOk result (IsReachFound program.now conditions.now (placed i first) (placed j second)) }
{
    match solved(alloc, program, conditions, &[i, j])? {
        Some(minimal) => Ok(Some(minimal.bound(start(j), end(i)))),
        None => Ok(None),
    }
}
