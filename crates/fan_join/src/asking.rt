//! What the members answer that are asked of a turn.
ghost use Rattle.std.specs.Prelude.{◌≡◌, ℕ, None, Some, slice_get, IfOk, OnOk};
ghost use Rattle.std.specs.BTreeMap.{get};
ghost use Rattle.std.specs.Ordering.{nat_cmp};
ghost use Rattle.join_memory.specs.declared.candidates.Candidates.{Candidates as CandidatesData};
ghost use Rattle.fan_join.specs.Fans.{nothing};
ghost use Rattle.fan_join.specs.Reaching.{AreDifferences, AreKept, IsDifferencePut};
ghost use Rattle.fan_join.specs.Turns.{IsRowsDifference};

use crate::member::rows_difference;
use crate::row_turn::RowTurn;
use fx_base::{Facts, NoMemory};
use join_memory::Candidates;
use row_change::changes_nothing;
use row_delta::Delta;
use std::alloc::Global;
use std::collections::{BTreeMap, BTreeSet};

/// What changes in the rows of the members in these places, by the places; those in whose rows nothing does are left out.
pub(crate) fn differences<F: Facts>(
    alloc: Global,
    members: &[Candidates],
    places: &BTreeSet<usize, Global>,
    turn: &RowTurn,
    facts: &F,
) -> Result<BTreeMap<usize, Delta>, NoMemory>
    ensures { IfOk result (λ deltas. AreDifferences turn.now (F.map facts.now) members.now places.now.keys deltas) }
{
    let mut deltas = BTreeMap::new(alloc);
    for place in places {
        ask(&mut deltas, alloc, members, *place, turn, facts)?;
    }
    Ok(deltas)
}

/// Adds what changes in the rows of the member in a place, if it is there and something does.
fn ask<F: Facts>(
    deltas: &mut BTreeMap<usize, Delta>,
    alloc: Global,
    members: &[Candidates],
    place: usize,
    turn: &RowTurn,
    facts: &F,
) -> Result<(), NoMemory>
    ensures kept { OnOk result (AreKept turn.now (F.map facts.now) members.now deltas.old → AreKept turn.now (F.map facts.now) members.now deltas.new) }
    ensures stays { OnOk result ((k : ℕ) → get nat_cmp deltas.new k ≡ None → get nat_cmp deltas.old k ≡ None) }
    ensures unkept { OnOk result ((c : CandidatesData) → slice_get members.now place ≡ Some c → get nat_cmp deltas.new place ≡ None
        → IsRowsDifference turn.now (F.map facts.now) c nothing) }
{
    match members.get(place) {
        Some(member) => {
            let delta = rows_difference(member, alloc, turn, facts)?;
            put_change(deltas, place, delta)
        }
        None => Ok(()),
    }
}

/// Adds what has changed in a place, if something has.
fn put_change(
    deltas: &mut BTreeMap<usize, Delta>,
    place: usize,
    delta: Delta,
) -> Result<(), NoMemory>
    ensures { OnOk result (IsDifferencePut place delta deltas.old deltas.new) }
{
    if !changes_nothing(&delta) {
        deltas.insert(place, delta)?;
    }
    Ok(())
}
