//! What changes in the rows of one member.
ghost use Rattle.std.specs.Prelude.{◌≡◌, ◌&&◌, ◌||◌, true, is_some, Bool, IfOk, OnOk};
ghost use Rattle.fx_base.specs.declared.value.Value.{Value};
ghost use Rattle.fx_base.specs.Values.{same_value};
ghost use Rattle.row_delta.specs.declared.row.Named.{Named as NamedData};
ghost use Rattle.row_delta.specs.declared.row.Row.{Row};
ghost use Rattle.row_delta.specs.NameOrder.{name_cmp};
ghost use Rattle.alpha_memory.specs.JoinIndex.{at};
ghost use Rattle.join_tests.specs.Kept.{candidate_value};
ghost use Rattle.join_memory.specs.Joined.{has_name};
ghost use Rattle.row_change.specs.declared.change.Change.{Change as ChangeData};
ghost use Rattle.row_change.specs.Changes.{IsDifference, LeadsRows};
ghost use Rattle.fan_join.specs.Turns.{AreNamesTurned, IsRowsDifference};

use crate::row_turn::RowTurn;
use fx_base::{Facts, NoMemory};
use join_memory::{Candidates, LeftRows};
use row_change::Change;
use row_delta::{Delta, Named};
use std::alloc::Global;

/// The rows that left rows make with a member's candidates go and come with them. It costs for each left row a hash, and a test of each
/// candidate with a join value that is sought for it.
pub(crate) fn rows_difference<F: Facts>(
    member: &Candidates,
    alloc: Global,
    turn: &RowTurn,
    facts: &F,
) -> Result<Delta, NoMemory>
    ensures { IfOk result (λ delta. IsRowsDifference turn.now (F.map facts.now) member.now delta) }
{
    let mut change = Change::none(alloc);
    let rows_gone = member.with_rows(alloc, turn.went.as_slice(), facts)?;
    change.leave(alloc, rows_gone)?;
    let rows_come = member.with_rows(alloc, turn.came.as_slice(), facts)?;
    change.arrive(alloc, rows_come)?;
    let delta = change.delta(alloc)?;
    Ok(delta)
}

/// Candidates of a member leave and then come, and with them the rows that they make with the left rows, behind what has changed in
/// its rows so far. It costs for each candidate a hash, and a test of each left row with a join value that is sought for it.
pub(crate) fn names_turned<F: Facts>(
    member: &mut Candidates,
    alloc: Global,
    left: &LeftRows,
    so_far: Delta,
    gone: &[Named],
    come: &[Named],
    facts: &F,
) -> Result<Delta, NoMemory>
    ensures turned { IfOk result (λ delta. AreNamesTurned left.now (F.map facts.now) gone.now come.now so_far member.old member.new delta) }
    ensures under { OnOk result ((value : Value) (who : NamedData) → is_some (at same_value name_cmp member.new.names value who) ≡ true
        → (is_some (at same_value name_cmp member.old.names value who) || (has_name come.now who && same_value (candidate_value member.new.pattern (F.map facts.now) who) value)) ≡ true) }
{
    let mut change = begun(alloc, so_far)?;
    let rows_gone = member.leave(alloc, left, gone, facts)?;
    change.leave(alloc, rows_gone)?;
    let rows_come = member.come(alloc, left, come, facts)?;
    change.arrive(alloc, rows_come)?;
    let delta = change.delta(alloc)?;
    Ok(delta)
}

/// A change that has come as far as a difference.
fn begun(alloc: Global, so_far: Delta) -> Result<Change, NoMemory>
    ensures { IfOk result (λ change. (old now : Row → Bool) → IsDifference old now so_far → LeadsRows old now change.gone.keys change.come.keys) }
{
    let mut change = Change::none(alloc);
    change.leave(alloc, so_far.gone.into_vec())?;
    change.arrive(alloc, so_far.come.into_vec())?;
    Ok(change)
}
