//! Whether other rules are taken over a world, or why they are not.
ghost use Rattle.std.specs.Prelude.{◌≡◌, ◌↔◌, ◌≤◌, ◌^◌, length, IsTrue, IfNone, IfOk};
ghost use Rattle.rule_world.specs.Worlds.{World};
ghost use Rattle.rule_change.specs.Refused.{HaveEntries, HaveTypes, IsVerdict, NonePending};
ghost use Rattle.change_rules.specs.Judged.{IsRefusedForLives};
ghost use Rattle.change_rules.specs.Staying.{place_in};

use crate::counted::first_counted_anew;
use crate::ground::{have_entries, have_types};
use crate::lives::longer_type;
use fx_base::NoMemory;
use rule_change::ChangeCode;
use rule_model::{LifeTable, Program};
use std::alloc::Global;

// Why other rules are refused for what they need of the past.
fn refused_lives(
    alloc: Global,
    old: &Program,
    new: &Program,
    places: &[Option<usize>],
    table: &LifeTable,
    own: &LifeTable,
) -> Result<Option<ChangeCode>, NoMemory>
    requires types { length old.now.types ≤ 2 ^ 16 }
    requires other_types { length new.now.types ≤ 2 ^ 16 }
    ensures { IfOk result (λ code. IsRefusedForLives old.now new.now (place_in places.now) table.now own.now code) }
{
    match longer_type(alloc, old, new, table, own)? {
        Some(ty) => Ok(Some(ChangeCode::Longer(ty))),
        None => Ok(first_counted_anew(old, new, places, table).map(ChangeCode::Forgotten)),
    }
}

/// Why other rules are refused over a world, or nothing where they are taken. `places` has the old rules that stay, `table` the lives by which events were
/// forgotten, `own` those of the new rules, and `none_pending` says whether no rule that is gone has a pending match. It looks each type up by its name.
pub fn verdict(
    alloc: Global,
    old: &Program,
    new: &Program,
    places: &[Option<usize>],
    table: &LifeTable,
    own: &LifeTable,
    none_pending: bool,
) -> Result<Option<ChangeCode>, NoMemory>
    requires types { length old.now.types ≤ 2 ^ 16 }
    requires other_types { length new.now.types ≤ 2 ^ 16 }
    requires other_entries { length new.now.entries ≤ 2 ^ 16 }
    ensures ground { IfOk result (λ code. IfNone code (HaveTypes old.now new.now × HaveEntries old.now new.now)) }
    ensures verdict { IfOk result (λ code. (w : World) → (IsTrue none_pending ↔ NonePending old.now (place_in places.now) w)
        → IsVerdict old.now new.now (place_in places.now) table.now own.now w code) }
{
    if !have_types(old, new) {
        return Ok(Some(ChangeCode::OtherTypes));
    }
    if !have_entries(old, new) {
        return Ok(Some(ChangeCode::OtherEntries));
    }
    if !none_pending {
        return Ok(Some(ChangeCode::Pending));
    }
    refused_lives(alloc, old, new, places, table, own)
}
