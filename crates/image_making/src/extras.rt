//! What conditions count of forgotten facts, under the new rules.
ghost use Rattle.std.specs.Prelude.{◌≡◌, ◌↔◌, ◌+◌, ◌≤◌, ◌^◌, map as list_map, length, IsTrue, IfOk, OnOk};
ghost use Rattle.std.specs.List.Sorted.{IsStrictlySortedBy};
ghost use Rattle.fx_base.specs.Lists.{In};
ghost use Rattle.row_delta.specs.declared.extra.Extra.{Extra as ExtraData};
ghost use Rattle.laden_rows.specs.Extras.{extra_cmp};
ghost use Rattle.laden_rows.specs.Placed.{IsPlaced};
ghost use Rattle.image_making.specs.Moved.{Begins, IsFirstMoved, IsMoved, IsNewPlace, IsPut, MovesApart, extra_in};

use change_rules::are_moved_conditions;
use fx_base::{NoMemory, RuleId, Seq};
use row_delta::{Extra, Row};
use rule_model::{Condition, Program};
use std::alloc::Global;
use std::collections::BTreeMap;

// Where something is counted: the rule, its condition, and the row.
type Place = (RuleId, (u8, Row));

// How many facts are counted there, and what is gathered of them.
type Beyond = (u64, Seq<i64>);

// Whether so many first conditions of a new rule are those of an old one.
fn begins(
    alloc: Global,
    old: &Program,
    new: &Program,
    many: usize,
    ours: &[Condition],
    theirs: &[Condition],
) -> Result<bool, NoMemory>
    requires types { length new.now.types ≤ 2 ^ 16 }
    requires entries { length new.now.entries ≤ 2 ^ 16 }
    ensures { IfOk result (λ yes. IsTrue yes ↔ Begins old.now new.now many ours.now theirs.now) }
{
    let ours = &ours[..many.min(ours.len())];
    let theirs = &theirs[..many.min(theirs.len())];
    are_moved_conditions(alloc, old, new, ours, theirs)
}

// The first new rule of which so many first conditions are those of an old one.
fn first_moved(
    alloc: Global,
    old: &Program,
    new: &Program,
    many: usize,
    ours: &[Condition],
) -> Result<Option<RuleId>, NoMemory>
    requires types { length new.now.types ≤ 2 ^ 16 }
    requires entries { length new.now.entries ≤ 2 ^ 16 }
    requires rules { length new.now.rules ≤ 2 ^ 16 }
    ensures { IfOk result (λ place. IsFirstMoved old.now new.now many ours.now place) }
{
    let rules = new.rules.as_slice();
    for place in 0..rules.len() {
        if begins(
            alloc,
            old,
            new,
            many,
            ours,
            rules[place].conditions.as_slice(),
        )? {
            return Ok(Some(RuleId(place as u16)));
        }
    }
    Ok(None)
}

// The new rule under which an extra goes on.
fn new_place(
    alloc: Global,
    old: &Program,
    new: &Program,
    extra: &Extra,
) -> Result<Option<RuleId>, NoMemory>
    requires types { length new.now.types ≤ 2 ^ 16 }
    requires entries { length new.now.entries ≤ 2 ^ 16 }
    requires rules { length new.now.rules ≤ 2 ^ 16 }
    ensures { IfOk result (λ place. IsNewPlace old.now new.now extra.now place) }
{
    match old.rules.as_slice().get(extra.rule.0 as usize) {
        Some(rule) => {
            let many = extra.condition as usize + 1;
            first_moved(alloc, old, new, many, rule.conditions.as_slice())
        }
        None => Ok(None),
    }
}

// Puts an extra where it goes on, if it does.
fn put_moved(
    alloc: Global,
    old: &Program,
    new: &Program,
    moved: &mut BTreeMap<Place, Beyond>,
    extra: Extra,
) -> Result<(), NoMemory>
    requires types { length new.now.types ≤ 2 ^ 16 }
    requires entries { length new.now.entries ≤ 2 ^ 16 }
    requires rules { length new.now.rules ≤ 2 ^ 16 }
    ensures { OnOk result (IsPut old.now new.now extra moved.old moved.new) }
{
    if let Some(rule) = new_place(alloc, old, new, &extra)? {
        let Extra {
            condition,
            row,
            count,
            values,
            ..
        } = extra;
        moved.insert((rule, (condition, row)), (count, values))?;
    }
    Ok(())
}

// What stands in the map, in its order.
fn listed(alloc: Global, moved: BTreeMap<Place, Beyond>) -> Result<Vec<Extra>, NoMemory>
    ensures in_order { IfOk result (λ extras. IsStrictlySortedBy extra_cmp extras.items) }
    ensures listed { IfOk result (λ extras. (e : ExtraData) → In e extras.items ↔ extra_in moved e) }
{
    let entries: Vec<(Place, Beyond)> = moved.into_iter().collect(alloc)?;
    let mut extras = Vec::with_capacity(alloc, entries.len())?;
    for entry in entries {
        let ((rule, (condition, row)), (count, values)) = entry;
        extras.push(Extra {
            rule,
            condition,
            row,
            count,
            values,
        })?;
    }
    Ok(extras)
}

/// What is counted of forgotten facts, each under the first of the new rules that begins as the old one, in order; what none begins as goes. For each it
/// compares the conditions up to its own with those of the new rules, and it costs the logarithm of their number.
pub(crate) fn moved_extras(
    alloc: Global,
    old: &Program,
    new: &Program,
    extras: Vec<Extra>,
) -> Result<Vec<Extra>, NoMemory>
    requires types { length new.now.types ≤ 2 ^ 16 }
    requires entries { length new.now.entries ≤ 2 ^ 16 }
    requires rules { length new.now.rules ≤ 2 ^ 16 }
    requires apart { MovesApart old.now new.now }
    requires placed { (e : ExtraData) → In e extras.items → IsPlaced old.now e }
    requires in_order { IsStrictlySortedBy extra_cmp extras.items }
    ensures in_order { IfOk result (λ moved. IsStrictlySortedBy extra_cmp moved.items) }
    ensures moved { IfOk result (λ moved. (e : ExtraData) → In e moved.items ↔ IsMoved old.now new.now extras.items e) }
{
    let mut moved = BTreeMap::new(alloc);
    for extra in extras {
        put_moved(alloc, old, new, &mut moved, extra)?;
    }
    listed(alloc, moved)
}
