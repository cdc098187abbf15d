//! Which rules stay.
ghost use Rattle.std.specs.Prelude.{◌≡◌, ◌≤◌, ◌^◌, length, IfOk};
ghost use Rattle.std.specs.List.{list_any};
ghost use Rattle.rule_change.specs.Changed.{AreFrom};
ghost use Rattle.rule_change.specs.Told.{is_place};
ghost use Rattle.change_rules.specs.Staying.{IsFirstFree, place_in};

use crate::moved::is_moved_rule;
use fx_base::NoMemory;
use rule_model::{Program, Rule};
use std::alloc::Global;

/// Whether an old rule stays as one of these. Takes no memory.
pub fn is_taken(places: &[Option<usize>], old: usize) -> bool
    ensures { result ≡ list_any (is_place old) places.now }
{
    for place in places {
        if *place == Some(old) {
            return true;
        }
    }
    false
}

// The first old rule that is the new one and was not taken.
fn first_free(
    alloc: Global,
    old: &Program,
    new: &Program,
    rule: &Rule,
    places: &[Option<usize>],
) -> Result<Option<usize>, NoMemory>
    requires types { length new.now.types ≤ 2 ^ 16 }
    requires entries { length new.now.entries ≤ 2 ^ 16 }
    ensures { IfOk result (λ found. IsFirstFree old.now new.now rule.now places.now found) }
{
    let rules = old.rules.as_slice();
    for place in 0..rules.len() {
        if is_moved_rule(alloc, old, new, &rules[place], rule)? && !is_taken(places, place) {
            return Ok(Some(place));
        }
    }
    Ok(None)
}

/// For each new rule the place of the old one that stays as it. It compares the name of each new rule with those of all old ones, and rules of the same
/// name and salience whole.
pub fn staying_rules(
    alloc: Global,
    old: &Program,
    new: &Program,
) -> Result<Vec<Option<usize>>, NoMemory>
    requires types { length new.now.types ≤ 2 ^ 16 }
    requires entries { length new.now.entries ≤ 2 ^ 16 }
    ensures many { IfOk result (λ places. length places.items ≡ length new.now.rules) }
    ensures from { IfOk result (λ places. AreFrom old.now new.now (place_in places.items)) }
{
    let mut places = Vec::new(alloc);
    for rule in new.rules.as_slice() {
        let place = first_free(alloc, old, new, rule, &places)?;
        places.push(place)?;
    }
    Ok(places)
}
