//! What of a program is as in every accepted rule file: names that are apart, and patterns of types and entry points that are there.
ghost use Rattle.std.specs.Prelude.{◌≡◌, ◌≤◌, ◌^◌, length, option_map, false, IsTrue};
ghost use Rattle.change_resolve.specs.Changes.{type_named};
ghost use Rattle.rule_change.specs.Alike.{HaveNames, HavePlaces};
ghost use Rattle.change_rules.specs.Checked.{AreFirstEntries, AreFirstTypes, HasPlacesIn, HaveConditionPlaces};

use crate::places::{declared_entry, declared_type};
use fx_base::{Text, TypeId};
use rule_model::{Condition, EntryInfo, Program, Rule, TypeInfo};

// The place of the first type of a name.
fn first_type(types: &[TypeInfo], name: &Text) -> Option<TypeId>
    requires { length types.now ≤ 2 ^ 16 }
    ensures { option_map (λ ty. ty.0) result ≡ option_map (λ there. there.0) (type_named name.now types.now 0) }
{
    match declared_type(types, name) {
        Some((there, _)) => Some(there),
        None => None,
    }
}

// Whether each type is the first of its name.
fn are_first_types(types: &[TypeInfo]) -> bool
    requires { length types.now ≤ 2 ^ 16 }
    ensures first { IsTrue result → AreFirstTypes types.now }
    ensures none { result ≡ false → AreFirstTypes types.now → ⊥ }
{
    for place in 0..types.len() {
        match first_type(types, &types[place].name) {
            Some(there) if usize::from(there.0) == place => {}
            _ => return false,
        }
    }
    true
}

// Whether each entry point is the first of its name.
fn are_first_entries(entries: &[EntryInfo]) -> bool
    requires { length entries.now ≤ 2 ^ 16 }
    ensures first { IsTrue result → AreFirstEntries entries.now }
    ensures none { result ≡ false → AreFirstEntries entries.now → ⊥ }
{
    for place in 0..entries.len() {
        match declared_entry(entries, &entries[place].name) {
            Some(there) if usize::from(there.0) == place => {}
            _ => return false,
        }
    }
    true
}

/// Whether no two types and no two entry points have one name. It compares each with those before it. Takes no memory.
pub fn have_names(program: &Program) -> bool
    requires types { length program.now.types ≤ 2 ^ 16 }
    requires entries { length program.now.entries ≤ 2 ^ 16 }
    ensures names { IsTrue result → HaveNames program.now }
    ensures none { result ≡ false → HaveNames program.now → ⊥ }
{
    are_first_types(program.types.as_slice()) && are_first_entries(program.entries.as_slice())
}

fn has_places(types: usize, entries: usize, condition: &Condition) -> bool
    ensures places { IsTrue result → HasPlacesIn types entries condition.now }
    ensures none { result ≡ false → HasPlacesIn types entries condition.now → ⊥ }
{
    let pattern = condition.pattern();
    usize::from(pattern.ty.0) < types && usize::from(pattern.entry.0) < entries
}

fn rule_has_places(types: usize, entries: usize, rule: &Rule) -> bool
    ensures places { IsTrue result → HaveConditionPlaces types entries rule.now.conditions }
    ensures none { result ≡ false → HaveConditionPlaces types entries rule.now.conditions → ⊥ }
{
    let conditions = rule.conditions.as_slice();
    for place in 0..conditions.len() {
        if !has_places(types, entries, &conditions[place]) {
            return false;
        }
    }
    true
}

/// Whether each pattern names a type and an entry point that are there. Takes no memory.
pub fn have_places(program: &Program) -> bool
    ensures places { IsTrue result → HavePlaces program.now }
    ensures none { result ≡ false → HavePlaces program.now → ⊥ }
{
    let types = program.types.as_slice().len();
    let entries = program.entries.as_slice().len();
    let rules = program.rules.as_slice();
    for place in 0..rules.len() {
        if !rule_has_places(types, entries, &rules[place]) {
            return false;
        }
    }
    true
}
