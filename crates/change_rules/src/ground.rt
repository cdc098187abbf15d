//! Whether other rules keep the types and the entry points.
ghost use Rattle.std.specs.Prelude.{◌≡◌, ◌↔◌, ◌≤◌, ◌^◌, length, IsTrue};
ghost use Rattle.rule_change.specs.Refused.{IsSameType, HaveTypes, HaveEntries};
ghost use Rattle.change_rules.specs.Judged.{HasType, HasEntry};

use crate::places::{entry_there, type_there};
use fx_base::{Kind, Text};
use rule_model::{EntryInfo, Program, TypeInfo};

// Whether two fields are the same.
fn is_same_field(ours: &(Text, Kind), theirs: &(Text, Kind)) -> bool
    ensures { IsTrue result ↔ (ours.now ≡ theirs.now) }
{
    ours.0 == theirs.0 && ours.1 == theirs.1
}

// Whether two lists have the same fields.
fn are_same_fields(ours: &[(Text, Kind)], theirs: &[(Text, Kind)]) -> bool
    ensures { IsTrue result ↔ (ours.now ≡ theirs.now) }
{
    if ours.len() != theirs.len() {
        return false;
    }
    for place in 0..ours.len() {
        if !is_same_field(&ours[place], &theirs[place]) {
            return false;
        }
    }
    true
}

// Whether facts of two types have the same fields.
fn has_same_fields(ours: &TypeInfo, theirs: &TypeInfo) -> bool
    ensures { IsTrue result ↔ ((ours.now.fields ≡ theirs.now.fields) × (ours.now.timestamp ≡ theirs.now.timestamp)
        × (ours.now.duration ≡ theirs.now.duration)) }
{
    are_same_fields(ours.fields.as_slice(), theirs.fields.as_slice())
        && ours.timestamp == theirs.timestamp
        && ours.duration == theirs.duration
}

// Whether two types have the same name and the same role.
fn has_same_role(ours: &TypeInfo, theirs: &TypeInfo) -> bool
    ensures { IsTrue result ↔ ((ours.now.name ≡ theirs.now.name) × (ours.now.event ≡ theirs.now.event) × (ours.now.reference ≡ theirs.now.reference)
        × (ours.now.expires ≡ theirs.now.expires)) }
{
    ours.name == theirs.name
        && ours.event == theirs.event
        && ours.reference == theirs.reference
        && ours.expires == theirs.expires
}

// Whether two types are the same, but for whether they are observed.
fn is_same_type(ours: &TypeInfo, theirs: &TypeInfo) -> bool
    ensures { IsTrue result ↔ IsSameType ours.now theirs.now }
{
    has_same_role(ours, theirs) && has_same_fields(ours, theirs)
}

// Whether a type, which has this place, is there still.
fn has_type(old: &Program, new: &Program, place: usize, ty: &TypeInfo) -> bool
    requires { length new.now.types ≤ 2 ^ 16 }
    ensures { IsTrue result ↔ HasType old.now new.now place ty.now }
{
    match type_there(old, new, place) {
        Some((_, there)) => is_same_type(ty, there),
        None => false,
    }
}

// Whether two entry points are the same.
fn is_same_entry(ours: &EntryInfo, theirs: &EntryInfo) -> bool
    ensures { IsTrue result ↔ (ours.now ≡ theirs.now) }
{
    ours.name == theirs.name && ours.lateness == theirs.lateness
}

// Whether an entry point, which has this place, is there still.
fn has_entry(old: &Program, new: &Program, place: usize, entry: &EntryInfo) -> bool
    requires { length new.now.entries ≤ 2 ^ 16 }
    ensures { IsTrue result ↔ HasEntry old.now new.now place entry.now }
{
    match entry_there(old, new, place) {
        Some(there) => match new.entries.as_slice().get(there.0 as usize) {
            Some(there) => is_same_entry(there, entry),
            None => false,
        },
        None => false,
    }
}

/// Whether each type is there still, as it was. Takes no memory.
pub(crate) fn have_types(old: &Program, new: &Program) -> bool
    requires { length new.now.types ≤ 2 ^ 16 }
    ensures { IsTrue result ↔ HaveTypes old.now new.now }
{
    let types = old.types.as_slice();
    for place in 0..types.len() {
        if !has_type(old, new, place, &types[place]) {
            return false;
        }
    }
    true
}

/// Whether each entry point is there still, with its lateness. Takes no memory.
pub(crate) fn have_entries(old: &Program, new: &Program) -> bool
    requires { length new.now.entries ≤ 2 ^ 16 }
    ensures { IsTrue result ↔ HaveEntries old.now new.now }
{
    let entries = old.entries.as_slice();
    for place in 0..entries.len() {
        if !has_entry(old, new, place, &entries[place]) {
            return false;
        }
    }
    true
}
