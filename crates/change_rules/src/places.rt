//! Where the types and the entry points of one program stand in another, by their names.
ghost use Rattle.std.specs.Prelude.{◌≡◌, ◌≤◌, ◌^◌, length, option_map, slice_get};
ghost use Rattle.change_resolve.specs.Changes.{type_named, entry_named};
ghost use Rattle.rule_change.specs.Changed.{type_in, entry_in, new_type as new_type_of, new_entry as new_entry_of};

use fx_base::{EntryId, Text, TypeId};
use rule_model::{EntryInfo, Program, TypeInfo};

/// The type of this name, with its place. Takes no memory.
#[tactic(auto, unfolding(change_resolve::specs::Changes::type_named))]
pub(crate) fn declared_type<'a>(
    types: &'a [TypeInfo],
    name: &Text,
) -> Option<(TypeId, &'a TypeInfo)>
    requires { length types.now ≤ 2 ^ 16 }
    ensures { option_map (λ found. (found.0.0, found.1.now)) result ≡ type_named name.now types.now 0 }
{
    for (place, info) in types.iter().enumerate() {
        if info.name == *name {
            return Some((TypeId(place as u16), info));
        }
    }
    None
}

/// The entry point of this name. Takes no memory.
#[tactic(auto, unfolding(change_resolve::specs::Changes::entry_named))]
pub(crate) fn declared_entry(entries: &[EntryInfo], name: &Text) -> Option<EntryId>
    requires { length entries.now ≤ 2 ^ 16 }
    ensures { option_map (λ found. found.0) result ≡ entry_named name.now entries.now 0 }
{
    for (place, entry) in entries.iter().enumerate() {
        if entry.name == *name {
            return Some(EntryId(place as u16));
        }
    }
    None
}

/// The type of one program in another, with its place there, by its name. Takes no memory.
pub(crate) fn type_there<'a>(
    program: &Program,
    other: &'a Program,
    ty: usize,
) -> Option<(TypeId, &'a TypeInfo)>
    requires { length other.now.types ≤ 2 ^ 16 }
    ensures { option_map (λ found. (found.0.0, found.1.now)) result ≡ type_in program.now other.now ty }
{
    let info = program.types.as_slice().get(ty)?;
    declared_type(other.types.as_slice(), &info.name)
}

/// The place of an entry point of one program in another, by its name. Takes no memory.
pub fn entry_there(program: &Program, other: &Program, entry: usize) -> Option<EntryId>
    requires { length other.now.entries ≤ 2 ^ 16 }
    ensures { option_map (λ found. found.0) result ≡ entry_in program.now other.now entry }
{
    let info = program.entries.as_slice().get(entry)?;
    declared_entry(other.entries.as_slice(), &info.name)
}

/// The new place of a type; 0 where there is none. Takes no memory.
#[tactic(auto, unfolding(rule_change::specs::Changed::new_type))]
pub fn new_type(old: &Program, new: &Program, ty: TypeId) -> TypeId
    requires { length new.now.types ≤ 2 ^ 16 }
    ensures { result.0 ≡ new_type_of old.now new.now ty.0 }
{
    match type_there(old, new, ty.0 as usize) {
        Some((ty, _)) => ty,
        None => TypeId(0),
    }
}

/// The new place of an entry point; 0 where there is none. Takes no memory.
#[tactic(auto, unfolding(rule_change::specs::Changed::new_entry))]
pub fn new_entry(old: &Program, new: &Program, entry: EntryId) -> EntryId
    requires { length new.now.entries ≤ 2 ^ 16 }
    ensures { result.0 ≡ new_entry_of old.now new.now entry.0 }
{
    match entry_there(old, new, entry.0 as usize) {
        Some(entry) => entry,
        None => EntryId(0),
    }
}
