ghost use Rattle.std.specs.Prelude.{◌≡◌, ◌≤◌, ◌^◌, length, option_map, IfOk};
ghost use Rattle.rule_world.specs.Worlds.{is_of_type};
ghost use Rattle.change_resolve.specs.Changes.{type_named, entry_named, entry_asked, new_step, fields_step, insert_step, modify_step, retract_step, promise_step, change_step};

use crate::Present;
use crate::fields::{has_fields, has_some_fields, sets_for, values_for};
use crate::merge::{inserted, is_mergeable, modified};
use fx_base::{EntryId, FactId, Kind, Millis, NoMemory, Text, TypeId};
use rule_model::{EntryInfo, Program, Step, TypeInfo};
use rule_world::Code;
use script_read::{Change, Given};
use std::alloc::Global;

// The type of this name.
#[tactic(auto, unfolding(crate::specs::Changes::type_named))]
fn declared_type<'a>(types: &'a [TypeInfo], name: &Text) -> Option<(TypeId, &'a TypeInfo)>
    requires { length types.now ≤ 2 ^ 16 }
    ensures { option_map (λ found. (found.0.0, found.1.now)) result ≡ type_named name.now types.now 0 }
{
    for (place, info) in types.iter().enumerate() {
        if info.name == *name {
            return Some((TypeId(place as u16), info));
        }
    }
    None
}

// The entry point of this name.
#[tactic(auto, unfolding(crate::specs::Changes::entry_named))]
fn declared_entry(entries: &[EntryInfo], name: &Text) -> Option<EntryId>
    requires { length entries.now ≤ 2 ^ 16 }
    ensures { option_map (λ found. found.0) result ≡ entry_named name.now entries.now 0 }
{
    for (place, entry) in entries.iter().enumerate() {
        if entry.name == *name {
            return Some(EntryId(place as u16));
        }
    }
    None
}

// The entry point that is asked for; without a name the default one.
fn entry_for(entries: &[EntryInfo], name: &Option<Text>) -> Option<EntryId>
    requires { length entries.now ≤ 2 ^ 16 }
    ensures { option_map (λ found. found.0) result ≡ entry_asked name.now entries.now }
{
    match name {
        Some(name) => declared_entry(entries, name),
        None => Some(EntryId(0)),
    }
}

// Whether a present fact of this type has the id.
fn is_present<P: Present>(present: &P, id: FactId, ty: TypeId) -> bool
    ensures { result ≡ is_of_type ty.0 (P.present present.now id.0) }
{
    match present.fact_with(id) {
        Some(fact) => fact.ty.0 == ty.0,
        None => false,
    }
}

// The step of an insertion of these members, or its fault.
fn new_fact(
    alloc: Global,
    ty: TypeId,
    entry: EntryId,
    fields: &[(Text, Kind)],
    members: &[(Text, Given)],
) -> Result<Result<Step, Code>, NoMemory>
    ensures { IfOk result (λ step. step ≡ new_step ty.0 entry.0 fields.now members.now) }
{
    if is_mergeable(members) {
        return inserted(alloc, ty, entry, fields, members);
    }
    if !has_fields(fields, members) {
        return Ok(Err(Code::BadFields));
    }
    match values_for(alloc, fields, members)? {
        Some(fields) => Ok(Ok(Step::Insert { ty, entry, fields })),
        None => Ok(Err(Code::BadValue)),
    }
}

// The step of a modification by these members, or its fault.
fn new_values(
    alloc: Global,
    id: FactId,
    fields: &[(Text, Kind)],
    members: &[(Text, Given)],
) -> Result<Result<Step, Code>, NoMemory>
    ensures { IfOk result (λ step. step ≡ fields_step id fields.now members.now) }
{
    if is_mergeable(members) {
        return modified(alloc, id, fields, members);
    }
    if !has_some_fields(fields, members) {
        return Ok(Err(Code::BadFields));
    }
    match sets_for(alloc, fields, members)? {
        Some(sets) => Ok(Ok(Step::Modify { id, sets })),
        None => Ok(Err(Code::BadValue)),
    }
}

// The step of an insertion, or its fault.
fn read_insert(
    alloc: Global,
    program: &Program,
    begun: bool,
    name: &Text,
    entry: &Option<Text>,
    members: &[(Text, Given)],
) -> Result<Result<Step, Code>, NoMemory>
    requires types { length program.now.types ≤ 2 ^ 16 }
    requires entries { length program.now.entries ≤ 2 ^ 16 }
    ensures { IfOk result (λ step. step
        ≡ insert_step begun (type_named name.now program.now.types 0) (entry_asked entry.now program.now.entries) members.now) }
{
    let Some((ty, info)) = declared_type(program.types.as_slice(), name) else {
        return Ok(Err(Code::UnknownType));
    };
    let Some(entry) = entry_for(program.entries.as_slice(), entry) else {
        return Ok(Err(Code::UnknownEntry));
    };
    if info.reference && begun {
        return Ok(Err(Code::ReferenceFixed));
    }
    new_fact(alloc, ty, entry, info.fields.as_slice(), members)
}

// The step of a modification, or its fault.
fn read_modify<P: Present>(
    alloc: Global,
    types: &[TypeInfo],
    present: &P,
    name: &Text,
    id: FactId,
    members: &[(Text, Given)],
) -> Result<Result<Step, Code>, NoMemory>
    requires { length types.now ≤ 2 ^ 16 }
    ensures { IfOk result (λ step. step ≡ modify_step (type_named name.now types.now 0) id (P.present present.now id.0) members.now) }
{
    let Some((ty, info)) = declared_type(types, name) else {
        return Ok(Err(Code::UnknownType));
    };
    if info.event {
        return Ok(Err(Code::EventFixed));
    }
    if info.reference {
        return Ok(Err(Code::ReferenceFixed));
    }
    if !is_present(present, id, ty) {
        return Ok(Err(Code::Absent));
    }
    new_values(alloc, id, info.fields.as_slice(), members)
}

// The step of a retraction, or its fault.
fn read_retract(types: &[TypeInfo], name: &Text, id: FactId) -> Result<Step, Code>
    requires { length types.now ≤ 2 ^ 16 }
    ensures { result ≡ retract_step (type_named name.now types.now 0) id }
{
    match declared_type(types, name) {
        Some((_, info)) if info.reference => Err(Code::ReferenceFixed),
        Some((ty, _)) => Ok(Step::Retract { ty, id }),
        None => Err(Code::UnknownType),
    }
}

// The step of a promise, or its fault.
fn read_promise(entries: &[EntryInfo], name: &Option<Text>, from: Millis) -> Result<Step, Code>
    requires { length entries.now ≤ 2 ^ 16 }
    ensures { result ≡ promise_step (entry_asked name.now entries.now) from }
{
    match entry_for(entries, name) {
        Some(entry) => Ok(Step::Promise { entry, from }),
        None => Err(Code::UnknownEntry),
    }
}

/// The step that a change asks for, or the first of its faults in the order of `Code`. A new fact has its values in the order of
/// the declaration; a modification has its sets in the order of the members. Whether a plain fact that is to be
/// retracted is there, the times of an event are lawful, the clock may move so and a moment may be promised is not asked here. `NoMemory` comes only where memory is refused.
#[tactic(auto, unfolding(crate::specs::Changes::change_step))]
pub fn asked_step<P: Present>(
    alloc: Global,
    program: &Program,
    present: &P,
    change: &Change,
) -> Result<Result<Step, Code>, NoMemory>
    requires types { length program.now.types ≤ 2 ^ 16 }
    requires entries { length program.now.entries ≤ 2 ^ 16 }
    ensures { IfOk result (λ step. step ≡ change_step program.now (P.has_begun present.now) (P.present present.now) change.now) }
{
    let types = program.types.as_slice();
    match change {
        Change::Insert { ty, entry, fields } => {
            read_insert(
                alloc,
                program,
                present.begun(),
                ty,
                entry,
                fields.as_slice(),
            )
        }
        Change::Modify { ty, id, fields } => {
            read_modify(alloc, types, present, ty, *id, fields.as_slice())
        }
        Change::Retract { ty, id } => Ok(read_retract(types, ty, *id)),
        Change::Advance(by) => Ok(Ok(Step::Advance(*by))),
        Change::At(moment) => Ok(Ok(Step::At(*moment))),
        Change::Begin => Ok(Ok(Step::Begin)),
        Change::Promise { entry, from } => {
            Ok(read_promise(program.entries.as_slice(), entry, *from))
        }
    }
}
