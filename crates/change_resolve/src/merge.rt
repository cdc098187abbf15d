//! Members whose names rise, as a line gives them, beside the fields of a type: the member of a field stands behind that of the field
//! before it, or is found in the logarithm of their number.
ghost use Rattle.std.specs.Prelude.{◌≡◌, ◌<◌, ◌&&◌, nat_lt, ℕ, List, None, [], length, is_some, slice_index_or, option_map, IfOk, IfSome, IsNone, IsTrue};
ghost use Rattle.std.specs.Cmp.Lexicographic.{slice_cmp};
ghost use Rattle.std.specs.List.{list_all};
ghost use Rattle.std.specs.Ordering.{nat_cmp};
ghost use Rattle.fx_base.specs.declared.kind.Kind.{Kind as KindData};
ghost use Rattle.script_read.specs.Rising.{IsRising};
ghost use Rattle.script_read.specs.declared.given.Given.{Given as GivenData};
ghost use Rattle.change_resolve.specs.Fields.{given_under, are_given, are_fields, field_value, field_named, values_given, sets_given};
ghost use Rattle.change_resolve.specs.Changes.{fields_step, new_step};
ghost use Rattle.change_resolve.specs.Named.{earlier_of, fields_of};

use crate::fields::{set_for, value_of};
use fx_base::{EntryId, FactId, Kind, NoMemory, Seq, Text, TypeId, Value};
use rule_model::Step;
use rule_world::Code;
use script_read::Given;
use std::alloc::Global;
use std::cmp::Ordering;

// So many members are walked sooner than merged.
const FEW_MEMBERS: usize = 2;

// Whether the names of the members rise in the order of their bytes.
fn is_rising(members: &[(Text, Given)]) -> bool
    ensures { IsTrue result → IsRising members.now }
{
    members.is_sorted_by(|member, next| member.0.as_str().cmp(next.0.as_str()).is_lt())
}

/// Whether members are merged with fields: more than a few, whose names rise in the order of their bytes. Takes no memory.
pub(crate) fn is_mergeable(members: &[(Text, Given)]) -> bool
    ensures { IsTrue result → IsRising members.now }
{
    members.len() > FEW_MEMBERS && is_rising(members)
}

// Whether the member of this place has this name.
fn stands_at(members: &[(Text, Given)], name: &Text, place: usize) -> bool
    ensures within { IsTrue result → place < length members.now }
    ensures named { IsTrue result → (d : List ℕ × GivenData) → (slice_index_or members.now place d).0 ≡ name.now }
{
    match members.get(place) {
        Some(member) => member.0 == *name,
        None => false,
    }
}

// The place of the member of this name, by a search.
fn searched(members: &[(Text, Given)], name: &Text) -> Option<usize>
    requires { IsRising members.now }
    ensures within { IfSome result (λ place. place < length members.now) }
    ensures named { IfSome result (λ place. (d : List ℕ × GivenData) → (slice_index_or members.now place d).0 ≡ name.now) }
    ensures none { IsNone result → given_under name.now members.now ≡ None }
{
    match members.binary_search_by(
        |member: &(Text, Given)| -> Ordering
            ensures { result ≡ slice_cmp nat_cmp member.now.0 name.entry.now }
        { member.0.as_str().cmp(name.as_str()) },
    ) {
        Ok(place) => Some(place),
        Err(_) => None,
    }
}

// The place of the member of this name. The member at `next` is tried first, and `next` goes behind the one that is found.
fn place_near(members: &[(Text, Given)], name: &Text, next: &mut usize) -> Option<usize>
    requires { IsRising members.now }
    ensures within { IfSome result (λ place. place < length members.now) }
    ensures named { IfSome result (λ place. (d : List ℕ × GivenData) → (slice_index_or members.now place d).0 ≡ name.now) }
    ensures none { IsNone result → given_under name.now members.now ≡ None }
{
    let first = *next;
    if stands_at(members, name, first) {
        *next = first + 1;
        return Some(first);
    }
    match searched(members, name) {
        Some(place) => {
            *next = place + 1;
            Some(place)
        }
        None => None,
    }
}

// What is given under a name.
fn given_near<'a>(members: &'a [(Text, Given)], name: &Text, next: &mut usize) -> Option<&'a Given>
    requires { IsRising members.now }
    ensures { option_map (λ given. given.now) result ≡ given_under name.now members.now }
{
    match place_near(members, name, next) {
        Some(place) => Some(&members[place].1),
        None => None,
    }
}

fn value_near(
    alloc: Global,
    field: &(Text, Kind),
    members: &[(Text, Given)],
    next: &mut usize,
) -> Result<Option<Value>, NoMemory>
    requires { IsRising members.now }
    ensures { IfOk result (λ value. value ≡ field_value field.now members.now) }
{
    match given_near(members, &field.0, next) {
        Some(given) => value_of(alloc, field.1, given),
        None => Ok(None),
    }
}

// The values of the fields, in the order of their declaration; `None` where one has not the kind of its field.
#[tactic(auto, unfolding(crate::specs::Fields::values_given))]
fn values_near(
    alloc: Global,
    fields: &[(Text, Kind)],
    members: &[(Text, Given)],
) -> Result<Option<Seq<Value>>, NoMemory>
    requires { IsRising members.now }
    ensures { IfOk result (λ values. values ≡ values_given fields.now members.now) }
{
    let mut next = 0;
    let mut values = Vec::with_capacity(alloc, fields.len())?;
    for field in fields {
        match value_near(alloc, field, members, &mut next)? {
            Some(value) => values.push(value)?,
            None => return Ok(None),
        }
    }
    Ok(Some(Seq::from_vec(values)))
}

// For each member that no field has its name.
fn none_named(
    alloc: Global,
    members: &[(Text, Given)],
) -> Result<Vec<Option<(usize, Kind)>>, NoMemory>
    ensures { IfOk result (λ named. named.items ≡ fields_of [] members.now) }
{
    let mut named = Vec::with_capacity(alloc, members.len())?;
    'fill: while named.len() < members.len() {
        named.push(None)?;
    }
    Ok(named)
}

// A field, unless an earlier one is noted.
fn earlier_or(noted: Option<(usize, Kind)>, field: (usize, Kind)) -> Option<(usize, Kind)>
    ensures { result ≡ earlier_of noted field }
{
    match noted {
        Some(earlier) => Some(earlier),
        None => Some(field),
    }
}

// The field of each member, by its place and its kind, and whether each field has a member.
fn fields_named(
    alloc: Global,
    fields: &[(Text, Kind)],
    members: &[(Text, Given)],
) -> Result<(Vec<Option<(usize, Kind)>>, bool), NoMemory>
    requires { IsRising members.now }
    ensures named { IfOk result (λ found. found.0.items ≡ fields_of fields.now members.now) }
    ensures given { IfOk result (λ found. found.1 ≡ are_given fields.now members.now) }
{
    let mut next = 0;
    let mut all_given = true;
    let mut named = none_named(alloc, members)?;
    for (place, field) in fields.iter().enumerate() {
        match place_near(members, &field.0, &mut next) {
            Some(member) => named[member] = earlier_or(named[member], (place, field.1)),
            None => all_given = false,
        }
    }
    Ok((named, all_given))
}

fn are_named(named: &[Option<(usize, Kind)>]) -> bool
    ensures { result ≡ list_all is_some named.now }
{
    named.iter().all(|field| field.is_some())
}

fn are_all(all_given: bool, named: &[Option<(usize, Kind)>]) -> bool
    ensures { result ≡ (all_given && list_all is_some named.now) }
{
    all_given && are_named(named)
}

fn are_some(members: &[(Text, Given)], named: &[Option<(usize, Kind)>]) -> bool
    ensures { result ≡ (nat_lt 0 (length members.now) && list_all is_some named.now) }
{
    !members.is_empty() && are_named(named)
}

// Whether the members are exactly the declared fields.
fn has_fields(
    alloc: Global,
    fields: &[(Text, Kind)],
    members: &[(Text, Given)],
) -> Result<bool, NoMemory>
    requires { IsRising members.now }
    ensures { IfOk result (λ has. has ≡ are_fields fields.now members.now) }
{
    let (named, all_given) = fields_named(alloc, fields, members)?;
    Ok(are_all(all_given, &named))
}

fn field_at(named: &[Option<(usize, Kind)>], member: usize) -> Option<(usize, Kind)>
    requires { member < length named.now }
    ensures { result ≡ slice_index_or named.now member None }
{
    named[member]
}

// The values that members give to their fields; `None` where one has not the kind of its field.
#[tactic(auto, unfolding(crate::specs::Fields::sets_given))]
fn sets_named(
    alloc: Global,
    named: &[Option<(usize, Kind)>],
    members: &[(Text, Given)],
) -> Result<Option<Seq<(usize, Value)>>, NoMemory>
    requires { length named.now ≡ length members.now }
    ensures { (fields : List (List ℕ × KindData)) → named.now ≡ fields_of fields members.now
        → IfOk result (λ sets. sets ≡ sets_given fields members.now) }
{
    let mut sets = Vec::with_capacity(alloc, members.len())?;
    for (place, member) in members.iter().enumerate() {
        match set_for(alloc, field_at(named, place), &member.1)? {
            Some(set) => sets.push(set)?,
            None => return Ok(None),
        }
    }
    Ok(Some(Seq::from_vec(sets)))
}

/// The step of an insertion of these members, or its fault.
pub(crate) fn inserted(
    alloc: Global,
    ty: TypeId,
    entry: EntryId,
    fields: &[(Text, Kind)],
    members: &[(Text, Given)],
) -> Result<Result<Step, Code>, NoMemory>
    requires { IsRising members.now }
    ensures { IfOk result (λ step. step ≡ new_step ty.0 entry.0 fields.now members.now) }
{
    if !has_fields(alloc, fields, members)? {
        return Ok(Err(Code::BadFields));
    }
    match values_near(alloc, fields, members)? {
        Some(fields) => Ok(Ok(Step::Insert { ty, entry, fields })),
        None => Ok(Err(Code::BadValue)),
    }
}

/// The step of a modification by these members, or its fault.
pub(crate) fn modified(
    alloc: Global,
    id: FactId,
    fields: &[(Text, Kind)],
    members: &[(Text, Given)],
) -> Result<Result<Step, Code>, NoMemory>
    requires { IsRising members.now }
    ensures { IfOk result (λ step. step ≡ fields_step id fields.now members.now) }
{
    let (named, _) = fields_named(alloc, fields, members)?;
    if !are_some(members, &named) {
        return Ok(Err(Code::BadFields));
    }
    match sets_named(alloc, &named, members)? {
        Some(sets) => Ok(Ok(Step::Modify { id, sets })),
        None => Ok(Err(Code::BadValue)),
    }
}
