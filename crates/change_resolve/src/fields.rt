ghost use Rattle.std.specs.Prelude.{◌≡◌, is_some, option_map, IfOk};
ghost use Rattle.change_resolve.specs.Fields.{given_under, are_given, are_declared, are_fields, are_some_fields, is_field, value_given, field_value, values_given, field_named, set_for as set_of, sets_given};

use fx_base::limits::TEXT_MAX;
use fx_base::{Copies, Kind, NoMemory, Seq, Text, Value};
use script_read::Given;
use std::alloc::Global;

// What is given under a name.
#[tactic(auto, unfolding(crate::specs::Fields::given_under))]
fn given_for<'a>(name: &Text, members: &'a [(Text, Given)]) -> Option<&'a Given>
    ensures { option_map (λ given. given.now) result ≡ given_under name.now members.now }
{
    for member in members {
        if member.0 == *name {
            return Some(&member.1);
        }
    }
    None
}

fn is_declared(fields: &[(Text, Kind)], name: &Text) -> bool
    ensures { result ≡ is_field fields.now name.now }
{
    fields.iter().any(|field| field.0 == *name)
}

fn is_given(members: &[(Text, Given)], name: &Text) -> bool
    ensures { result ≡ is_some (given_under name.now members.now) }
{
    given_for(name, members).is_some()
}

fn all_given(fields: &[(Text, Kind)], members: &[(Text, Given)]) -> bool
    ensures { result ≡ are_given fields.now members.now }
{
    fields.iter().all(|field| is_given(members, &field.0))
}

fn all_declared(fields: &[(Text, Kind)], members: &[(Text, Given)]) -> bool
    ensures { result ≡ are_declared fields.now members.now }
{
    members.iter().all(|member| is_declared(fields, &member.0))
}

/// Whether the members are exactly the declared fields. Takes no memory.
pub(crate) fn has_fields(fields: &[(Text, Kind)], members: &[(Text, Given)]) -> bool
    ensures { result ≡ are_fields fields.now members.now }
{
    all_given(fields, members) && all_declared(fields, members)
}

/// Whether there is a member, and each is a declared field. Takes no memory.
pub(crate) fn has_some_fields(fields: &[(Text, Kind)], members: &[(Text, Given)]) -> bool
    ensures { result ≡ are_some_fields fields.now members.now }
{
    !members.is_empty() && all_declared(fields, members)
}

/// The value that is given to a field of this kind.
pub(crate) fn value_of(alloc: Global, kind: Kind, given: &Given) -> Result<Option<Value>, NoMemory>
    ensures { IfOk result (λ value. value ≡ value_given kind given.now) }
{
    match (kind, given) {
        (Kind::Int, Given::Int(number)) => Ok(Some(Value::Int(*number))),
        (Kind::Bool, Given::Bool(flag)) => Ok(Some(Value::Bool(*flag))),
        (Kind::Text, Given::Text(text)) => {
            if text.as_str().len() > TEXT_MAX {
                return Ok(None);
            }
            Ok(Some(Value::Text(text.copy(alloc)?)))
        }
        _ => Ok(None),
    }
}

fn value_for(
    alloc: Global,
    field: &(Text, Kind),
    members: &[(Text, Given)],
) -> Result<Option<Value>, NoMemory>
    ensures { IfOk result (λ value. value ≡ field_value field.now members.now) }
{
    match given_for(&field.0, members) {
        Some(given) => value_of(alloc, field.1, given),
        None => Ok(None),
    }
}

/// The values of the fields, in the order of their declaration; `None` where one has not the kind of its field.
#[tactic(auto, unfolding(crate::specs::Fields::values_given))]
pub(crate) fn values_for(
    alloc: Global,
    fields: &[(Text, Kind)],
    members: &[(Text, Given)],
) -> Result<Option<Seq<Value>>, NoMemory>
    ensures { IfOk result (λ values. values ≡ values_given fields.now members.now) }
{
    let mut values = Vec::with_capacity(alloc, fields.len())?;
    for field in fields {
        match value_for(alloc, field, members)? {
            Some(value) => values.push(value)?,
            None => return Ok(None),
        }
    }
    Ok(Some(Seq::from_vec(values)))
}

// The place and the kind of the field of this name.
#[tactic(auto, unfolding(crate::specs::Fields::field_named))]
fn declared_field(fields: &[(Text, Kind)], name: &Text) -> Option<(usize, Kind)>
    ensures { result ≡ field_named name.now fields.now 0 }
{
    for (place, field) in fields.iter().enumerate() {
        if field.0 == *name {
            return Some((place, field.1));
        }
    }
    None
}

/// The value that is given to the field of this place and kind, with the place.
pub(crate) fn set_for(
    alloc: Global,
    field: Option<(usize, Kind)>,
    given: &Given,
) -> Result<Option<(usize, Value)>, NoMemory>
    ensures { IfOk result (λ set. set ≡ set_of field given.now) }
{
    let Some((place, kind)) = field else {
        return Ok(None);
    };
    match value_of(alloc, kind, given)? {
        Some(value) => Ok(Some((place, value))),
        None => Ok(None),
    }
}

/// The values that members give to fields by their places, in the order of the members; `None` where one has not the kind of its field.
#[tactic(auto, unfolding(crate::specs::Fields::sets_given))]
pub(crate) fn sets_for(
    alloc: Global,
    fields: &[(Text, Kind)],
    members: &[(Text, Given)],
) -> Result<Option<Seq<(usize, Value)>>, NoMemory>
    ensures { IfOk result (λ sets. sets ≡ sets_given fields.now members.now) }
{
    let mut sets = Vec::with_capacity(alloc, members.len())?;
    for member in members {
        match set_for(alloc, declared_field(fields, &member.0), &member.1)? {
            Some(set) => sets.push(set)?,
            None => return Ok(None),
        }
    }
    Ok(Some(Seq::from_vec(sets)))
}
