ghost use Rattle.std.specs.Prelude.{◌≡◌, ◌≤◌, List, ℕ, Some, IfOk, IfSome, IsTrue, length, option_and_then};
ghost use Rattle.std.specs.Cmp.Lexicographic.{slice_cmp};
ghost use Rattle.std.specs.List.{AllWithin, insert};
ghost use Rattle.std.specs.Ordering.{nat_cmp};
ghost use Rattle.std.specs.declared.cmp.Ordering.TheVariants.{Less};
ghost use Rattle.json.specs.Json.{object, number, string};
ghost use Rattle.json.specs.Value.{value_view, members_view};
ghost use Rattle.serde_json.specs.Find.{as_i64};
ghost use Rattle.serde_json.specs.Read.{number_of};
ghost use Rattle.script_read.specs.Members.{from_one};
ghost use Rattle.script_read.specs.Flat.{tree_given, tree_givens, put_given};
ghost use Rattle.script_read.specs.Rising.{IsRising};
ghost use Rattle.script_read.specs.declared.given.Given.{Given};

use crate::given::Given;
use crate::names::Names;
use crate::whole::whole;
use fx_base::{FactId, NoMemory, Seq, Text};
use json::Value as Tree;
use std::alloc::Global;
use std::cmp::Ordering;

// With more fields a line is read by the map of `serde_json`, which takes in a name without moving those behind it.
const MOST_FIELDS: usize = 64;

// What a tree gives for a field, where it is no array and no object, and its number is whole.
#[tactic(auto, unfolding(crate::specs::Given::given_of))]
fn given_in(alloc: Global, tree: &Tree<'_>) -> Result<Option<Given>, NoMemory>
    ensures { IfOk result (λ found. IfSome found (λ given. tree_given (value_view tree.now) ≡ Some given)) }
{
    match tree {
        Tree::Null => Ok(Some(Given::Other)),
        Tree::Bool(flag) => Ok(Some(Given::Bool(*flag))),
        Tree::Number(text) => match whole(text) {
            Some(n) => Ok(Some(Given::Int(n))),
            None => Ok(None),
        },
        Tree::String(text) => Ok(Some(Given::Text(Text::new(alloc, text)?))),
        Tree::Array(_) | Tree::Object(_) => Ok(None),
    }
}

// Whether a name is behind those of all fields.
fn is_last(fields: &[(Text, Given)], name: &str) -> bool
    ensures { IsTrue result → IsRising fields.now → AllWithin (λ field. slice_cmp nat_cmp field.0 name.now ≡ Less) fields.now 0 (length fields.now) }
{
    match fields.last() {
        Some(last) => last.0.as_str().cmp(name).is_lt(),
        None => true,
    }
}

// The place that the byte order of names has for a name, where it is new.
fn place_of(fields: &[(Text, Given)], name: &str) -> Option<usize>
    requires { IsRising fields.now }
    ensures within { IfSome result (λ place. place ≤ length fields.now) }
    ensures place { IfSome result (λ place. (given : Given) → put_given name.now given fields.now ≡ insert fields.now place (name.now, given)) }
{
    if is_last(fields, name) {
        return Some(fields.len());
    }
    match fields.binary_search_by(
        |field: &(Text, Given)| -> Ordering
            ensures { result ≡ slice_cmp nat_cmp field.now.0 name.entry.now }
        { field.0.as_str().cmp(name) },
    ) {
        Ok(_) => None,
        Err(place) => Some(place),
    }
}

/// What the members of an object give for fields, in the byte order of the names, where each name stands once.
pub(crate) fn fields_in(
    alloc: Global,
    members: &[(&str, Tree<'_>)],
    names: &mut Names,
) -> Result<Option<Seq<(Text, Given)>>, NoMemory>
    ensures { IfOk result (λ found. IfSome found (λ fields. tree_givens (members_view members.now) ≡ Some fields)) }
{
    if members.len() > MOST_FIELDS {
        return Ok(None);
    }
    let mut fields = Vec::with_capacity(alloc, members.len())?;
    for (name, member) in members {
        let Some(place) = place_of(fields.as_slice(), name) else {
            return Ok(None);
        };
        let Some(given) = given_in(alloc, member)? else {
            return Ok(None);
        };
        fields.insert(place, (names.name(alloc, name)?, given))?;
    }
    Ok(Some(Seq::from_vec(fields)))
}

/// The text of a member, where it has this name and holds a text. Takes no memory.
pub(crate) fn text_under<'a>(member: &(&str, Tree<'a>), name: &str) -> Option<&'a str>
    ensures { IfSome result (λ text. (member.now.0.now ≡ name.now) × (value_view member.now.1 ≡ string text.now)) }
{
    if member.0 == name {
        member.1.as_str()
    } else {
        None
    }
}

/// The members of the object of a member, where it has this name and holds an object. Takes no memory.
pub(crate) fn members_under<'m, 'a>(
    member: &'m (&str, Tree<'a>),
    name: &str,
) -> Option<&'m [(&'a str, Tree<'a>)]>
    ensures { IfSome result (λ parts. (member.now.0.now ≡ name.now) × (value_view member.now.1 ≡ object (members_view parts.now))) }
{
    if member.0 != name {
        return None;
    }
    match &member.1 {
        Tree::Object(parts) => Some(parts.as_slice()),
        _ => None,
    }
}

/// The whole number of a member, where it has this name and holds one of 64 bits with sign. Takes no memory.
pub(crate) fn whole_under(member: &(&str, Tree<'_>), name: &str) -> Option<i64>
    ensures { IfSome result (λ n. (member.now.0.now ≡ name.now)
        × (digits : List ℕ) × (value_view member.now.1 ≡ number digits) × (option_and_then as_i64 (number_of digits) ≡ Some n)) }
{
    if member.0 != name {
        return None;
    }
    match &member.1 {
        Tree::Number(text) => whole(text),
        _ => None,
    }
}

/// The id of a member, where it has this name and holds a whole number from 1 on. Takes no memory.
pub(crate) fn id_under(member: &(&str, Tree<'_>), name: &str) -> Option<FactId>
    ensures { IfSome result (λ id. (member.now.0.now ≡ name.now)
        × (digits : List ℕ) × (value_view member.now.1 ≡ number digits)
        × (option_and_then from_one (option_and_then as_i64 (number_of digits)) ≡ Some id.0)) }
{
    match whole_under(member, name) {
        Some(n @ 1..) => Some(FactId(n as u64)),
        _ => None,
    }
}
