ghost use Rattle.std.specs.Prelude.{◌≡◌, option_map};
ghost use Rattle.serde_json.specs.View.{view, members_view};
ghost use Rattle.script_read.specs.Members.{text_member as text_under, object_member as object_under, whole_member as whole_under, id_member as id_under, count_member as count_under, count as count_of};

use fx_base::FactId;
use serde_json::{Map, Value};

// The greatest number of firings that a line may ask for.
const MOST_FIRINGS: i64 = 1 << 53;

/// The text under this name; nothing where the value is no object, or has none there. Takes no memory.
#[tactic(auto, unfolding(crate::specs::Members::text_member))]
pub fn text_member<'a>(value: &'a Value, name: &str) -> Option<&'a str>
    ensures { option_map (λ text. text.now) result ≡ text_under name.now (view value.now) }
{
    match value.get(name) {
        Some(member) => member.as_str(),
        None => None,
    }
}

/// The members of the object under this name. Takes no memory.
#[tactic(auto, unfolding(crate::specs::Members::object_member))]
pub(crate) fn object_member<'a>(value: &'a Value, name: &str) -> Option<&'a Map<String, Value>>
    ensures { option_map (λ map. members_view map.now.entries) result
        ≡ object_under name.now (view value.now) }
{
    match value.get(name) {
        Some(member) => member.as_object(),
        None => None,
    }
}

/// The whole number of 64 bits with sign under this name. Takes no memory.
#[tactic(auto, unfolding(crate::specs::Members::whole_member))]
pub(crate) fn whole_member(value: &Value, name: &str) -> Option<i64>
    ensures { result ≡ whole_under name.now (view value.now) }
{
    match value.get(name) {
        Some(member) => member.as_i64(),
        None => None,
    }
}

/// The id under this name: a whole number from 1 on. Takes no memory.
#[tactic(auto, unfolding(crate::specs::Members::id_member))]
pub(crate) fn id_member(value: &Value, name: &str) -> Option<FactId>
    ensures { option_map (λ id. id.0) result ≡ id_under name.now (view value.now) }
{
    match whole_member(value, name) {
        Some(number @ 1..) => Some(FactId(number as u64)),
        _ => None,
    }
}

/// The number of firings under this name: a whole number from 0 to 2^53. Takes no memory.
#[tactic(auto, unfolding(crate::specs::Members::count_member, crate::specs::Members::most_firings))]
pub(crate) fn count_member(value: &Value, name: &str) -> Option<u64>
    ensures { result ≡ count_under name.now (view value.now) }
{
    match whole_member(value, name) {
        Some(number @ 0..=MOST_FIRINGS) => Some(number as u64),
        _ => None,
    }
}

/// How many members an object has; nothing where the value is no object. Takes no memory.
#[tactic(auto, using(crate::proofs::Counts::members_are_entries), unfolding(crate::specs::Members::count))]
pub fn count(value: &Value) -> Option<usize>
    ensures { result ≡ count_of (view value.now) }
{
    match value.as_object() {
        Some(members) => Some(members.len()),
        None => None,
    }
}
