//! What of a pattern decides under which value a candidate is kept, and under which values rows are sought for it.
ghost use Rattle.std.specs.Prelude.{◌≡◌, ◌↔◌, ◌++◌, map, IfOk, OnOk, IsTrue};
ghost use Rattle.std.specs.Option.{option_map};
ghost use Rattle.join_tests.specs.NameKeys.{name_field, name_time, name_key};

use crate::key::{JoinKey, keys_of_tests};
use crate::time_key::{Point, TimeKey, key_of_times};
use fx_base::{Millis, NoMemory, Seq};
use rule_model::Pattern;
use std::alloc::Global;

/// The candidate's side of a range of time: a point of the candidate, how far the event's point may lie behind it, in milliseconds, and the
/// length of the range, less 1.
#[derive(Clone, Copy, Debug, PartialEq, Eq)]
pub struct NameTime {
    pub own: Point,
    pub back: Millis,
    pub span: u64,
}

/// The candidate's side of the equalities of a pattern, its fields by their places from 0 in the order of the text, and of its range of
/// time. Patterns with the same one keep each candidate under the same value, and seek rows for it under the same values, whatever they
/// ask of their rows.
#[derive(Drop)]
pub struct NameKey {
    fields: Seq<u8>,
    time: Option<NameTime>,
}

impl NameKey {
    /// The key of a pattern. It costs a walk over its tests.
    #[tactic(auto, unfolding(crate::specs::Keys::join_keys, crate::specs::TimeKeys::time_key))]
    pub fn of(alloc: Global, pattern: &Pattern) -> Result<NameKey, NoMemory>
        ensures { IfOk result (λ key. key ≡ name_key pattern.now) }
    {
        let keys = keys_of_tests(alloc, pattern.joined.as_slice())?;
        let fields = fields_of(alloc, keys.as_slice())?;
        let time = time_of(key_of_times(pattern.times.as_slice()));
        Ok(NameKey {
            fields: Seq::from_vec(fields),
            time,
        })
    }

    /// Whether it is the same. Takes no memory.
    pub fn is_same(&self, other: &NameKey) -> bool
        ensures { IsTrue result ↔ (self.now ≡ other.now) }
    {
        self.time == other.time && are_same(self.fields.as_slice(), other.fields.as_slice())
    }
}

fn are_same(ours: &[u8], theirs: &[u8]) -> bool
    ensures { IsTrue result ↔ (ours.now ≡ theirs.now) }
{
    ours == theirs
}

fn fields_of(alloc: Global, keys: &[JoinKey]) -> Result<Vec<u8>, NoMemory>
    ensures { IfOk result (λ fields. fields.items ≡ map name_field keys.now) }
{
    let mut fields = Vec::new(alloc);
    for key in keys {
        fields.push(key.field)?;
    }
    Ok(fields)
}

fn time_of(key: Option<TimeKey>) -> Option<NameTime>
    ensures { result ≡ option_map name_time key }
{
    match key {
        Some(key) => Some(NameTime {
            own: key.own,
            back: key.back,
            span: key.span,
        }),
        None => None,
    }
}
