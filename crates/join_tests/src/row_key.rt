//! What of a pattern decides under which value a row is kept.
ghost use Rattle.std.specs.Prelude.{◌≡◌, ◌↔◌, map, is_some, IfOk, IsTrue};
ghost use Rattle.std.specs.Hash.FoldHasher as hasher;
ghost use Rattle.std.specs.Option.{option_map};
ghost use Rattle.join_tests.specs.JoinValues.{shown};
ghost use Rattle.join_tests.specs.Keys.{as_one, fed_with};
ghost use Rattle.join_tests.specs.Kept.{with_slot};
ghost use Rattle.join_tests.specs.RowKeys.{row_side_of, row_time, row_key, side_part, value_by};

use crate::join_value::JoinValue;
use crate::key::{JoinKey, JoinSide, keys_of_tests};
use crate::number::{feed, number_fed, number_with};
use crate::part::side_value;
use crate::row_facts::named_fact;
use crate::slot::{moment_at, slot_at};
use crate::time_key::{Point, TimeKey, key_of_times};
use fx_base::{Facts, NoMemory, Seq, Value};
use row_delta::Row;
use rule_model::Pattern;
use std::alloc::Global;
use std::hash::FoldHasher;

/// The row's side of a range of time: a point of an event that the row names, by its place from 0, and the length of the range, less 1.
#[derive(Clone, Copy, Debug, PartialEq, Eq)]
pub struct RowTime {
    pub fact: u8,
    pub event: Point,
    pub span: u64,
}

/// The row's side of the equalities of a pattern, in the order of the text, and of its range of time. Patterns with the same one keep
/// each row under the same value, whatever they ask of their candidates.
#[derive(Drop)]
pub struct RowKey {
    sides: Seq<JoinSide>,
    time: Option<RowTime>,
}

impl RowKey {
    /// The key of a pattern. It costs a walk over its tests.
    #[tactic(auto, unfolding(crate::specs::Keys::join_keys, crate::specs::TimeKeys::time_key))]
    pub fn of(alloc: Global, pattern: &Pattern) -> Result<RowKey, NoMemory>
        ensures { IfOk result (λ key. key ≡ row_key pattern.now) }
    {
        let keys = keys_of_tests(alloc, pattern.joined.as_slice())?;
        let sides = sides_of(alloc, keys.as_slice())?;
        let time = time_of(key_of_times(pattern.times.as_slice()));
        Ok(RowKey {
            sides: Seq::from_vec(sides),
            time,
        })
    }

    /// Whether it is the same. Takes no memory.
    pub fn is_same(&self, other: &RowKey) -> bool
        ensures { IsTrue result ↔ (self.now ≡ other.now) }
    {
        self.time == other.time && are_same(self.sides.as_slice(), other.sides.as_slice())
    }

    /// Whether there is a range of time. Takes no memory.
    pub fn is_timed(&self) -> bool
        ensures { result ≡ is_some self.now.time }
    {
        self.time.is_some()
    }

    /// The value under which the patterns of this key keep a row. It takes no memory, and costs a look-up for each equality and for a
    /// range of time.
    pub fn row_value<'a, F: Facts>(&self, row: &Row, facts: &'a F) -> JoinValue<'a>
        ensures { shown result ≡ value_by self.now (F.map facts.now) row.now }
    {
        match self.time {
            None => value_of_sides(self.sides.as_slice(), row, facts),
            Some(time) => {
                let moment = moment_at(time.event, named_fact(row, time.fact, facts));
                let slot = slot_at(time.span, i128::from(moment));
                JoinValue::Made(sides_slotted(self.sides.as_slice(), row, facts, slot))
            }
        }
    }
}

/// What a row has of these sides, as one value.
fn value_of_sides<'a, F: Facts>(sides: &[JoinSide], row: &Row, facts: &'a F) -> JoinValue<'a>
    ensures { shown result ≡ as_one (map (side_part (F.map facts.now) row.now) sides.now) }
{
    match sides {
        [] => JoinValue::Made(Value::Bool(true)),
        [side] => side_value(*side, row, facts),
        [_, _, ..] => JoinValue::Made(number_fed(sides_fed(sides, row, facts))),
    }
}

/// The same with a slot of time behind them.
fn sides_slotted<F: Facts>(sides: &[JoinSide], row: &Row, facts: &F, slot: Value) -> Value
    ensures { result ≡ with_slot (map (side_part (F.map facts.now) row.now) sides.now) slot }
{
    match sides {
        [] => slot,
        [_, ..] => number_with(sides_fed(sides, row, facts), &slot),
    }
}

/// A hash that is fed with what a row has of these sides.
fn sides_fed<F: Facts>(sides: &[JoinSide], row: &Row, facts: &F) -> FoldHasher
    ensures { result ≡ fed_with hasher.initial (map (side_part (F.map facts.now) row.now) sides.now) }
{
    let mut state = FoldHasher::default();
    for side in sides {
        feed(side_value(*side, row, facts).value(), &mut state);
    }
    state
}

fn are_same(ours: &[JoinSide], theirs: &[JoinSide]) -> bool
    ensures { IsTrue result ↔ (ours.now ≡ theirs.now) }
{
    if ours.len() != theirs.len() {
        return false;
    }
    for place in 0..ours.len() {
        if ours[place] != theirs[place] {
            return false;
        }
    }
    true
}

fn time_of(key: Option<TimeKey>) -> Option<RowTime>
    ensures { result ≡ option_map row_time key }
{
    match key {
        Some(key) => Some(RowTime {
            fact: key.fact,
            event: key.event,
            span: key.span,
        }),
        None => None,
    }
}

fn sides_of(alloc: Global, keys: &[JoinKey]) -> Result<Vec<JoinSide>, NoMemory>
    ensures { IfOk result (λ sides. sides.items ≡ map row_side_of keys.now) }
{
    let mut sides = Vec::new(alloc);
    for key in keys {
        sides.push(key.side)?;
    }
    Ok(sides)
}
