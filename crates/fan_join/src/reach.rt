//! Under which values the members of a fan are found.
ghost use Rattle.std.specs.Prelude.{◌≡◌, ◌<◌, ℕ, true, is_some, IfOk, OnOk};
ghost use Rattle.std.specs.Ordering.{nat_cmp};
ghost use Rattle.fx_base.specs.declared.value.Value.{Value as ValueData};
ghost use Rattle.fx_base.specs.Values.{same_value};
ghost use Rattle.row_delta.specs.declared.row.Named.{Named as NamedData};
ghost use Rattle.row_delta.specs.NameOrder.{name_cmp};
ghost use Rattle.alpha_memory.specs.Bucket.{found};
ghost use Rattle.alpha_memory.specs.JoinIndex.{at};
ghost use Rattle.join_tests.specs.Kept.{candidate_value};
ghost use Rattle.join_memory.specs.Joined.{has_name};
ghost use Rattle.fan_join.specs.Reaching.{has_place, is_member_under, AreAmong};

use alpha_memory::{Bucket, JoinIndex};
use fx_base::{Facts, NoMemory, Value};
use join_memory::Candidates;
use join_tests::RowKey;
use row_delta::{Named, Row};
use std::alloc::Global;
use std::collections::BTreeSet;

/// All places before a count.
pub(crate) fn all_places(alloc: Global, count: usize) -> Result<BTreeSet<usize, Global>, NoMemory>
    ensures { IfOk result (λ places. (k : ℕ) → k < count → has_place places.keys k ≡ true) }
{
    let mut places = BTreeSet::new(alloc);
    for place in 0..count {
        places.insert(place)?;
    }
    Ok(places)
}

/// Adds the places of the members that are found under the values of rows. It costs a hash for each row, and the logarithm of the
/// places for each member.
pub(crate) fn add_reached<F: Facts>(
    places: &mut BTreeSet<usize, Global>,
    reached: &JoinIndex<Value, usize, ()>,
    key: &RowKey,
    rows: &[Row],
    facts: &F,
) -> Result<(), NoMemory>
    ensures stays { OnOk result ((k : ℕ) → has_place places.old.keys k ≡ true → has_place places.new.keys k ≡ true) }
    ensures among { OnOk result (AreAmong key.now reached.now (F.map facts.now) rows.now places.new.keys) }
{
    for row in rows {
        let value = key.row_value(row, facts);
        add_under(places, reached, value.value())?;
    }
    Ok(())
}

/// Adds the places of the members that are found under a value.
fn add_under(
    places: &mut BTreeSet<usize, Global>,
    reached: &JoinIndex<Value, usize, ()>,
    value: &Value,
) -> Result<(), NoMemory>
    ensures stays { OnOk result ((k : ℕ) → has_place places.old.keys k ≡ true → has_place places.new.keys k ≡ true) }
    ensures added { OnOk result ((k : ℕ) → is_member_under reached.now value.now k ≡ true → has_place places.new.keys k ≡ true) }
{
    match reached.bucket(value) {
        Some(bucket) => add_places(places, bucket),
        None => Ok(()),
    }
}

/// Adds the places of a bucket.
fn add_places(
    places: &mut BTreeSet<usize, Global>,
    bucket: &Bucket<usize, ()>,
) -> Result<(), NoMemory>
    ensures stays { OnOk result ((k : ℕ) → has_place places.old.keys k ≡ true → has_place places.new.keys k ≡ true) }
    ensures added { OnOk result ((k : ℕ) → is_some (found nat_cmp bucket.now k) ≡ true → has_place places.new.keys k ≡ true) }
{
    match bucket {
        Bucket::One(place, ()) => {
            places.insert(*place)?;
        }
        Bucket::Many(ordered) => {
            for place in ordered.keys() {
                places.insert(*place)?;
            }
        }
    }
    Ok(())
}

/// The member in a place is found under the values of candidates that came to it. It costs a hash for each.
pub(crate) fn put_values<F: Facts>(
    reached: &mut JoinIndex<Value, usize, ()>,
    alloc: Global,
    member: &Candidates,
    place: usize,
    come: &[Named],
    facts: &F,
) -> Result<(), NoMemory>
    ensures stays { OnOk result ((value : ValueData) (k : ℕ) → is_member_under reached.old value k ≡ true → is_member_under reached.new value k ≡ true) }
    ensures put { OnOk result ((who : NamedData) → has_name come.now who ≡ true → is_member_under reached.new (candidate_value member.now.pattern (F.map facts.now) who) place ≡ true) }
{
    for who in come {
        let value = member.value(*who, facts).into_value(alloc)?;
        reached.put(value, place, ())?;
    }
    Ok(())
}

/// The member in a place is no more found under the values of candidates that went from it, where it keeps none under them. It takes no
/// memory, and costs a hash or two for each.
pub(crate) fn take_values<F: Facts>(
    reached: &mut JoinIndex<Value, usize, ()>,
    member: &Candidates,
    place: usize,
    gone: &[Named],
    facts: &F,
)
    ensures { (value : ValueData) (k : ℕ) → (k ≡ place → (who : NamedData) × (is_some (at same_value name_cmp member.now.names value who) ≡ true))
        → is_member_under reached.old value k ≡ true → is_member_under reached.new value k ≡ true }
{
    for who in gone {
        let value = member.value(*who, facts);
        take_value(reached, member, place, value.value());
    }
}

/// The member in a place is no more found under a value, if it keeps no candidate under it.
fn take_value(
    reached: &mut JoinIndex<Value, usize, ()>,
    member: &Candidates,
    place: usize,
    value: &Value,
)
    ensures { (v : ValueData) (k : ℕ) → (k ≡ place → (who : NamedData) × (is_some (at same_value name_cmp member.now.names v who) ≡ true))
        → is_member_under reached.old v k ≡ true → is_member_under reached.new v k ≡ true }
{
    if member.has_under(value) {
        return;
    }
    reached.take(value, &place);
}
