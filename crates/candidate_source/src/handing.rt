//! Candidates are handed to the nodes that they concern.
ghost use Rattle.std.specs.Prelude.{◌≡◌, ◌&&◌, not, option_map, OnOk};
ghost use Rattle.std.specs.Ordering.{eq_by_cmp, nat_cmp};
ghost use Rattle.std.specs.Map.{keys_of};
ghost use Rattle.candidate_source.specs.Handed.{IsHandedTo};
ghost use Rattle.join_tests.specs.Kept.{values_seen};
ghost use Rattle.candidate_source.specs.Reached.{has_place, is_under, is_under_given, is_under_one, is_sought};

use crate::handed::{Handed, Turned, hand_to};
use alpha_memory::{Bucket, JoinIndex};
use fx_base::{NoMemory, Value};
use join_tests::Sight;
use std::alloc::Global;
use std::collections::BTreeMap;

/// Hands a candidate, where there is a sight, which is its own, to each node that is found under one of the values of rows that are sought.
/// It costs a hash for each value, and for each of these nodes the logarithm of those to which anything is handed.
pub(crate) fn hand(
    handed: &mut BTreeMap<usize, Handed>,
    alloc: Global,
    reached: &JoinIndex<Value, usize, ()>,
    turned: Turned,
    sight: Option<Sight<'_>>,
) -> Result<(), NoMemory>
    ensures { OnOk result (IsHandedTo turned (is_sought reached.now sight.entry) handed.old handed.new) }
{
    match sight {
        Some(sight) => hand_seen(handed, alloc, reached, turned, &sight),
        None => Ok(()),
    }
}

fn hand_seen(
    handed: &mut BTreeMap<usize, Handed>,
    alloc: Global,
    reached: &JoinIndex<Value, usize, ()>,
    turned: Turned,
    sight: &Sight<'_>,
) -> Result<(), NoMemory>
    ensures { OnOk result (IsHandedTo turned (is_under_one reached.now (values_seen sight.now)) handed.old handed.new) }
{
    let (value, other) = sight.sought();
    hand_under(handed, alloc, reached, turned, value, None)?;
    match other {
        Some(second) => hand_under(handed, alloc, reached, turned, second, Some(value)),
        None => Ok(()),
    }
}

/// Hands a candidate to each node that is found under a value, but for those that are found under another value too, where one is given.
fn hand_under(
    handed: &mut BTreeMap<usize, Handed>,
    alloc: Global,
    reached: &JoinIndex<Value, usize, ()>,
    turned: Turned,
    value: &Value,
    besides: Option<&Value>,
) -> Result<(), NoMemory>
    ensures { OnOk result (IsHandedTo turned (λ k. is_under reached.now value.now k && not (is_under_given reached.now (option_map (λ v. v.now) besides.entry) k)) handed.old handed.new) }
{
    match reached.bucket(value) {
        Some(Bucket::One(place, ())) => hand_beside(
            handed, alloc, reached, turned, *place, besides,
        ),
        Some(Bucket::Many(places)) => hand_each(handed, alloc, reached, turned, places, besides),
        None => Ok(()),
    }
}

fn hand_each(
    handed: &mut BTreeMap<usize, Handed>,
    alloc: Global,
    reached: &JoinIndex<Value, usize, ()>,
    turned: Turned,
    places: &BTreeMap<usize, ()>,
    besides: Option<&Value>,
) -> Result<(), NoMemory>
    ensures { OnOk result (IsHandedTo turned (λ k. has_place (keys_of places.now.entries) k && not (is_under_given reached.now (option_map (λ v. v.now) besides.entry) k)) handed.old handed.new) }
{
    for place in places.keys() {
        hand_beside(handed, alloc, reached, turned, *place, besides)?;
    }
    Ok(())
}

/// Hands a candidate to the node in a place, unless it is found under a value, where one is given.
fn hand_beside(
    handed: &mut BTreeMap<usize, Handed>,
    alloc: Global,
    reached: &JoinIndex<Value, usize, ()>,
    turned: Turned,
    place: usize,
    besides: Option<&Value>,
) -> Result<(), NoMemory>
    ensures { OnOk result (IsHandedTo turned (λ k. eq_by_cmp nat_cmp place k && not (is_under_given reached.now (option_map (λ v. v.now) besides.entry) k)) handed.old handed.new) }
{
    if is_under_given(reached, besides, place) {
        return Ok(());
    }
    hand_to(handed, alloc, place, turned)
}

/// Whether the node in a place is found under a value, where one is given.
fn is_under_given(
    reached: &JoinIndex<Value, usize, ()>,
    value: Option<&Value>,
    place: usize,
) -> bool
    ensures { result ≡ is_under_given reached.now (option_map (λ v. v.now) value.entry) place }
{
    match value {
        Some(value) => reached.get(value, &place).is_some(),
        None => false,
    }
}
