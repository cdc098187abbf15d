//! The number by which rows and candidates find each other, where a pattern asks for several equalities.
ghost use Rattle.std.specs.Prelude.{◌≡◌, [], ◌∷◌, map, fold};
ghost use Rattle.std.specs.Int.{w64, cast_signed};
ghost use Rattle.std.specs.Hash.FoldHasher as hasher;
ghost use Rattle.join_tests.specs.Keys.{keys_of_compares, keys_of_choices, keys_of_tests, join_keys, writes, fed_with, number_for};
ghost use Rattle.join_tests.specs.Keying.{part};

use crate::key::key_of_compare;
use crate::part::{Partner, part_of};
use fx_base::{Facts, Seq, Value};
use rule_model::{Compare, Pattern, Test};
use std::hash::{FoldHasher, Hash, Hasher};

/// The number for the values of all equalities that a pattern asks for. It takes no memory, and costs a walk over the tests,
/// and for a row a look-up for each equality.
#[tactic(auto, unfolding(crate::specs::Keys::number_for))]
pub(crate) fn number_of<F: Facts>(pattern: &Pattern, partner: Partner<'_, '_>, facts: &F) -> Value
    ensures { result ≡ Value.Int (number_for (map (part (F.map facts.now) partner.entry) (join_keys pattern.now))) }
{
    number_fed(parts_fed(pattern, partner, facts))
}

/// A hash that is fed with these values. It costs the same.
#[tactic(auto, unfolding(crate::specs::Keys::join_keys))]
pub(crate) fn parts_fed<F: Facts>(
    pattern: &Pattern,
    partner: Partner<'_, '_>,
    facts: &F,
) -> FoldHasher
    ensures { result ≡ fed_with hasher.initial (map (part (F.map facts.now) partner.entry) (join_keys pattern.now)) }
{
    let mut state = FoldHasher::default();
    feed_tests(pattern.joined.as_slice(), partner, facts, &mut state);
    state
}

/// The number of a hash. Takes no memory.
pub(crate) fn number_fed(fed: FoldHasher) -> Value
    ensures { result ≡ Value.Int (cast_signed w64 (hasher.finish fed)) }
{
    Value::Int(fed.finish().cast_signed())
}

/// The number of a hash that is fed with one value more. Takes no memory.
pub(crate) fn number_with(fed: FoldHasher, value: &Value) -> Value
    ensures { result ≡ Value.Int (cast_signed w64 (hasher.finish (fed_with fed (value.now ∷ [])))) }
{
    let mut state = fed;
    feed(value, &mut state);
    number_fed(state)
}

fn feed_tests<F: Facts>(tests: &[Test], partner: Partner<'_, '_>, facts: &F, state: &mut FoldHasher)
    ensures { state.new ≡ fed_with state.old (map (part (F.map facts.now) partner.entry) (keys_of_tests tests.now)) }
{
    for test in tests {
        feed_choices(test.choices.as_slice(), partner, facts, state);
    }
}

fn feed_choices<F: Facts>(
    choices: &[Seq<Compare>],
    partner: Partner<'_, '_>,
    facts: &F,
    state: &mut FoldHasher,
)
    ensures { state.new ≡ fed_with state.old (map (part (F.map facts.now) partner.entry) (keys_of_choices choices.now)) }
{
    match choices {
        [choice] => feed_compares(choice.as_slice(), partner, facts, state),
        _ => {}
    }
}

fn feed_compares<F: Facts>(
    compares: &[Compare],
    partner: Partner<'_, '_>,
    facts: &F,
    state: &mut FoldHasher,
)
    ensures { state.new ≡ fed_with state.old (map (part (F.map facts.now) partner.entry) (keys_of_compares compares.now)) }
{
    for compare in compares {
        match key_of_compare(compare) {
            Some(key) => feed(part_of(partner, key, facts).value(), state),
            None => {}
        }
    }
}

/// Feeds a value to a hash. Takes no memory.
pub(crate) fn feed(value: &Value, state: &mut FoldHasher)
    ensures { state.new ≡ fold hasher.write state.old (writes value.now) }
{
    match value {
        Value::Int(number) => number.hash(state),
        Value::Bool(flag) => flag.hash(state),
        Value::Text(text) => text.hash(state),
    }
}
