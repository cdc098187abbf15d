ghost use Rattle.std.specs.Prelude.{◌≡◌, map};
ghost use Rattle.join_tests.specs.Joins.{joins};
ghost use Rattle.join_tests.specs.Keys.{join_keys, candidate_part, as_one};
ghost use Rattle.join_tests.specs.Keying.{keying_of, part};
ghost use Rattle.join_tests.specs.JoinValues.{shown};
ghost use Rattle.join_tests.specs.Kept.{with_slot, once, row_value, candidate_value, rows_sought, candidates_sought, all_sought, own_value, values_seen};

use crate::join_value::JoinValue;
use crate::joins::does_join;
use crate::key::{Keying, keying_of_tests};
use crate::number::{number_of, number_with, parts_fed};
use crate::part::{Partner, part_of};
use crate::row_facts::named_fact;
use crate::slot::moment_at;
use crate::sought::{Sight, Sought, once};
use crate::time_key::{TimeKey, key_of_times};
use fx_base::{Facts, Value};
use row_delta::{Named, Row};
use rule_model::Pattern;
use std::marker::Model;

/// A pattern, with its equality at hand, where it asks for one alone, and with its range of time, where it has one. Contracts
/// see the pattern.
#[derive(Drop)]
pub struct KeyedPattern {
    pattern: Pattern,
    keying: Keying,
    time: Option<TimeKey>,
}

impl Model for KeyedPattern {
    ghost use Rattle.rule_model.specs.declared.condition.Pattern.{Pattern};

    ghost Value = { Pattern };

    ghost use Rattle.std.specs.Coded.{codes};

    ghost coded = { Prim.hlevel codes };

    ghost view = { λ k. k.pattern };

    ghost use Rattle.std.specs.Prelude.{◌≡◌};
    ghost use Rattle.join_tests.specs.Keys.{join_keys};
    ghost use Rattle.join_tests.specs.Keying.{keying_of};
    ghost use Rattle.join_tests.specs.TimeKeys.{time_key};

    ghost invariant = { λ k. (k.keying ≡ keying_of (join_keys k.pattern)) × (k.time ≡ time_key k.pattern) };
}

impl KeyedPattern {
    /// The pattern, whose equalities are counted once, and whose range of time is looked for once. Takes no memory.
    #[tactic(auto, unfolding(crate::specs::Keys::join_keys, crate::specs::TimeKeys::time_key))]
    pub fn new(pattern: Pattern) -> KeyedPattern
        ensures { result ≡ pattern }
    {
        let keying = keying_of_tests(pattern.joined.as_slice());
        let time = key_of_times(pattern.times.as_slice());
        KeyedPattern {
            pattern,
            keying,
            time,
        }
    }

    /// The pattern. Takes no memory.
    pub fn pattern(&self) -> &Pattern
        ensures { result.now ≡ self.now }
    {
        &self.pattern
    }

    /// The value under which a row is kept. It takes no memory, and costs a look-up for each equality and for a range of time, and
    /// where there are several of these a walk over the tests.
    pub fn row_value<'a, F: Facts>(&self, row: &Row, facts: &'a F) -> JoinValue<'a>
        ensures { shown result ≡ row_value self.now (F.map facts.now) row.now }
    {
        let partner = Partner::OfRow(row);
        match self.time {
            None => value_of(self.keying, &self.pattern, partner, facts),
            Some(key) => {
                let moment = moment_at(key.event, named_fact(row, key.fact, facts));
                let slot = key.slot(moment);
                JoinValue::Made(slotted(self.keying, &self.pattern, partner, facts, slot))
            }
        }
    }

    /// The value under which a candidate is kept. It takes no memory, and costs a look-up where there are equalities or a range of
    /// time, and where there are several of these a walk over the tests.
    pub fn candidate_value<'a, F: Facts>(&self, who: Named, facts: &'a F) -> JoinValue<'a>
        ensures { shown result ≡ candidate_value self.now (F.map facts.now) who }
    {
        match self.time {
            None => self.equal_to_candidate(who, facts),
            Some(key) => {
                let fact = facts.fact(who.tag);
                let slot = key.slot(moment_at(key.own, fact));
                let partner = Partner::OfCandidate(fact);
                JoinValue::Made(slotted(self.keying, &self.pattern, partner, facts, slot))
            }
        }
    }

    /// The value under which a candidate is kept, and those of the rows that it may join: one, or two where there is a range of time. It
    /// costs what the candidate's own value does, and where there is a range of time, a hash for each slot.
    pub fn sight<'a, F: Facts>(&self, who: Named, facts: &'a F) -> Sight<'a>
        ensures own { own_value result ≡ candidate_value self.now (F.map facts.now) who }
        ensures sought { values_seen result ≡ rows_sought self.now (F.map facts.now) who }
    {
        match self.time {
            None => Sight::Alike(self.equal_to_candidate(who, facts)),
            Some(key) => {
                let fact = facts.fact(who.tag);
                let moment = moment_at(key.own, fact);
                let own = key.slot(moment);
                let (first, last) = key.event_slots(moment);
                let partner = Partner::OfCandidate(fact);
                sight_slotted(self.keying, &self.pattern, partner, facts, own, first, last)
            }
        }
    }

    /// The values of the candidates that may join a row: one, or two where there is a range of time. It costs what the row's own
    /// value does.
    pub fn candidates_sought<'a, F: Facts>(&self, row: &Row, facts: &'a F) -> Sought<'a>
        ensures { all_sought result ≡ candidates_sought self.now (F.map facts.now) row.now }
    {
        let partner = Partner::OfRow(row);
        match self.time {
            None => Sought::One(value_of(self.keying, &self.pattern, partner, facts)),
            Some(key) => {
                let moment = moment_at(key.event, named_fact(row, key.fact, facts));
                let (first, last) = key.candidate_slots(moment);
                both_slotted(self.keying, &self.pattern, partner, facts, first, last)
            }
        }
    }

    /// The value of the equalities that a candidate has.
    fn equal_to_candidate<'a, F: Facts>(&self, who: Named, facts: &'a F) -> JoinValue<'a>
        ensures { shown result ≡ as_one (map (candidate_part (F.map facts.now) who) (join_keys self.now)) }
    {
        match self.keying {
            Keying::Nothing => JoinValue::Made(Value::Bool(true)),
            keying => {
                let fact = facts.fact(who.tag);
                value_of(keying, &self.pattern, Partner::OfCandidate(fact), facts)
            }
        }
    }

    /// Whether the candidate that is named joins a row, by the facts that are at hand. It takes no memory, and costs the
    /// tests, and a look-up of each fact where they hold.
    pub fn joins<F: Facts>(&self, row: &Row, who: Named, facts: &F) -> bool
        ensures { result ≡ joins self.now (F.map facts.now) row.now who }
    {
        does_join(&self.pattern, facts, row, who)
    }
}

/// The join value of a row or a candidate, for a pattern whose equalities are counted.
fn value_of<'a, F: Facts>(
    keying: Keying,
    pattern: &Pattern,
    partner: Partner<'_, 'a>,
    facts: &'a F,
) -> JoinValue<'a>
    requires { keying ≡ keying_of (join_keys pattern.now) }
    ensures { shown result ≡ as_one (map (part (F.map facts.now) partner.entry) (join_keys pattern.now)) }
{
    match keying {
        Keying::Nothing => JoinValue::Made(Value::Bool(true)),
        Keying::One(key) => part_of(partner, key, facts),
        Keying::Several => JoinValue::Made(number_of(pattern, partner, facts)),
    }
}

/// The same with a slot of time behind the equalities.
fn slotted<F: Facts>(
    keying: Keying,
    pattern: &Pattern,
    partner: Partner<'_, '_>,
    facts: &F,
    slot: Value,
) -> Value
    requires { keying ≡ keying_of (join_keys pattern.now) }
    ensures { result ≡ with_slot (map (part (F.map facts.now) partner.entry) (join_keys pattern.now)) slot }
{
    match keying {
        Keying::Nothing => slot,
        Keying::One(_) | Keying::Several => number_with(parts_fed(pattern, partner, facts), &slot),
    }
}

/// The same with two slots, each in turn.
fn both_slotted<'a, F: Facts>(
    keying: Keying,
    pattern: &Pattern,
    partner: Partner<'_, '_>,
    facts: &F,
    first: Value,
    last: Value,
) -> Sought<'a>
    requires { keying ≡ keying_of (join_keys pattern.now) }
    ensures { all_sought result ≡ once (with_slot (map (part (F.map facts.now) partner.entry) (join_keys pattern.now)) first)
        (with_slot (map (part (F.map facts.now) partner.entry) (join_keys pattern.now)) last) }
{
    match keying {
        Keying::Nothing => once(first, last),
        Keying::One(_) | Keying::Several => {
            let fed = parts_fed(pattern, partner, facts);
            once(number_with(fed, &first), number_with(fed, &last))
        }
    }
}

/// The same with three slots, each in turn: one to be kept under, and two to be sought under.
fn sight_slotted<'a, F: Facts>(
    keying: Keying,
    pattern: &Pattern,
    partner: Partner<'_, '_>,
    facts: &F,
    own: Value,
    first: Value,
    last: Value,
) -> Sight<'a>
    requires { keying ≡ keying_of (join_keys pattern.now) }
    ensures own { own_value result ≡ with_slot (map (part (F.map facts.now) partner.entry) (join_keys pattern.now)) own }
    ensures sought { values_seen result ≡ once (with_slot (map (part (F.map facts.now) partner.entry) (join_keys pattern.now)) first)
        (with_slot (map (part (F.map facts.now) partner.entry) (join_keys pattern.now)) last) }
{
    match keying {
        Keying::Nothing => Sight::Apart(own, once(first, last)),
        Keying::One(_) | Keying::Several => {
            let fed = parts_fed(pattern, partner, facts);
            let kept = number_with(fed, &own);
            Sight::Apart(
                kept,
                once(number_with(fed, &first), number_with(fed, &last)),
            )
        }
    }
}
