//! What a row or a candidate has of an equality.
ghost use Rattle.std.specs.Prelude.{◌≡◌, option_map};
ghost use Rattle.rule_model.specs.Lent.{bound_in};
ghost use Rattle.rule_model.specs.Tests.{number_given};
ghost use Rattle.join_tests.specs.Keys.{earlier_value, given_or_true};
ghost use Rattle.join_tests.specs.JoinValues.{shown};
ghost use Rattle.join_tests.specs.Keying.{part};

use crate::join_value::JoinValue;
use crate::key::{JoinKey, JoinSide};
use crate::row_facts::{field_value, named_fact};
use fx_base::{Fact, Facts, Value};
use row_delta::Row;

/// Whose values are asked for: those that a row has bound, or those of a candidate, where it is at hand.
#[derive(Clone, Copy)]
pub(crate) enum Partner<'r, 'a> {
    OfRow(&'r Row),
    OfCandidate(Option<&'a Fact>),
}

/// What a row or a candidate has of an equality. Takes no memory.
pub(crate) fn part_of<'a, F: Facts>(
    partner: Partner<'_, 'a>,
    key: JoinKey,
    facts: &'a F,
) -> JoinValue<'a>
    ensures { shown result ≡ part (F.map facts.now) partner.entry key }
{
    match partner {
        Partner::OfRow(row) => side_value(key.side, row, facts),
        Partner::OfCandidate(fact) => lent_or_true(field_value(fact, key.field)),
    }
}

/// What a row has of a side. Takes no memory.
pub(crate) fn side_value<'a, F: Facts>(side: JoinSide, row: &Row, facts: &'a F) -> JoinValue<'a>
    ensures { shown result ≡ given_or_true (earlier_value (bound_in (F.map facts.now) row.now) side) }
{
    match side {
        JoinSide::Field { fact, field } => {
            lent_or_true(field_value(named_fact(row, fact, facts), field))
        }
        JoinSide::Accumulated(place) => {
            JoinValue::Made(number_or_true(row.values.as_slice().get(place as usize).copied()))
        }
    }
}

fn lent_or_true<'a>(value: Option<&'a Value>) -> JoinValue<'a>
    ensures { shown result ≡ given_or_true (option_map (λ v. v.now) value.entry) }
{
    match value {
        Some(value) => JoinValue::Lent(value),
        None => JoinValue::Made(Value::Bool(true)),
    }
}

pub(crate) fn number_or_true(number: Option<i64>) -> Value
    ensures { result ≡ given_or_true (number_given number) }
{
    match number {
        Some(number) => Value::Int(number),
        None => Value::Bool(true),
    }
}
