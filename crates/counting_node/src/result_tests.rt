ghost use Rattle.std.specs.Prelude.{◌≡◌, Some, option_map};
ghost use Rattle.rule_model.specs.Lent.{bound_in};
ghost use Rattle.rule_model.specs.Tests.{related_given, result_holds, results_hold};

use fx_base::{Facts, Value};
use join_tests::{field_value, named_fact};
use row_delta::Row;
use rule_model::{RelTag, ResultTest, Side};

/// Whether all tests hold of a result, for what a row bound. Takes no memory.
pub(crate) fn do_hold<F: Facts>(row: &Row, facts: &F, value: i64, tests: &[ResultTest]) -> bool
    ensures { result ≡ results_hold (bound_in (F.map facts.now) row.now) value tests.now }
{
    tests.iter().all(|test| does_hold(row, facts, value, test))
}

fn does_hold<F: Facts>(row: &Row, facts: &F, value: i64, test: &ResultTest) -> bool
    ensures { result ≡ result_holds (bound_in (F.map facts.now) row.now) value test.now }
{
    let left = Value::Int(value);
    match &test.against {
        Side::Lit(literal) => test.rel.holds(&left, literal),
        Side::Own(_) => false,
        Side::Of { fact, field } => {
            is_related(
                test.rel,
                &left,
                field_value(named_fact(row, *fact, facts), *field),
            )
        }
        Side::Result(place) => match row.values.as_slice().get(*place as usize) {
            Some(number) => test.rel.holds(&left, &Value::Int(*number)),
            None => false,
        },
    }
}

fn is_related(rel: RelTag, left: &Value, right: Option<&Value>) -> bool
    ensures { result ≡ related_given rel (Some left.now) (option_map (λ v. v.now) right.entry) }
{
    match right {
        Some(right) => rel.holds(left, right),
        None => false,
    }
}
