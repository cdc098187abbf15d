ghost use Rattle.std.specs.Prelude.{◌≡◌, IfOk};
ghost use Rattle.rule_model.specs.Lent.{lent};
ghost use Rattle.rule_model.specs.Rows.{argument as argument_of, result_of};
ghost use Rattle.rule_model.specs.Tests.{result_holds, results_hold};
ghost use Rattle.rule_model.specs.Tuples.{bound_by};

use crate::bindings::Bindings;
use fold_fn::{AnyFold, Fold};
use fx_base::{Fact, NoMemory, Value};
use rule_model::{Accumulate, ResultTest, Side};
use std::alloc::Global;

// What a function takes of a fact: the whole number in the field of this place.
fn argument(field: Option<u8>, fact: &Fact) -> i64
    ensures { result ≡ argument_of field fact.now }
{
    match field {
        Some(field) => match fact.fields.as_slice().get(field as usize) {
            Some(Value::Int(number)) => *number,
            Some(_) | None => 0,
        },
        None => 0,
    }
}

/// What the function of an accumulate gives of these facts.
pub(crate) fn result_of(
    alloc: Global,
    accumulate: &Accumulate,
    facts: &[&Fact],
) -> Result<Option<i64>, NoMemory>
    ensures { IfOk result (λ found. found ≡ result_of accumulate.now (lent facts.now)) }
{
    let mut fold = AnyFold::new(alloc, accumulate.kind);
    for fact in facts {
        fold.add(argument(accumulate.arg, fact))?;
    }
    Ok(fold.result())
}

fn does_hold(bindings: &Bindings, value: i64, test: &ResultTest) -> bool
    ensures { result ≡ result_holds (bound_by bindings.now) value test.now }
{
    let left = Value::Int(value);
    match &test.against {
        Side::Lit(literal) => test.rel.holds(&left, literal),
        Side::Own(_) => false,
        Side::Of { fact, field } => match bindings.fact(*fact as usize) {
            Some(fact) => match fact.fields.as_slice().get(*field as usize) {
                Some(right) => test.rel.holds(&left, right),
                None => false,
            },
            None => false,
        },
        Side::Result(place) => match bindings.result(*place as usize) {
            Some(number) => test.rel.holds(&left, &Value::Int(number)),
            None => false,
        },
    }
}

/// Whether all tests hold of a result.
pub(crate) fn do_hold(bindings: &Bindings, value: i64, tests: &[ResultTest]) -> bool
    ensures { result ≡ results_hold (bound_by bindings.now) value tests.now }
{
    tests.iter().all(|test| does_hold(bindings, value, test))
}
