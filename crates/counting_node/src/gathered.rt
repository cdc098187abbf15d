ghost use Rattle.std.specs.Prelude.{◌≡◌, ◌++◌, ℤ, List, IfOk};
ghost use Rattle.rule_model.specs.Rows.{argument};
ghost use Rattle.std.specs.Ordering.{int_eq};
ghost use Rattle.fold_fn.specs.Order.{insert_rising, in_rising_order};
ghost use Rattle.counting_node.specs.Gathers.{argument_of};

use crate::result_tests::do_hold;
use crate::{Beyond, Tally};
use fold_fn::{AnyFold, Fold};
use fx_base::{Copies, Fact, Facts, NoMemory, Seq, Value};
use row_delta::{Extra, Named, Row};
use rule_model::Accumulate;
use std::alloc::Global;
use std::marker::Model;

/// The most values that a fold may hold.
const FULL: u64 = 9_223_372_036_854_775_807;

/// The tally of an `accumulate`: what its function holds of the candidates that pass, seen as its kind and its values in rising
/// order. It takes back only what it holds.
#[derive(Drop)]
pub struct Gathered {
    fold: AnyFold,
}

impl Model for Gathered {
    ghost use Rattle.fold_fn.specs.Held.{Held};

    ghost Value = { Held };

    ghost view = { λ g. g.fold };
}

impl Gathered {
    /// One value more; a fold that is full is refused memory.
    fn with_value(self, value: i64) -> Result<Gathered, NoMemory>
        ensures kind { IfOk result (λ now. now.kind ≡ self.kind) }
        ensures values { IfOk result (λ now. now.values ≡ insert_rising value self.values) }
    {
        let Gathered { mut fold } = self;
        if fold.count() >= FULL {
            return Err(NoMemory);
        }
        fold.add(value)?;
        Ok(Gathered { fold })
    }

    /// These values more; a fold that is full is refused memory.
    fn with_values(self, values: &[i64]) -> Result<Gathered, NoMemory>
        ensures kind { IfOk result (λ now. now.kind ≡ self.kind) }
        ensures values { IfOk result (λ now. (held : List ℤ) → self.values ≡ in_rising_order held → now.values ≡ in_rising_order (held ++ values.now)) }
    {
        let mut now = self;
        for value in values {
            now = now.with_value(*value)?;
        }
        Ok(now)
    }

    /// One value less, where it holds it.
    fn without_value(self, value: i64) -> Gathered
        ensures kind { result.kind ≡ self.kind }
        ensures values { (rest : List ℤ) → self.values ≡ insert_rising value rest → result.values ≡ rest }
    {
        if !self.fold.holds(value) {
            return self;
        }
        let Gathered { mut fold } = self;
        fold.take_back(value);
        Gathered { fold }
    }
}

fn is_same(a: i64, b: i64) -> bool
    ensures { result ≡ int_eq a b }
{
    a == b
}

/// The values of a rising list that a rising part of it leaves.
fn values_beyond(alloc: Global, values: &[i64], part: &[i64]) -> Result<Vec<i64>, NoMemory>
    ensures { IfOk result (λ rest. (xs ys : List ℤ) → values.now ≡ in_rising_order (xs ++ ys) → part.now ≡ in_rising_order xs → rest.items ≡ in_rising_order ys) }
{
    let mut rest = Vec::new(alloc);
    let mut next = 0;
    for value in values {
        if next < part.len() && is_same(part[next], *value) {
            next += 1;
        } else {
            rest.push(*value)?;
        }
    }
    Ok(rest)
}

/// What an accumulate takes of a candidate: the whole number in the field of this place, and else 0.
fn taken_of<F: Facts>(accumulate: &Accumulate, who: Named, facts: &F) -> i64
    ensures { result ≡ argument_of accumulate.now (F.map facts.now) who }
{
    match facts.fact(who.tag) {
        Some(fact) => taken_in(accumulate.arg, fact),
        None => 0,
    }
}

fn taken_in(field: Option<u8>, fact: &Fact) -> i64
    ensures { result ≡ argument field fact.now }
{
    match field {
        Some(field) => match fact.fields.as_slice().get(field as usize) {
            Some(Value::Int(number)) => *number,
            Some(_) | None => 0,
        },
        None => 0,
    }
}

impl Tally for Gathered {
    ghost use Rattle.counting_node.specs.Gathers.{gathers, result_for};
    ghost use Rattle.counting_node.specs.Extras.{gathered_laden, arguments_gathered};
    ghost use Rattle.join_memory.specs.Valued.{without_value, shows_value};

    type Plan = Accumulate;

    ghost holds = { gathers };

    ghost output = { result_for };

    ghost origin = { without_value };

    ghost gives = { shows_value };

    ghost laden = { gathered_laden };

    ghost gathered = { arguments_gathered };

    fn none(alloc: Global, plan: &Accumulate) -> Gathered {
        Gathered {
            fold: AnyFold::new(alloc, plan.kind),
        }
    }

    fn add<F: Facts>(
        self,
        _alloc: Global,
        plan: &Accumulate,
        who: Named,
        facts: &F,
    ) -> Result<Gathered, NoMemory> {
        let now = self.with_value(taken_of(plan, who, facts))?;
        Ok(now)
    }

    fn take<F: Facts>(
        self,
        _alloc: Global,
        plan: &Accumulate,
        who: Named,
        facts: &F,
    ) -> Result<Gathered, NoMemory> {
        Ok(self.without_value(taken_of(plan, who, facts)))
    }

    fn with_extra(self, _plan: &Accumulate, extra: &Extra) -> Result<Gathered, NoMemory> {
        let now = self.with_values(extra.values.as_slice())?;
        Ok(now)
    }

    fn beyond(
        &self,
        alloc: Global,
        _plan: &Accumulate,
        part: &Gathered,
    ) -> Result<Beyond, NoMemory> {
        let values = self.fold.values(alloc)?;
        let kept = part.fold.values(alloc)?;
        let rest = values_beyond(alloc, values.as_slice(), kept.as_slice())?;
        Ok(Beyond {
            count: rest.len() as u64,
            values: Seq::from_vec(rest),
        })
    }

    fn output<F: Facts>(&self, plan: &Accumulate, row: &Row, facts: &F) -> Option<i64> {
        match self.fold.result() {
            Some(value) => {
                if do_hold(row, facts, value, plan.tests.as_slice()) {
                    Some(value)
                } else {
                    None
                }
            }
            None => None,
        }
    }

    fn made(alloc: Global, row: &Row, value: i64) -> Result<Row, NoMemory> {
        let copy = row.copy(alloc)?;
        let Row { facts, values } = copy;
        let mut values = values.into_vec();
        values.push(value)?;
        Ok(Row {
            facts,
            values: Seq::from_vec(values),
        })
    }
}
