ghost use Rattle.std.specs.Prelude.{◌≡◌, ◌&&◌, ◌≤ℤ◌, ◌<ℤ◌, ℤ, Bool, true, Some, FitsSigned, IfSome};
ghost use Rattle.std.specs.Int.{w64};
ghost use Rattle.std.specs.Int.{int_max, int_min};
ghost use Rattle.fx_base.specs.declared.fact.Fact.{Fact as FactData};
ghost use Rattle.fx_base.specs.declared.value.Value.{Value as ValueData};
ghost use Rattle.fx_base.specs.declared.value.Value.TheVariants.{Int};
ghost use Rattle.rule_model.specs.Tests.{compare_holds, compares_hold, related, tests_hold};
ghost use Rattle.rule_model.specs.Tuples.{unbound};
ghost use Rattle.rete_net.specs.Bounds.{AreWithin, HasValue};
ghost use Rattle.rete_net.specs.Selectors.{choices_hold};

use fx_base::{Seq, Value};
use rule_model::{Compare, RelTag, Side, Test};

/// The whole numbers that a field, by its place, has in each fact that passes the constant tests: from the least to the most.
#[derive(Clone, Copy)]
pub(crate) struct FieldRange {
    pub(crate) field: usize,
    pub(crate) least: i64,
    pub(crate) most: i64,
}

/// The range of the first field that these tests bound, by all comparisons of this field by an order with a literal that each fact has to pass.
/// Takes no memory.
pub(crate) fn range_of(tests: &[Test]) -> Option<FieldRange>
    ensures { AreWithin result (λ f. tests_hold unbound f tests.now) }
{
    let mut range = None;
    for test in tests {
        range = narrowed_by_choices(range, test.choices.as_slice());
    }
    range
}

// The range where one of these choices holds besides; of two choices and more it takes no bound.
fn narrowed_by_choices(range: Option<FieldRange>, choices: &[Seq<Compare>]) -> Option<FieldRange>
    ensures { (pass : FactData → Bool) → AreWithin range pass → AreWithin result (λ f. pass f && choices_hold f choices.now) }
{
    match choices {
        [choice] => narrowed_by_compares(range, choice.as_slice()),
        _ => range,
    }
}

// The range where these comparisons hold besides.
fn narrowed_by_compares(range: Option<FieldRange>, compares: &[Compare]) -> Option<FieldRange>
    ensures { (pass : FactData → Bool) → AreWithin range pass → AreWithin result (λ f. pass f && compares_hold unbound f compares.now) }
{
    let mut narrowed = range;
    for compare in compares {
        narrowed = both(narrowed, of_compare(compare));
    }
    narrowed
}

// The first range, and the second one too where it is of the same field.
fn both(first: Option<FieldRange>, second: Option<FieldRange>) -> Option<FieldRange>
    ensures { (pass also : FactData → Bool) → AreWithin first pass → AreWithin second also → AreWithin result (λ f. pass f && also f) }
{
    match (first, second) {
        (Some(first), Some(second)) => {
            if first.field == second.field {
                Some(first.meet(second))
            } else {
                Some(first)
            }
        }
        (Some(first), None) => Some(first),
        (None, second) => second,
    }
}

impl FieldRange {
    // The numbers of the field that are in both ranges.
    fn meet(self, other: FieldRange) -> FieldRange
        ensures field { result.field ≡ self.field }
        ensures least { result.least ≡ int_max self.least other.least }
        ensures most { result.most ≡ int_min self.most other.most }
    {
        FieldRange {
            field: self.field,
            least: self.least.max(other.least),
            most: self.most.min(other.most),
        }
    }
}

// The range where one comparison holds: an order, with a literal.
fn of_compare(compare: &Compare) -> Option<FieldRange>
    ensures { AreWithin result (λ f. compare_holds unbound f compare.now) }
{
    match compare.against.as_slice() {
        [Side::Lit(Value::Int(number))] => of_order(
            usize::from(compare.field),
            compare.rel,
            *number,
        ),
        _ => None,
    }
}

// The range of the numbers in a field that have this order to a number.
fn of_order(field: usize, rel: RelTag, number: i64) -> Option<FieldRange>
    ensures field { IfSome result (λ range. range.field ≡ field) }
    ensures within { IfSome result (λ range. (a : ValueData) → related rel a (Int number) ≡ true → HasValue range (Some a)) }
{
    match rel {
        RelTag::OneOf | RelTag::Equal | RelTag::NotEqual => None,
        RelTag::Less => Some(below(field, number)),
        RelTag::LessOrEqual => Some(up_to(field, number)),
        RelTag::Greater => Some(above(field, number)),
        RelTag::GreaterOrEqual => Some(from(field, number)),
    }
}

fn from(field: usize, number: i64) -> FieldRange
    ensures field { result.field ≡ field }
    ensures within { (other : ℤ) → number ≤ℤ other → HasValue result (Some (Int other)) }
{
    FieldRange {
        field,
        least: number,
        most: i64::MAX,
    }
}

// Above the last number of 64 bits it takes that one.
fn above(field: usize, number: i64) -> FieldRange
    ensures field { result.field ≡ field }
    ensures within { (other : ℤ) → number <ℤ other → HasValue result (Some (Int other)) }
{
    FieldRange {
        field,
        least: number.saturating_add(1),
        most: i64::MAX,
    }
}

fn up_to(field: usize, number: i64) -> FieldRange
    ensures field { result.field ≡ field }
    ensures within { (other : ℤ) → other ≤ℤ number → HasValue result (Some (Int other)) }
{
    FieldRange {
        field,
        least: i64::MIN,
        most: number,
    }
}

// Below the first number of 64 bits it takes that one.
fn below(field: usize, number: i64) -> FieldRange
    ensures field { result.field ≡ field }
    ensures within { (other : ℤ) → other <ℤ number → HasValue result (Some (Int other)) }
{
    FieldRange {
        field,
        least: i64::MIN,
        most: number.saturating_sub(1),
    }
}
