ghost use Rattle.std.specs.Prelude.{◌≡◌, false, true, option_map, slice_get, IfSome, IsNone};
ghost use Rattle.rule_model.specs.Tests.{field_of};
ghost use Rattle.rule_model.specs.Lent.{named_at, bound_in};
ghost use Rattle.rule_model.specs.Numbers.{number as number_of, overflows, whole_number};

use fx_base::{Fact, Facts, Value};
use row_delta::Row;
use rule_model::{Expr, ExprNode};

// A value as a whole number; 0 for what is none.
fn whole_number(value: &Value) -> i64
    ensures { result ≡ whole_number value.now }
{
    match value {
        Value::Int(number) => *number,
        _ => 0,
    }
}

/// The fact that a row names in this place, as the map has it.
pub(crate) fn bound_fact<'a, F: Facts>(row: &Row, facts: &'a F, place: u8) -> Option<&'a Fact>
    ensures { option_map (λ f. f.now) result ≡ named_at (F.map facts.now) row.now.facts place }
{
    let named = row.facts.as_slice().get(place as usize)?;
    facts.fact(named.tag)
}

/// A field of the fact that a row names in this place.
pub(crate) fn bound_field<'a, F: Facts>(
    row: &Row,
    facts: &'a F,
    place: u8,
    field: u8,
) -> Option<&'a Value>
    ensures { option_map (λ v. v.now) result ≡ field_of (named_at (F.map facts.now) row.now.facts place) field }
{
    let fact = bound_fact(row, facts, place)?;
    fact.fields.as_slice().get(field as usize)
}

/// The value of a row in this place.
pub(crate) fn result_at(row: &Row, place: u8) -> Option<i64>
    ensures { result ≡ slice_get row.now.values place }
{
    row.values.as_slice().get(place as usize).copied()
}

/// The whole number of an expression; `None` exactly where its number or that of a part of it is outside 64 bits. What is no
/// whole number counts as 0. The recursion is as deep as the expression is high.
#[tactic(auto, using(crate::proofs::Outside::inside, crate::proofs::Outside::outside))]
pub(crate) fn number<F: Facts>(expr: &Expr, row: &Row, facts: &F) -> Option<i64>
    ensures number { IfSome result (λ n. n ≡ number_of (bound_in (F.map facts.now) row.now) expr.now) }
    ensures fits { IfSome result (λ _. overflows (bound_in (F.map facts.now) row.now) expr.now ≡ false) }
    ensures overflows { IsNone result → overflows (bound_in (F.map facts.now) row.now) expr.now ≡ true }
{
    match expr.node() {
        ExprNode::Lit(literal) => Some(whole_number(literal)),
        ExprNode::Of { fact, field } => {
            Some(bound_field(row, facts, *fact, *field).map_or(0, whole_number))
        }
        ExprNode::Result(place) => Some(result_at(row, *place).unwrap_or(0)),
        ExprNode::Neg(a) => number(a, row, facts)?.checked_neg(),
        ExprNode::Add(a, b) => number(a, row, facts)?.checked_add(number(b, row, facts)?),
        ExprNode::Sub(a, b) => number(a, row, facts)?.checked_sub(number(b, row, facts)?),
        ExprNode::Mul(a, b) => number(a, row, facts)?.checked_mul(number(b, row, facts)?),
    }
}
