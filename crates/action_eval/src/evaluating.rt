ghost use Rattle.std.specs.Prelude.{◌≡◌, false, true, IfOk, IsErrOf};
ghost use Rattle.rule_model.specs.Lent.{bound_in};
ghost use Rattle.rule_model.specs.Numbers.{overflows, value_of};

use crate::EvalFault;
use crate::number::{bound_field, number, result_at};
use fx_base::{Copies, Facts, Value};
use row_delta::Row;
use rule_model::{Expr, ExprNode};
use std::alloc::Global;

/// The value of an expression for the facts that a row names, which `facts` has at their tags, and for the row's values; 0 for a
/// value that the row has not. `Overflow` comes exactly where the whole number of the expression or of a part of it is outside
/// 64 bits.
pub fn value<F: Facts>(alloc: Global, expr: &Expr, row: &Row, facts: &F) -> Result<Value, EvalFault>
    ensures value { IfOk result (λ v. v ≡ value_of (bound_in (F.map facts.now) row.now) expr.now) }
    ensures fits { IfOk result (λ v. overflows (bound_in (F.map facts.now) row.now) expr.now ≡ false) }
    ensures overflow { IsErrOf result EvalFault.Overflow → overflows (bound_in (F.map facts.now) row.now) expr.now ≡ true }
{
    match expr.node() {
        ExprNode::Lit(literal) => Ok(literal.copy(alloc)?),
        ExprNode::Of { fact, field } => match bound_field(row, facts, *fact, *field) {
            Some(value) => Ok(value.copy(alloc)?),
            None => Ok(Value::Int(0)),
        },
        ExprNode::Result(place) => Ok(Value::Int(result_at(row, *place).unwrap_or(0))),
        _ => match number(expr, row, facts) {
            Some(number) => Ok(Value::Int(number)),
            None => Err(EvalFault::Overflow),
        },
    }
}
