use action_eval::{EvalFault, value};
use fact_store::FactStore;
use fx_base::{Seq, Value};
use row_delta::Row;
use rule_model::{Expr, ExprNode};
use std::alloc::Global;
use std::test::Fail;

fn number(number: i64) -> Expr {
    Expr::of(ExprNode::Lit(Value::Int(number)))
}

/// The value of `2 + 3`, with no facts.
fn sum(alloc: Global) -> Result<Value, EvalFault> {
    let row = Row {
        facts: Seq::from_vec(Vec::new(alloc)),
        values: Seq::from_vec(Vec::new(alloc)),
    };
    let left = Box::new(alloc, number(2))?;
    let right = Box::new(alloc, number(3))?;
    let sum = Expr::of(ExprNode::Add(left, right));
    value(alloc, &sum, &row, &FactStore::new(alloc))
}

#[test]
fn an_expression_has_a_value(rt: HostRuntime) -> Result<(), Fail> {
    assert_eq!(rt; sum(rt.alloc())?, Value::Int(5));
    Ok(())
}
