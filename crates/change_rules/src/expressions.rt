//! Whether expressions of actions are the same.
ghost use Rattle.std.specs.Prelude.{◌≡◌, ◌↔◌, IsTrue};

use rule_model::{Expr, ExprNode};

/// Whether two expressions are the same. Takes no memory. The recursion is as deep as the lower of them is high.
pub(crate) fn is_same(ours: &Expr, theirs: &Expr) -> bool
    ensures { IsTrue result ↔ (ours.now ≡ theirs.now) }
{
    match (ours.node(), theirs.node()) {
        (ExprNode::Lit(ours), ExprNode::Lit(theirs)) => ours.same(theirs),
        (
            ExprNode::Of { fact, field },
            ExprNode::Of {
                fact: theirs,
                field: their_field,
            },
        ) => fact == theirs && field == their_field,
        (ExprNode::Result(ours), ExprNode::Result(theirs)) => ours == theirs,
        (ExprNode::Neg(a), ExprNode::Neg(c)) => is_same(a, c),
        (ExprNode::Add(a, b), ExprNode::Add(c, d)) => is_same(a, c) && is_same(b, d),
        (ExprNode::Sub(a, b), ExprNode::Sub(c, d)) => is_same(a, c) && is_same(b, d),
        (ExprNode::Mul(a, b), ExprNode::Mul(c, d)) => is_same(a, c) && is_same(b, d),
        _ => false,
    }
}

/// Whether two lists have the same expressions. Takes no memory.
pub(crate) fn are_same(ours: &[Expr], theirs: &[Expr]) -> bool
    ensures { IsTrue result ↔ (ours.now ≡ theirs.now) }
{
    if ours.len() != theirs.len() {
        return false;
    }
    for place in 0..ours.len() {
        if !is_same(&ours[place], &theirs[place]) {
            return false;
        }
    }
    true
}

/// Whether two lists have the same expressions, and with the same fields. Takes no memory.
pub(crate) fn are_same_sets(ours: &[(u8, Expr)], theirs: &[(u8, Expr)]) -> bool
    ensures { IsTrue result ↔ (ours.now ≡ theirs.now) }
{
    if ours.len() != theirs.len() {
        return false;
    }
    for place in 0..ours.len() {
        if ours[place].0 != theirs[place].0 || !is_same(&ours[place].1, &theirs[place].1) {
            return false;
        }
    }
    true
}
