ghost use Rattle.std.specs.Prelude.{◌≡◌, ◌||◌, ℕ, List};
ghost use Rattle.std.specs.List.{list_any};
ghost use Rattle.drl_grammar.specs.declared.condition.Cmp.{Cmp};
ghost use Rattle.drl_expr.specs.Tree.{Tree};
ghost use Rattle.drl_scope.specs.Operands.{any_of_cmp, any_of_part, any_leaf, any_leaf_of};

use drl_expr::{ExprTree, Node};
use drl_grammar::{ActTree, Cmp, Operand, Part};
use fx_base::{Seq, Text};

/// A test of operands.
pub trait OperandTest {
    ghost use Rattle.std.specs.Prelude.{◌≡◌, Bool};
    ghost use Rattle.drl_grammar.specs.declared.condition.Operand.{Operand};

    ghost test: { Self → Operand → Bool };

    /// Whether the test holds of an operand.
    fn holds(&self, operand: &Operand) -> bool
        ensures { result ≡ test self.now operand.now };
}

/// A test of the leaves of expressions.
pub trait LeafTest {
    ghost use Rattle.std.specs.Prelude.{◌≡◌, Bool};
    ghost use Rattle.drl_expr.specs.Tree.{Tree};

    ghost test: { Self → Tree → Bool };

    /// Whether the test holds of a leaf.
    fn holds(&self, leaf: &ExprTree) -> bool
        ensures { result ≡ test self.now leaf.now };
}

// ---- operands

fn some_of_operands<T: OperandTest>(test: &T, operands: &[Operand]) -> bool
    ensures { result ≡ list_any (T.test test.now) operands.now }
{
    operands.iter().any(|operand| test.holds(operand))
}

fn some_of_cmp<T: OperandTest>(test: &T, cmp: &Cmp) -> bool
    ensures { result ≡ any_of_cmp (T.test test.now) cmp.now }
{
    match cmp {
        Cmp::Rel { operand, .. } => test.holds(operand),
        Cmp::OneOf { operands, .. } => some_of_operands(test, operands.as_slice()),
    }
}

fn some_of_group<T: OperandTest>(test: &T, group: &[Cmp]) -> bool
    ensures { result ≡ list_any (any_of_cmp (T.test test.now)) group.now }
{
    group.iter().any(|cmp| some_of_cmp(test, cmp))
}

fn some_of_groups<T: OperandTest>(test: &T, groups: &[Seq<Cmp>]) -> bool
    ensures { result ≡ list_any (λ (group : List Cmp). list_any (any_of_cmp (T.test test.now)) group) groups.now }
{
    groups
        .iter()
        .any(|group| some_of_group(test, group.as_slice()))
}

/// Whether the test holds of one of the operands of a part. A binding and a temporal test have none.
pub fn some_operand<T: OperandTest>(test: &T, part: &Part) -> bool
    ensures { result ≡ any_of_part (T.test test.now) part.now }
{
    match part {
        Part::AnyOf(groups) => some_of_groups(test, groups.as_slice()),
        Part::Bind { .. } | Part::Temporal { .. } => false,
    }
}

// ---- leaves

// The recursion is as deep as the tree is high, which is 32 at most for a tree that was read.
#[cycle(leaves)]
fn some_in_tree<T: LeafTest>(test: &T, tree: &ExprTree) -> bool
    ensures { result ≡ any_leaf (T.test test.now) tree.now }
{
    match tree.node() {
        Node::Lit(_) | Node::Var(_) | Node::VarField(_, _) => test.holds(tree),
        Node::Neg(a) => some_in_tree(test, a),
        Node::Add(a, b) | Node::Sub(a, b) | Node::Mul(a, b) => some_in_pair(test, a, b),
    }
}

#[cycle(leaves)]
fn some_in_pair<T: LeafTest>(test: &T, left: &ExprTree, right: &ExprTree) -> bool
    ensures { result ≡ (any_leaf (T.test test.now) left.now || any_leaf (T.test test.now) right.now) }
{
    some_in_tree(test, left) || some_in_tree(test, right)
}

fn some_of_args<T: LeafTest>(test: &T, args: &[ExprTree]) -> bool
    ensures { result ≡ list_any (any_leaf (T.test test.now)) args.now }
{
    args.iter().any(|arg| some_in_tree(test, arg))
}

fn some_of_sets<T: LeafTest>(test: &T, sets: &[(Text, ExprTree)]) -> bool
    ensures { result ≡ list_any (λ (set : List ℕ × Tree). any_leaf (T.test test.now) set.1) sets.now }
{
    sets.iter().any(|set| some_in_tree(test, &set.1))
}

/// Whether the test holds of one of the leaves of the expressions of an action.
pub fn some_leaf<T: LeafTest>(test: &T, action: &ActTree) -> bool
    ensures { result ≡ any_leaf_of (T.test test.now) action.now }
{
    match action {
        ActTree::Insert { args, .. } => some_of_args(test, args.as_slice()),
        ActTree::Modify { sets, .. } => some_of_sets(test, sets.as_slice()),
        ActTree::Retract(_) => false,
    }
}
