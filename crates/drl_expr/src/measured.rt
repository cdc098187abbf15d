ghost use Rattle.std.specs.Prelude.{◌≡◌, ◌<◌, ◌+◌, ◌^◌, max, IfOk};
ghost use Rattle.drl_expr.specs.Tree.{neg, height as height_of};
ghost use Rattle.drl_expr.specs.Nodes.{tree_of};
ghost use Rattle.drl_expr.specs.Reading.{joined};

use crate::marks::Operation;
use crate::{ExprTree, Node};
use fx_base::NoMemory;
use std::alloc::Global;

/// A tree and its height.
#[derive(Drop)]
pub(crate) struct Measured {
    pub(crate) tree: ExprTree,
    pub(crate) height: u32,
    ghost measured: { height ≡ height_of tree },
}

/// A literal or a variable.
pub(crate) fn leaf(node: Node) -> Measured
    requires { height_of (tree_of node) ≡ 1 }
    ensures tree { result.tree ≡ tree_of node }
    ensures high { result.height ≡ 1 }
{
    Measured {
        tree: ExprTree::of(node),
        height: 1,
    }
}

pub(crate) fn negated(alloc: Global, inner: Measured) -> Result<Measured, NoMemory>
    requires { inner.height < 2 ^ 20 }
    ensures reads { IfOk result (λ m. m.tree ≡ neg inner.tree) }
    ensures high { IfOk result (λ m. m.height ≡ inner.height + 1) }
{
    let height = inner.height + 1;
    let tree = ExprTree::of(Node::Neg(Box::new(alloc, inner.tree)?));
    Ok(Measured { tree, height })
}

pub(crate) fn join(
    alloc: Global,
    operation: Operation,
    left: Measured,
    right: Measured,
) -> Result<Measured, NoMemory>
    requires left_low { left.height < 2 ^ 20 }
    requires right_low { right.height < 2 ^ 20 }
    ensures reads { IfOk result (λ m. m.tree ≡ joined operation left.tree right.tree) }
    ensures high { IfOk result (λ m. m.height ≡ max left.height right.height + 1) }
{
    let height = left.height.max(right.height) + 1;
    let a = Box::new(alloc, left.tree)?;
    let b = Box::new(alloc, right.tree)?;
    let tree = ExprTree::of(match operation {
        Operation::Sum => Node::Add(a, b),
        Operation::Difference => Node::Sub(a, b),
        Operation::Product => Node::Mul(a, b),
    });
    Ok(Measured { tree, height })
}
