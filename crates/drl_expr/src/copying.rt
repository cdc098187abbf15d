//! Copies of expressions.
ghost use Rattle.std.specs.Prelude.{◌≡◌, IfOk};

use crate::{ExprTree, LitTree, Node};
use fx_base::{Copies, NoMemory};
use std::alloc::Global;

impl Copies for LitTree {
    fn copy(&self, alloc: Global) -> Result<LitTree, NoMemory> {
        match self {
            LitTree::Int(number) => Ok(LitTree::Int(*number)),
            LitTree::Bool(flag) => Ok(LitTree::Bool(*flag)),
            LitTree::Text(text) => Ok(LitTree::Text(text.copy(alloc)?)),
        }
    }
}

// The recursion is as deep as the tree is high, which is 32 at most for a tree that was read.
#[cycle(copies)]
fn expression(alloc: Global, tree: &ExprTree) -> Result<ExprTree, NoMemory>
    ensures { IfOk result (λ copy. copy ≡ tree.now) }
{
    match tree.node() {
        Node::Lit(literal) => Ok(ExprTree::of(Node::Lit(literal.copy(alloc)?))),
        Node::Var(var) => Ok(ExprTree::of(Node::Var(var.copy(alloc)?))),
        Node::VarField(var, field) => {
            let var = var.copy(alloc)?;
            Ok(ExprTree::of(Node::VarField(var, field.copy(alloc)?)))
        }
        Node::Neg(a) => {
            let a = boxed(alloc, a)?;
            Ok(ExprTree::of(Node::Neg(a)))
        }
        Node::Add(a, b) => {
            let a = boxed(alloc, a)?;
            let b = boxed(alloc, b)?;
            Ok(ExprTree::of(Node::Add(a, b)))
        }
        Node::Sub(a, b) => {
            let a = boxed(alloc, a)?;
            let b = boxed(alloc, b)?;
            Ok(ExprTree::of(Node::Sub(a, b)))
        }
        Node::Mul(a, b) => {
            let a = boxed(alloc, a)?;
            let b = boxed(alloc, b)?;
            Ok(ExprTree::of(Node::Mul(a, b)))
        }
    }
}

#[cycle(copies)]
fn boxed(alloc: Global, tree: &ExprTree) -> Result<Box<ExprTree>, NoMemory>
    ensures { IfOk result (λ copy. copy.value ≡ tree.now) }
{
    let copy = expression(alloc, tree)?;
    Ok(Box::new(alloc, copy)?)
}

impl Copies for ExprTree {
    fn copy(&self, alloc: Global) -> Result<ExprTree, NoMemory> {
        expression(alloc, self)
    }
}
