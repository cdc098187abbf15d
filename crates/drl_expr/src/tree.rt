use crate::LitTree;
use fx_base::Text;
use std::marker::Model;

/// An expression. Contracts see the tree without its boxes.
#[cycle(tree)]
#[derive(Debug, Drop)]
pub struct ExprTree {
    node: Node,
}

/// What stands at the top of an expression.
#[cycle(tree)]
#[derive(Debug, Drop)]
pub enum Node {
    Lit(LitTree),
    /// A variable, by its name without the `$`.
    Var(Text),
    /// A variable and a field of the fact that it names.
    VarField(Text, Text),
    Neg(Box<ExprTree>),
    Add(Box<ExprTree>, Box<ExprTree>),
    Sub(Box<ExprTree>, Box<ExprTree>),
    Mul(Box<ExprTree>, Box<ExprTree>),
}

impl Model for ExprTree {
    ghost use Rattle.drl_expr.specs.Tree.{Tree};
    ghost use Rattle.drl_expr.specs.TreeCode.{tree_code};

    ghost Value = { Tree };

    ghost coded = { tree_code };

    ghost use Rattle.drl_expr.specs.Tree.{height};
    ghost use Rattle.drl_expr.specs.Nodes.{tree_of};

    ghost view = { λ a. tree_of a.node };

    ghost size = { height };

    ghost use Rattle.std.proofs.Common.{arith};

    ghost size_decreases = { λ a h. Prim.grind arith };
}

impl ExprTree {
    ghost use Rattle.std.specs.Prelude.{◌≡◌};
    ghost use Rattle.drl_expr.specs.Nodes.{tree_of};

    /// The expression with this at its top. Takes no memory.
    pub fn of(node: Node) -> ExprTree
        ensures { result ≡ tree_of node }
    {
        ExprTree { node }
    }

    /// What stands at its top. Takes no memory.
    pub fn node(&self) -> &Node
        ensures { tree_of result.now ≡ self.now }
    {
        &self.node
    }
}
