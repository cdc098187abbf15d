ghost use Rattle.std.specs.Prelude.{◌≡◌, ◌++◌, ◌∷◌, OnOk};
ghost use Rattle.drl_lex.specs.declared.token.TokenKind.TheVariants.{Mark as MarkToken};
ghost use Rattle.drl_show.specs.Canonical.{joins, expr_tokens, enclosed_tokens};
ghost use Rattle.drl_show.specs.Texts.{added};

use crate::shapes::Printed;
use crate::tokens::{mark, variable, word};
use drl_expr::{ExprTree, Node};
use drl_lex::Mark;
use fx_base::NoMemory;

/// Whether two operands are joined at the top.
fn is_joined(tree: &ExprTree) -> bool
    ensures { result ≡ joins tree.now }
{
    match tree.node() {
        Node::Add(_, _) | Node::Sub(_, _) | Node::Mul(_, _) => true,
        _ => false,
    }
}

// The recursion is as deep as the tree is high, which is 32 at most for a tree that was read.
#[cycle(writing)]
fn expr(out: &mut Vec<u8>, tree: &ExprTree) -> Result<(), NoMemory>
    ensures { OnOk result (out.new.items ≡ added out.old.items (expr_tokens tree.now)) }
{
    match tree.node() {
        Node::Lit(literal) => literal.write(out),
        Node::Var(name) => variable(out, name.as_str()),
        Node::VarField(name, field) => {
            variable(out, name.as_str())?;
            mark(out, Mark::Dot)?;
            word(out, field.as_str())
        }
        Node::Neg(a) => {
            mark(out, Mark::Minus)?;
            operand(out, a)
        }
        Node::Add(a, b) => pair(out, a, Mark::Plus, b),
        Node::Sub(a, b) => pair(out, a, Mark::Minus, b),
        Node::Mul(a, b) => pair(out, a, Mark::Star, b),
    }
}

// An operand, in parentheses where two operands are joined in it.
#[cycle(writing)]
#[tactic(auto, using(crate::proofs::Added::added_append))]
fn operand(out: &mut Vec<u8>, tree: &ExprTree) -> Result<(), NoMemory>
    ensures { OnOk result (out.new.items ≡ added out.old.items (enclosed_tokens tree.now)) }
{
    if !is_joined(tree) {
        return expr(out, tree);
    }
    mark(out, Mark::OpenParenthesis)?;
    expr(out, tree)?;
    mark(out, Mark::CloseParenthesis)
}

// Two operands, and the mark that joins them.
#[cycle(writing)]
#[tactic(auto, using(crate::proofs::Added::added_append))]
fn pair(out: &mut Vec<u8>, left: &ExprTree, joint: Mark, right: &ExprTree) -> Result<(), NoMemory>
    ensures { OnOk result (out.new.items ≡ added out.old.items (enclosed_tokens left.now ++ (MarkToken joint ∷ enclosed_tokens right.now))) }
{
    operand(out, left)?;
    mark(out, joint)?;
    operand(out, right)
}

impl Printed for ExprTree {
    ghost use Rattle.drl_show.specs.Canonical.{expr_tokens};

    ghost tokens = { expr_tokens };

    fn write(&self, out: &mut Vec<u8>) -> Result<(), NoMemory> {
        expr(out, self)
    }
}
