ghost use Rattle.std.specs.Prelude.{◌≡◌, map, Some, IfOk};
ghost use Rattle.drl_scope.specs.Sight.{meaning_of};
ghost use Rattle.drl_compile.specs.Programs.{variable_value, variable_field_value, expression_in, fact_meant, type_meant, no_type, set_in, action_of};

use crate::numbers::{fact_of_variable, field_number, small, type_number};
use crate::tests_of::value;
use crate::undeclared::{fieldless, zero};
use drl_expr::{ExprTree, Node};
use drl_grammar::ActTree;
use drl_scope::{Declared, DeclaredType, Meaning, Place, Seen};
use fx_base::{NoMemory, Seq, Text, TypeId};
use rule_model::{Action, Expr, ExprNode};
use std::alloc::Global;

// ---- expressions

fn value_meant(meaning: &Meaning) -> Expr
    ensures { result ≡ variable_value (Some meaning.now) }
{
    match meaning.seen() {
        Seen::Field { fact, field, .. } => Expr::of(ExprNode::Of {
            fact: small(Some(fact)),
            field: small(Some(field)),
        }),
        Seen::Result { result: number } => Expr::of(ExprNode::Result(small(Some(number)))),
        Seen::Fact { .. } => zero(),
    }
}

fn field_value_meant(meaning: &Meaning, field: &Text) -> Expr
    ensures { result ≡ variable_field_value (Some meaning.now) field.now }
{
    match meaning.seen() {
        Seen::Fact { fact, ty } => Expr::of(ExprNode::Of {
            fact: small(Some(fact)),
            field: field_number(ty, field),
        }),
        Seen::Field { .. } | Seen::Result { .. } => zero(),
    }
}

fn variable(place: &Place, var: &Text) -> Expr
    ensures { result ≡ variable_value (meaning_of place.now.sight var.now) }
{
    match place.find(var) {
        Some(meaning) => value_meant(meaning),
        None => zero(),
    }
}

fn variable_field(place: &Place, var: &Text, field: &Text) -> Expr
    ensures { result ≡ variable_field_value (meaning_of place.now.sight var.now) field.now }
{
    match place.find(var) {
        Some(meaning) => field_value_meant(meaning, field),
        None => zero(),
    }
}

// The recursion is as deep as the tree is high, which is 32 at most for a tree that was read.
#[cycle(expressions)]
fn expression(alloc: Global, place: &Place, tree: &ExprTree) -> Result<Expr, NoMemory>
    ensures { IfOk result (λ made. made ≡ expression_in place.now.sight tree.now) }
{
    match tree.node() {
        Node::Lit(literal) => Ok(Expr::of(ExprNode::Lit(value(alloc, literal)?))),
        Node::Var(var) => Ok(variable(place, var)),
        Node::VarField(var, field) => Ok(variable_field(place, var, field)),
        Node::Neg(a) => {
            let a = boxed(alloc, place, a)?;
            Ok(Expr::of(ExprNode::Neg(a)))
        }
        Node::Add(a, b) => {
            let a = boxed(alloc, place, a)?;
            let b = boxed(alloc, place, b)?;
            Ok(Expr::of(ExprNode::Add(a, b)))
        }
        Node::Sub(a, b) => {
            let a = boxed(alloc, place, a)?;
            let b = boxed(alloc, place, b)?;
            Ok(Expr::of(ExprNode::Sub(a, b)))
        }
        Node::Mul(a, b) => {
            let a = boxed(alloc, place, a)?;
            let b = boxed(alloc, place, b)?;
            Ok(Expr::of(ExprNode::Mul(a, b)))
        }
    }
}

#[cycle(expressions)]
fn boxed(alloc: Global, place: &Place, tree: &ExprTree) -> Result<Box<Expr>, NoMemory>
    ensures { IfOk result (λ made. made.value ≡ expression_in place.now.sight tree.now) }
{
    let expr = expression(alloc, place, tree)?;
    Ok(Box::new(alloc, expr)?)
}

fn expressions(alloc: Global, place: &Place, trees: &[ExprTree]) -> Result<Seq<Expr>, NoMemory>
    ensures { IfOk result (λ made. made ≡ map (expression_in place.now.sight) trees.now) }
{
    let mut made = Vec::with_capacity(alloc, trees.len())?;
    for tree in trees {
        made.push(expression(alloc, place, tree)?)?;
    }
    Ok(Seq::from_vec(made))
}

// ---- modifications

fn set(
    alloc: Global,
    ty: &DeclaredType,
    place: &Place,
    tree: &(Text, ExprTree),
) -> Result<(u8, Expr), NoMemory>
    ensures { IfOk result (λ set. set ≡ set_in ty.now place.now.sight tree.now) }
{
    Ok((
        field_number(ty, &tree.0),
        expression(alloc, place, &tree.1)?,
    ))
}

// The values of fields of a type.
fn sets(
    alloc: Global,
    ty: &DeclaredType,
    place: &Place,
    trees: &[(Text, ExprTree)],
) -> Result<Seq<(u8, Expr)>, NoMemory>
    ensures { IfOk result (λ sets. sets ≡ map (set_in ty.now place.now.sight) trees.now) }
{
    let mut sets = Vec::with_capacity(alloc, trees.len())?;
    for tree in trees {
        sets.push(set(alloc, ty, place, tree)?)?;
    }
    Ok(Seq::from_vec(sets))
}

// The same where the type is not declared.
fn sets_of_no_type(
    alloc: Global,
    place: &Place,
    trees: &[(Text, ExprTree)],
) -> Result<Seq<(u8, Expr)>, NoMemory>
    ensures { IfOk result (λ sets. sets ≡ map (set_in no_type place.now.sight) trees.now) }
{
    let tree = fieldless(alloc)?;
    let ty = DeclaredType::of(alloc, &tree)?;
    sets(alloc, &ty, place, trees)
}

fn sets_meant(
    alloc: Global,
    meaning: &Meaning,
    place: &Place,
    trees: &[(Text, ExprTree)],
) -> Result<Seq<(u8, Expr)>, NoMemory>
    ensures { IfOk result (λ sets. sets ≡ map (set_in (type_meant (Some meaning.now)) place.now.sight) trees.now) }
{
    match meaning.seen() {
        Seen::Fact { ty, .. } => sets(alloc, ty, place, trees),
        Seen::Field { .. } | Seen::Result { .. } => sets_of_no_type(alloc, place, trees),
    }
}

// The values of the fields of the fact that a variable means.
fn sets_of_variable(
    alloc: Global,
    place: &Place,
    var: &Text,
    trees: &[(Text, ExprTree)],
) -> Result<Seq<(u8, Expr)>, NoMemory>
    ensures { IfOk result (λ sets. sets ≡ map (set_in (type_meant (meaning_of place.now.sight var.now)) place.now.sight) trees.now) }
{
    match place.find(var) {
        Some(meaning) => sets_meant(alloc, meaning, place, trees),
        None => sets_of_no_type(alloc, place, trees),
    }
}

// ---- actions

/// The action of a program that a tree is, given what is in sight behind all conditions.
pub(crate) fn action(
    alloc: Global,
    types: &Declared,
    place: &Place,
    tree: &ActTree,
) -> Result<Action, NoMemory>
    ensures { IfOk result (λ action. action ≡ action_of types.now place.now.sight tree.now) }
{
    match tree {
        ActTree::Insert { ty, args } => Ok(Action::Insert {
            ty: TypeId(type_number(types.place(ty))),
            args: expressions(alloc, place, args.as_slice())?,
        }),
        ActTree::Modify { var, sets } => Ok(Action::Modify {
            fact: fact_of_variable(place, var),
            sets: sets_of_variable(alloc, place, var, sets.as_slice())?,
        }),
        ActTree::Retract(var) => Ok(Action::Retract {
            fact: fact_of_variable(place, var),
        }),
    }
}
