ghost use Rattle.std.specs.Prelude.{◌≡◌, ◌&&◌, ℕ, List, Some};
ghost use Rattle.std.specs.List.{list_any};
ghost use Rattle.drl_expr.specs.Tree.{Tree};
ghost use Rattle.drl_scope.specs.Meanings.{field_kind};
ghost use Rattle.drl_typing.specs.Kinds.{is_number, number_where, tree_kind, set_misfits, args_misfit, modify_misfits, retract_misfits, action_misfits};

use crate::kinded::Kinded;
use crate::kinds::{are_same, is_whole, kind_of_literal, kind_of_variable, kind_of_variable_field};
use drl_expr::{ExprTree, Node};
use drl_grammar::ActTree;
use drl_scope::{DeclaredType, Meaning, Place, Seen};
use fx_base::{Kind, Text};

// ---- expressions

fn is_of_number(kind: Option<Option<Kind>>) -> bool
    ensures { result ≡ is_number kind }
{
    match kind {
        Some(kind) => is_whole(kind),
        None => false,
    }
}

fn number_if(fits: bool) -> Option<Option<Kind>>
    ensures { result ≡ number_where fits }
{
    if fits { Some(Some(Kind::Int)) } else { None }
}

// The kind of an expression, which a field may lack; nothing where a fact stands for a value, a value for a fact, or an
// operator has an operand that is no whole number. The recursion is as deep as the tree is high, which is 32 at most for a
// tree that was read.
#[cycle(trees)]
fn kind_of_tree(place: &Place, tree: &ExprTree) -> Option<Option<Kind>>
    ensures { result ≡ tree_kind place.now.sight tree.now }
{
    match tree.node() {
        Node::Lit(literal) => Some(Some(kind_of_literal(literal))),
        Node::Var(var) => kind_of_variable(place, var),
        Node::VarField(var, field) => kind_of_variable_field(place, var, field),
        Node::Neg(a) => number_if(is_of_number(kind_of_tree(place, a))),
        Node::Add(a, b) | Node::Sub(a, b) | Node::Mul(a, b) => number_if(are_numbers(place, a, b)),
    }
}

#[cycle(trees)]
fn are_numbers(place: &Place, left: &ExprTree, right: &ExprTree) -> bool
    ensures { result ≡ (is_number (tree_kind place.now.sight left.now) && is_number (tree_kind place.now.sight right.now)) }
{
    is_of_number(kind_of_tree(place, left)) && is_of_number(kind_of_tree(place, right))
}

// ---- actions

// Whether a field of this kind cannot be set to what is given. Nothing fits a field that has no kind.
fn does_set_misfit(field: Option<Kind>, given: Option<Option<Kind>>) -> bool
    ensures { result ≡ set_misfits field given }
{
    match given {
        Some(kind) => field.is_none() || !are_same(field, kind),
        None => true,
    }
}

// Whether there is not one expression for each field, of its kind.
#[tactic(auto, unfolding(crate::specs::Kinds::args_misfit))]
fn do_args_misfit(place: &Place, kinds: &[Option<Kind>], args: &[ExprTree]) -> bool
    ensures { result ≡ args_misfit place.now.sight kinds.now args.now }
{
    for (k, arg) in args.iter().enumerate() {
        match kinds.get(k) {
            Some(kind) => {
                if does_set_misfit(*kind, kind_of_tree(place, arg)) {
                    return true;
                }
            }
            None => return true,
        }
    }
    args.len() < kinds.len()
}

fn do_sets_misfit(ty: &DeclaredType, place: &Place, sets: &[(Text, ExprTree)]) -> bool
    ensures { result ≡ list_any (λ (set : List ℕ × Tree). set_misfits (field_kind ty.now set.0) (tree_kind place.now.sight set.1)) sets.now }
{
    sets.iter().any(|set| does_set_misfit(ty.kind_of(&set.0), kind_of_tree(place, &set.1)))
}

fn does_modify_misfit(meaning: &Meaning, place: &Place, sets: &[(Text, ExprTree)]) -> bool
    ensures { result ≡ modify_misfits (Some meaning.now) place.now.sight sets.now }
{
    match meaning.seen() {
        Seen::Fact { fact: _, ty } => do_sets_misfit(ty, place, sets),
        Seen::Field { .. } => true,
        Seen::Result { .. } => true,
    }
}

fn does_retract_misfit(meaning: &Meaning) -> bool
    ensures { result ≡ retract_misfits (Some meaning.now) }
{
    match meaning.seen() {
        Seen::Fact { .. } => false,
        Seen::Field { .. } => true,
        Seen::Result { .. } => true,
    }
}

/// Whether an action has a value that does not fit where it stands, or too few or too many, or changes what is no fact.
pub(crate) fn misfits_in_action(types: &Kinded, place: &Place, action: &ActTree) -> bool
    ensures { result ≡ action_misfits types.now place.now.sight action.now }
{
    match action {
        ActTree::Insert { ty, args } => match types.taken(ty) {
            Some(kinds) => do_args_misfit(place, kinds.as_slice(), args.as_slice()),
            None => false,
        },
        ActTree::Modify { var, sets } => match place.find(var) {
            Some(meaning) => does_modify_misfit(meaning, place, sets.as_slice()),
            None => false,
        },
        ActTree::Retract(var) => match place.find(var) {
            Some(meaning) => does_retract_misfit(meaning),
            None => false,
        },
    }
}
