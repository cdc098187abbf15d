ghost use Rattle.std.specs.Prelude.{◌≡◌, ℕ, List};
ghost use Rattle.std.specs.List.{list_any};
ghost use Rattle.drl_expr.specs.Tree.{Tree};
ghost use Rattle.drl_scope.specs.Sight.{meaning_of};
ghost use Rattle.drl_scope.specs.Meanings.{lacks_for};
ghost use Rattle.drl_typing.specs.Uses.{inserts_unknown_type, assigned_lacks, action_lacks, target_unseen, action_unseen};

use crate::uses::{Unseen, is_lacking_in, is_out_of_sight};
use drl_expr::{ExprTree, Node};
use drl_grammar::ActTree;
use drl_scope::{Declared, LeafTest, Place, some_leaf};
use fx_base::Text;

// ---- types

fn is_insert_unknown(types: &Declared, action: &ActTree) -> bool
    ensures { result ≡ inserts_unknown_type types.now action.now }
{
    match action {
        ActTree::Insert { ty, .. } => types.find(ty).is_none(),
        ActTree::Modify { .. } | ActTree::Retract(_) => false,
    }
}

/// Whether one of the actions inserts a fact of a type that is not declared.
pub fn insert_unknown(types: &Declared, actions: &[ActTree]) -> bool
    ensures { result ≡ list_any (inserts_unknown_type types.now) actions.now }
{
    actions
        .iter()
        .any(|action| is_insert_unknown(types, action))
}

// ---- fields

// A leaf that names a field which the type of the variable's fact does not have.
#[derive(Drop)]
struct Lacking<'p> {
    place: &'p Place<'p, 'p>,
}

impl<'p> LeafTest for Lacking<'p> {
    ghost use Rattle.drl_typing.specs.Uses.{leaf_lacks};

    ghost test = { λ s. leaf_lacks s.place.now.sight };

    fn holds(&self, leaf: &ExprTree) -> bool {
        match leaf.node() {
            Node::VarField(var, field) => is_lacking_in(self.place, var, field),
            Node::Lit(_) | Node::Var(_) => false,
            Node::Neg(_) | Node::Add(_, _) | Node::Sub(_, _) | Node::Mul(_, _) => false,
        }
    }
}

fn lacks_some_set(place: &Place, var: &Text, sets: &[(Text, ExprTree)]) -> bool
    ensures { result ≡ list_any (λ (set : List ℕ × Tree). lacks_for (meaning_of place.now.sight var.now) set.0) sets.now }
{
    sets.iter().any(|set| is_lacking_in(place, var, &set.0))
}

fn lacks_assigned(place: &Place, action: &ActTree) -> bool
    ensures { result ≡ assigned_lacks place.now.sight action.now }
{
    match action {
        ActTree::Modify { var, sets } => lacks_some_set(place, var, sets.as_slice()),
        ActTree::Insert { .. } | ActTree::Retract(_) => false,
    }
}

/// Whether an action names a field that the type of a fact in sight does not have.
pub(crate) fn lacks_field_in(place: &Place, action: &ActTree) -> bool
    ensures { result ≡ action_lacks place.now.sight action.now }
{
    lacks_assigned(place, action) || some_leaf(&Lacking { place }, action)
}

// ---- variables

impl<'p> LeafTest for Unseen<'p> {
    ghost use Rattle.drl_typing.specs.Uses.{leaf_unseen};

    ghost test = { λ s. leaf_unseen s.place.now.sight };

    fn holds(&self, leaf: &ExprTree) -> bool {
        match leaf.node() {
            Node::Var(var) => is_out_of_sight(self.place, var),
            Node::VarField(var, _) => is_out_of_sight(self.place, var),
            Node::Lit(_) => false,
            Node::Neg(_) | Node::Add(_, _) | Node::Sub(_, _) | Node::Mul(_, _) => false,
        }
    }
}

fn is_target_unseen(place: &Place, action: &ActTree) -> bool
    ensures { result ≡ target_unseen place.now.sight action.now }
{
    match action {
        ActTree::Insert { .. } => false,
        ActTree::Modify { var, .. } => is_out_of_sight(place, var),
        ActTree::Retract(var) => is_out_of_sight(place, var),
    }
}

/// Whether an action names a variable that is not in sight.
pub(crate) fn lacks_variable_in(place: &Place, action: &ActTree) -> bool
    ensures { result ≡ action_unseen place.now.sight action.now }
{
    is_target_unseen(place, action) || some_leaf(&Unseen { place }, action)
}
