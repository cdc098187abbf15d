ghost use Rattle.std.specs.Prelude.{◌≡◌, ◌&&◌};
ghost use Rattle.std.specs.List.{list_all};
ghost use Rattle.drl_limits.specs.Limits.{tree_within, set_within, action_within, actions_within};

use crate::limits::{is_literal_within, is_short_name};
use drl_expr::{ExprTree, Node};
use drl_grammar::ActTree;
use fx_base::Text;

const ACTIONS_MAX: usize = 16;

// The recursion is as deep as the tree is high, which is 32 at most for a tree that was read.
#[cycle(trees)]
fn is_tree_within(tree: &ExprTree) -> bool
    ensures { result ≡ tree_within tree.now }
{
    match tree.node() {
        Node::Lit(literal) => is_literal_within(literal),
        Node::Var(var) => is_short_name(var),
        Node::VarField(var, field) => is_short_name(var) && is_short_name(field),
        Node::Neg(a) => is_tree_within(a),
        Node::Add(a, b) | Node::Sub(a, b) | Node::Mul(a, b) => are_both_within(a, b),
    }
}

#[cycle(trees)]
fn are_both_within(left: &ExprTree, right: &ExprTree) -> bool
    ensures { result ≡ (tree_within left.now && tree_within right.now) }
{
    is_tree_within(left) && is_tree_within(right)
}

fn are_trees_within(trees: &[ExprTree]) -> bool
    ensures { result ≡ list_all tree_within trees.now }
{
    trees.iter().all(|tree| is_tree_within(tree))
}

fn is_set_within(set: &(Text, ExprTree)) -> bool
    ensures { result ≡ set_within set.now }
{
    is_short_name(&set.0) && is_tree_within(&set.1)
}

fn are_sets_within(sets: &[(Text, ExprTree)]) -> bool
    ensures { result ≡ list_all set_within sets.now }
{
    sets.iter().all(|set| is_set_within(set))
}

fn is_action_within(action: &ActTree) -> bool
    ensures { result ≡ action_within action.now }
{
    match action {
        ActTree::Insert { ty, args } => is_short_name(ty) && are_trees_within(args.as_slice()),
        ActTree::Modify { var, sets } => is_short_name(var) && are_sets_within(sets.as_slice()),
        ActTree::Retract(var) => is_short_name(var),
    }
}

fn are_all_within(actions: &[ActTree]) -> bool
    ensures { result ≡ list_all action_within actions.now }
{
    actions.iter().all(|action| is_action_within(action))
}

/// Whether the actions of a rule are few enough, and pass no limit themselves.
pub(crate) fn are_actions_within(actions: &[ActTree]) -> bool
    ensures { result ≡ actions_within actions.now }
{
    actions.len() <= ACTIONS_MAX && are_all_within(actions)
}
