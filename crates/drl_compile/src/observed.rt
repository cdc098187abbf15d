ghost use Rattle.std.specs.Prelude.{◌≡◌, ◌++◌, IfOk};
ghost use Rattle.std.specs.List.{flat_map};
ghost use Rattle.drl_scope.specs.Declarations.{rules_of};
ghost use Rattle.drl_compile.specs.Observed.{has_length, is_observing, observed_by, observed_names};

use drl_grammar::{Body, CondTree, Item, WindowTree};
use drl_scope::{Places, source_of};
use fx_base::NoMemory;
use std::alloc::Global;

fn is_length(window: &Option<WindowTree>) -> bool
    ensures { result ≡ has_length window.now }
{
    match window {
        Some(WindowTree::Length(_)) => true,
        Some(WindowTree::Time(_)) => false,
        None => false,
    }
}

fn observes(tree: &CondTree) -> bool
    ensures { result ≡ is_observing tree.now }
{
    match tree {
        CondTree::Plain(source) => is_length(&source.window),
        CondTree::Negated(_) | CondTree::Existing(_) | CondTree::Folded { .. } => true,
    }
}

// The names, and behind them that of the type that a condition observes.
fn with_observed(alloc: Global, names: Places, tree: &CondTree) -> Result<Places, NoMemory>
    ensures { IfOk result (λ all. all ≡ names ++ observed_by tree.now) }
{
    if observes(tree) {
        names.with(alloc, &source_of(tree).ty)
    } else {
        Ok(names)
    }
}

// The names, and behind them those of the types that conditions observe.
fn with_all_observed(alloc: Global, names: Places, trees: &[CondTree]) -> Result<Places, NoMemory>
    ensures { IfOk result (λ all. all ≡ names ++ flat_map observed_by trees.now) }
{
    let mut names = names;
    for tree in trees {
        names = with_observed(alloc, names, tree)?;
    }
    Ok(names)
}

/// The names of the types that the rules of a file observe.
pub(crate) fn names_observed(alloc: Global, items: &[Item]) -> Result<Places, NoMemory>
    ensures { IfOk result (λ all. all ≡ observed_names (rules_of items.now)) }
{
    let mut names = Places::new(alloc);
    for item in items {
        match &item.body {
            Body::Rule(tree) => {
                names = with_all_observed(alloc, names, tree.conditions.as_slice())?;
            }
            Body::Package(_)
            | Body::Import { .. }
            | Body::Dialect(_)
            | Body::Declare(_)
            | Body::Entry { .. } => {}
        }
    }
    Ok(names)
}
