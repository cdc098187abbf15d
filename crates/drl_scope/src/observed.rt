ghost use Rattle.std.specs.Prelude.{◌≡◌, ◌++◌, IfOk};
ghost use Rattle.std.specs.List.{flat_map};
ghost use Rattle.drl_scope.specs.Observed.{is_of_length, watched_by, watched_in, watched_names};

use crate::places::Places;
use drl_grammar::{Body, CondTree, Item, WindowTree};
use fx_base::NoMemory;
use std::alloc::Global;

fn is_length_window(window: &Option<WindowTree>) -> bool
    ensures { result ≡ is_of_length window.now }
{
    match window {
        Some(WindowTree::Length(_)) => true,
        Some(WindowTree::Time(_)) => false,
        None => false,
    }
}

// The names, and behind them that of the type that a condition watches.
fn with_condition(alloc: Global, names: Places, condition: &CondTree) -> Result<Places, NoMemory>
    ensures { IfOk result (λ more. more ≡ names ++ watched_by condition.now) }
{
    match condition {
        CondTree::Plain(source) => {
            if is_length_window(&source.window) {
                names.with(alloc, &source.ty)
            } else {
                Ok(names)
            }
        }
        CondTree::Negated(source) => names.with(alloc, &source.ty),
        CondTree::Existing(source) => names.with(alloc, &source.ty),
        CondTree::Folded { source, .. } => names.with(alloc, &source.ty),
    }
}

fn with_conditions(
    alloc: Global,
    names: Places,
    conditions: &[CondTree],
) -> Result<Places, NoMemory>
    ensures { IfOk result (λ more. more ≡ names ++ flat_map watched_by conditions.now) }
{
    let mut more = names;
    for condition in conditions {
        more = with_condition(alloc, more, condition)?;
    }
    Ok(more)
}

fn with_item(alloc: Global, names: Places, body: &Body) -> Result<Places, NoMemory>
    ensures { IfOk result (λ more. more ≡ names ++ watched_in body.now) }
{
    match body {
        Body::Rule(tree) => with_conditions(alloc, names, tree.conditions.as_slice()),
        Body::Package(_)
        | Body::Import { .. }
        | Body::Dialect(_)
        | Body::Declare(_)
        | Body::Entry { .. } => Ok(names),
    }
}

/// The names of the types that the conditions of a file watch: those that stand in a not, an exists or an accumulate, or under
/// a length window. An event type of one of these names is observed.
pub fn watched_types(alloc: Global, items: &[Item]) -> Result<Places, NoMemory>
    ensures { IfOk result (λ names. names ≡ watched_names items.now) }
{
    let mut names = Places::new(alloc);
    for item in items {
        names = with_item(alloc, names, &item.body)?;
    }
    Ok(names)
}
