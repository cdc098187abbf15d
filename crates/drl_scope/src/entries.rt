ghost use Rattle.std.specs.Prelude.{◌≡◌, [], ◌∷◌, IfOk};
ghost use Rattle.std.specs.List.{flat_map};
ghost use Rattle.drl_grammar.specs.declared.condition.CondTree.{CondTree};
ghost use Rattle.drl_scope.specs.EntryPoints.{default_name, source_of, given_name, entries_named, with_names, entry_names, lateness_or_zero, lateness_named};

use crate::places::Places;
use drl_grammar::{Body, CondTree, Item, SourceTree};
use fx_base::{NoMemory, Text};
use std::alloc::Global;

/// The pattern of a condition.
pub fn source_of(tree: &CondTree) -> &SourceTree
    ensures { result.now ≡ source_of tree.now }
{
    match tree {
        CondTree::Plain(source) => source,
        CondTree::Negated(source) => source,
        CondTree::Existing(source) => source,
        CondTree::Folded { source, .. } => source,
    }
}

/// The default entry point alone.
#[tactic(auto, unfolding(crate::specs::EntryPoints::default_name))]
pub fn default_entry(alloc: Global) -> Result<Places, NoMemory>
    ensures { IfOk result (λ p. p ≡ default_name ∷ []) }
{
    let name = Text::new(alloc, "DEFAULT")?;
    Places::new(alloc).with(alloc, &name)
}

#[tactic(auto, unfolding(crate::specs::EntryPoints::with_names))]
fn with_given(alloc: Global, known: Places, given: &Option<Text>) -> Result<Places, NoMemory>
    ensures { IfOk result (λ p. p ≡ with_names known (given_name given.now)) }
{
    match given {
        Some(name) => known.with_new(alloc, name),
        None => Ok(known),
    }
}

#[tactic(auto, using(crate::proofs::EntryLemmas::with_both), unfolding(crate::specs::EntryPoints::with_names))]
fn with_conditions(
    alloc: Global,
    known: Places,
    conditions: &[CondTree],
) -> Result<Places, NoMemory>
    ensures { IfOk result (λ p. p ≡ with_names known (flat_map (λ (c : CondTree). given_name (source_of c).entry) conditions.now)) }
{
    let mut known = known;
    for condition in conditions {
        known = with_given(alloc, known, &source_of(condition).entry)?;
    }
    Ok(known)
}

/// The known entry points, and behind them those that an item names for the first time.
#[tactic(auto, unfolding(crate::specs::EntryPoints::with_names))]
pub fn with_entries(alloc: Global, known: Places, body: &Body) -> Result<Places, NoMemory>
    ensures { IfOk result (λ p. p ≡ with_names known (entries_named body.now)) }
{
    match body {
        Body::Entry { name, .. } => known.with_new(alloc, name),
        Body::Rule(tree) => with_conditions(alloc, known, tree.conditions.as_slice()),
        Body::Package(_) | Body::Import { .. } | Body::Dialect(_) | Body::Declare(_) => Ok(known),
    }
}

/// The entry points of the items of a file: the default one, and behind it the others in the order in which the file first
/// names them.
#[tactic(auto, unfolding(crate::specs::EntryPoints::with_names))]
pub fn entry_points(alloc: Global, items: &[Item]) -> Result<Places, NoMemory>
    ensures { IfOk result (λ p. p ≡ entry_names items.now) }
{
    let mut known = default_entry(alloc)?;
    for item in items {
        known = with_entries(alloc, known, &item.body)?;
    }
    Ok(known)
}

fn lateness_or_none(lateness: &Option<i64>) -> i64
    ensures { result ≡ lateness_or_zero lateness.now }
{
    match lateness {
        Some(lateness) => *lateness,
        None => 0,
    }
}

/// The lateness of an entry point in milliseconds, as the first declaration of the name gives it; 0 where none does.
#[tactic(auto, unfolding(crate::specs::EntryPoints::lateness_named))]
pub fn lateness_of_entry(items: &[Item], name: &Text) -> i64
    ensures { result ≡ lateness_named items.now name.now }
{
    for item in items {
        match &item.body {
            Body::Entry {
                name: declared,
                lateness,
            } => {
                if *declared == *name {
                    return lateness_or_none(lateness);
                }
            }
            Body::Package(_)
            | Body::Import { .. }
            | Body::Dialect(_)
            | Body::Declare(_)
            | Body::Rule(_) => {}
        }
    }
    0
}
