//! Rules behind the front of a file: of each only what watches a type.
ghost use Rattle.std.specs.Prelude.{◌≡◌, ◌++◌, IfOk, OnOk};
ghost use Rattle.std.specs.List.{flat_map};
ghost use Rattle.subrules.specs.Front.{is_closed, watches as watches_types, watching, watcher, shortened};

use crate::faults::is_length;
use crate::hierarchy::Hierarchy;
use crate::rules::plain_rules;
use crate::ways::choices_of;
use drl_grammar::{CondTree, Piece, RuleTree, WrittenRule};
use fx_base::{Copies, NoMemory, Seq};
use std::alloc::Global;

// Whether alternatives that begin also end.
#[tactic(auto, unfolding(crate::specs::Front::open_at_end))]
fn is_closed(pieces: &[Piece]) -> bool
    ensures { result ≡ is_closed pieces.now }
{
    let mut open: usize = 0;
    for piece in pieces {
        match piece {
            Piece::Open => open += 1,
            Piece::Close => open = open.saturating_sub(1),
            Piece::One(_) | Piece::Or => {}
        }
    }
    open == 0
}

// Whether what a condition is written out to watches types.
fn watches(condition: &CondTree) -> bool
    ensures { result ≡ watches_types condition.now }
{
    match condition {
        CondTree::Plain(source) => is_length(&source.window),
        CondTree::Negated(_) | CondTree::Existing(_) | CondTree::Folded { .. } => true,
    }
}

// Adds the conditions of a way.
fn add_way(conditions: &mut Vec<CondTree>, way: Seq<CondTree>) -> Result<(), NoMemory>
    ensures { OnOk result (conditions.new.items ≡ conditions.old.items ++ way) }
{
    for condition in way.into_vec() {
        conditions.push(condition)?;
    }
    Ok(())
}

// Adds the conditions of these ways.
fn add_ways(conditions: &mut Vec<CondTree>, ways: Vec<Seq<CondTree>>) -> Result<(), NoMemory>
    ensures { OnOk result (conditions.new.items ≡ conditions.old.items ++ flat_map (λ way. way) ways.items) }
{
    for way in ways {
        add_way(conditions, way)?;
    }
    Ok(())
}

// Adds what watches types, of all ways of a piece.
fn add_watching(
    alloc: Global,
    types: &Hierarchy,
    conditions: &mut Vec<CondTree>,
    piece: &Piece,
) -> Result<(), NoMemory>
    ensures { OnOk result (conditions.new.items ≡ conditions.old.items ++ watching types.now piece.now) }
{
    match piece {
        Piece::One(condition) => {
            if watches(condition) {
                let ways = choices_of(alloc, types, condition)?;
                add_ways(conditions, ways)?;
            }
            Ok(())
        }
        Piece::Open | Piece::Or | Piece::Close => Ok(()),
    }
}

// A rule that watches what all watch that a rule is written out to.
fn watcher(alloc: Global, types: &Hierarchy, rule: &WrittenRule) -> Result<RuleTree, NoMemory>
    ensures { IfOk result (λ made. made ≡ watcher types.now rule.now) }
{
    let name = rule.name.copy(alloc)?;
    let mut conditions = Vec::new(alloc);
    for piece in rule.pieces.as_slice() {
        add_watching(alloc, types, &mut conditions, piece)?;
    }
    Ok(RuleTree {
        name,
        attrs: Seq::from_vec(Vec::new(alloc)),
        conditions: Seq::from_vec(conditions),
        actions: Seq::from_vec(Vec::new(alloc)),
    })
}

/// What a rule behind the front is written out to: one that watches the same types. It costs the conditions that watch one. A rule of
/// which alternatives do not end is written out whole; the grammar has none.
pub(crate) fn shortened(
    alloc: Global,
    types: &Hierarchy,
    rule: &WrittenRule,
) -> Result<Vec<RuleTree>, NoMemory>
    ensures { IfOk result (λ made. made.items ≡ shortened types.now rule.now) }
{
    if !is_closed(rule.pieces.as_slice()) {
        return plain_rules(alloc, types, rule);
    }
    let mut rules = Vec::with_capacity(alloc, 1)?;
    rules.push(watcher(alloc, types, rule)?)?;
    Ok(rules)
}
