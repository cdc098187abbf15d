//! Which item cannot be written out.
ghost use Rattle.std.specs.Prelude.{◌≡◌, IfOk};
ghost use Rattle.std.specs.List.{list_any};
ghost use Rattle.subrules.specs.Faults.{looks_at_many, is_over_subtypes, fault_of_rule, fault_of, obstacle_from};
ghost use Rattle.subrules.specs.Known.{AreKnown, IsCount};
ghost use Rattle.drl_scope.specs.Observed.{is_of_length};

use crate::counts::counts;
use crate::fault::{ExpandCode, Obstacle};
use crate::hierarchy::Hierarchy;
use crate::sizes::are_too_many;
use crate::type_faults::fault_of_type;
use crate::varied::any_varied;
use drl_grammar::{CondTree, Piece, WindowTree, WrittenBody, WrittenItem, WrittenRule};
use drl_scope::source_of;
use fx_base::NoMemory;
use std::alloc::Global;

/// Whether a window holds so many events.
pub(crate) fn is_length(window: &Option<WindowTree>) -> bool
    ensures { result ≡ is_of_length window.now }
{
    match window {
        Some(WindowTree::Length(_)) => true,
        Some(WindowTree::Time(_)) => false,
        None => false,
    }
}

// Whether a condition looks at several facts of one type.
fn looks_at_many(condition: &CondTree) -> bool
    ensures { result ≡ looks_at_many condition.now }
{
    match condition {
        CondTree::Plain(source) => is_length(&source.window),
        CondTree::Negated(source) => is_length(&source.window),
        CondTree::Existing(_) => true,
        CondTree::Folded { .. } => true,
    }
}

fn is_over_subtypes(types: &Hierarchy, piece: &Piece) -> bool
    ensures { result ≡ is_over_subtypes types.now piece.now }
{
    match piece {
        Piece::One(condition) => {
            looks_at_many(condition) && types.has_subtypes(&source_of(condition).ty)
        }
        Piece::Open => false,
        Piece::Or => false,
        Piece::Close => false,
    }
}

fn any_over_subtypes(types: &Hierarchy, pieces: &[Piece]) -> bool
    ensures { result ≡ list_any (is_over_subtypes types.now) pieces.now }
{
    for piece in pieces {
        if is_over_subtypes(types, piece) {
            return true;
        }
    }
    false
}

fn fault_of_rule(
    alloc: Global,
    types: &Hierarchy,
    rule: &WrittenRule,
) -> Result<Option<ExpandCode>, NoMemory>
    ensures { IfOk result (λ code. code ≡ fault_of_rule types.now rule.now) }
{
    let pieces = rule.pieces.as_slice();
    if any_over_subtypes(types, pieces) {
        return Ok(Some(ExpandCode::HasSubtypes));
    }
    if any_varied(types, pieces) && are_too_many(alloc, types, pieces)? {
        return Ok(Some(ExpandCode::LimitPassed));
    }
    Ok(None)
}

fn fault_of(
    alloc: Global,
    types: &Hierarchy,
    known: &[Option<usize>],
    body: &WrittenBody,
) -> Result<Option<ExpandCode>, NoMemory>
    requires { AreKnown (IsCount types.now) types.now known.now }
    ensures { IfOk result (λ code. code ≡ fault_of types.now body.now) }
{
    match body {
        WrittenBody::Declare(tree) => fault_of_type(alloc, types, known, tree),
        WrittenBody::Rule(rule) => fault_of_rule(alloc, types, rule),
        WrittenBody::Package(_)
        | WrittenBody::Import { .. }
        | WrittenBody::Dialect(_)
        | WrittenBody::Entry { .. } => Ok(None),
    }
}

/// The first of the items that cannot be written out.
#[tactic(auto, unfolding(crate::specs::Faults::obstacle_from))]
pub(crate) fn first_obstacle(
    alloc: Global,
    types: &Hierarchy,
    items: &[WrittenItem],
) -> Result<Option<Obstacle>, NoMemory>
    ensures { IfOk result (λ found. found ≡ obstacle_from types.now 1 items.now) }
{
    let known = counts(alloc, types)?;
    let mut number: u64 = 1;
    for item in items {
        match fault_of(alloc, types, &known, &item.body)? {
            Some(code) => {
                return Ok(Some(Obstacle {
                    number,
                    line: item.line,
                    code,
                }));
            }
            None => number += 1,
        }
    }
    Ok(None)
}
