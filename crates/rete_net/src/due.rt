ghost use Rattle.std.specs.Prelude.{◌≡◌, ◌≤◌, ◌<◌, ◌||◌, ℕ, ℤ, Some, true, false, nat_eq, option_map, slice_get, FitsSigned, IfOk, IfSome, IsNone, OnOk};
ghost use Rattle.std.specs.Int.{w64};
ghost use Rattle.std.specs.List.{list_any};
ghost use Rattle.fx_base.specs.declared.value.Value.{Value as ValueData};
ghost use Rattle.fx_base.specs.declared.value.Value.TheVariants.{Int};
ghost use Rattle.range_index.specs.Ranges.{is_found};
ghost use Rattle.rule_model.specs.Lent.{lent};
ghost use Rattle.rule_model.specs.Rows.{pattern_of};
ghost use Rattle.row_change.specs.Changes.{changes_nothing};
ghost use Rattle.pattern_gate.specs.Turns.{is_meant, is_one_meant};
ghost use Rattle.beta_node.specs.Nodes.{condition_of};
ghost use Rattle.rete_net.specs.Indexes.{is_in, is_listed, IsNodeFound};
ghost use Rattle.fan_join.specs.Reaching.{has_place};
ghost use Rattle.rete_net.specs.Selectors.{list_slot_of};
ghost use Rattle.rete_net.specs.declared.node.NetNode.{NetNode as NetNodeData};
ghost use Rattle.rete_net.specs.declared.ranges.FieldRanges.{FieldRanges as FieldRangesData};

use crate::alpha_index::AlphaIndex;
use crate::index::Index;
use crate::node::NetNode;
use crate::ranges::Ranges;
use fx_base::{Fact, NoMemory, Value};
use range_index::Hits;
use row_change::changes_nothing;
use row_delta::Delta;
use std::alloc::Global;
use std::collections::BTreeSet;

/// Puts these places into the set. It costs the logarithm of the set for each.
pub(crate) fn put_all(set: &mut BTreeSet<usize, Global>, places: &[usize]) -> Result<(), NoMemory>
    ensures { OnOk result ((k : ℕ) → has_place set.new.keys k ≡ (has_place set.old.keys k || is_in places.now k)) }
{
    for place in places {
        set.insert(*place)?;
    }
    Ok(())
}

/// The first place of the set from this one on and below an end. It costs the logarithm of the set. Takes no memory.
pub(crate) fn first_below(set: &BTreeSet<usize, Global>, from: usize, end: usize) -> Option<usize>
    ensures from { IfSome result (λ place. from ≤ place) }
    ensures below { IfSome result (λ place. place < end) }
    ensures first { IfSome result (λ place. (k : ℕ) → from ≤ k → k < place → has_place set.now.keys k ≡ false) }
    ensures none { IsNone result → (k : ℕ) → from ≤ k → k < end → has_place set.now.keys k ≡ false }
{
    match set.range(from..).next() {
        Some(place) => { if *place < end { Some(*place) } else { None } }
        None => None,
    }
}

/// Puts those of these places whose node means the fact.
fn put_meant(
    due: &mut BTreeSet<usize, Global>,
    nodes: &[NetNode],
    places: &[usize],
    fact: &Fact,
) -> Result<(), NoMemory>
    ensures kept { OnOk result ((k : ℕ) → has_place due.old.keys k ≡ true → has_place due.new.keys k ≡ true) }
    ensures put { OnOk result ((k : ℕ) (n : NetNodeData) → slice_get nodes.now k ≡ Some n → is_in places.now k ≡ true
        → is_meant (pattern_of (condition_of n.node)) fact.now ≡ true → has_place due.new.keys k ≡ true) }
{
    for place in places {
        put_if_meant(due, nodes, *place, fact)?;
    }
    Ok(())
}

// Puts a place if its node means the fact.
fn put_if_meant(
    due: &mut BTreeSet<usize, Global>,
    nodes: &[NetNode],
    place: usize,
    fact: &Fact,
) -> Result<(), NoMemory>
    ensures kept { OnOk result ((k : ℕ) → has_place due.old.keys k ≡ true → has_place due.new.keys k ≡ true) }
    ensures put { OnOk result ((n : NetNodeData) → slice_get nodes.now place ≡ Some n → is_meant (pattern_of (condition_of n.node)) fact.now ≡ true → has_place due.new.keys place ≡ true) }
{
    if !does_mean(nodes, place, fact) {
        return Ok(());
    }
    due.insert(place)?;
    Ok(())
}

// Whether the node in a place means the fact.
fn does_mean(nodes: &[NetNode], place: usize, fact: &Fact) -> bool
    ensures { (n : NetNodeData) → slice_get nodes.now place ≡ Some n → result ≡ is_meant (pattern_of (condition_of n.node)) fact.now }
{
    match nodes.get(place) {
        Some(node) => node.means(fact),
        None => false,
    }
}

/// Puts the nodes that mean a fact. Of those of its type it asks the ones that a value of the fact tells apart, the ones in whose range it has
/// a number, and the ones that no constant tells apart. It costs a hash for each field by which nodes of the type are told apart, and for each
/// field with ranges the logarithm of these, once and for each node that is asked.
fn put_fact(
    due: &mut BTreeSet<usize, Global>,
    nodes: &[NetNode],
    index: &Index,
    fact: &Fact,
) -> Result<(), NoMemory>
    ensures kept { OnOk result ((k : ℕ) → has_place due.old.keys k ≡ true → has_place due.new.keys k ≡ true) }
    ensures put { OnOk result ((k : ℕ) (n : NetNodeData) → slice_get nodes.now k ≡ Some n → IsNodeFound index.now k n
        → is_meant (pattern_of (condition_of n.node)) fact.now ≡ true → has_place due.new.keys k ≡ true) }
{
    let alpha = &index.alpha;
    put_meant(due, nodes, alpha.others(fact.ty), fact)?;
    for at in alpha.ranges().of_type(fact.ty) {
        put_in_range(due, nodes, alpha.ranges(), *at, fact)?;
    }
    for field in alpha.fields(fact.ty) {
        put_selected(due, nodes, alpha, *field, fact)?;
    }
    Ok(())
}

// Puts the nodes that mean a fact, of those that are told apart by what it has in a field.
fn put_selected(
    due: &mut BTreeSet<usize, Global>,
    nodes: &[NetNode],
    alpha: &AlphaIndex,
    field: usize,
    fact: &Fact,
) -> Result<(), NoMemory>
    ensures kept { OnOk result ((k : ℕ) → has_place due.old.keys k ≡ true → has_place due.new.keys k ≡ true) }
    ensures put { OnOk result ((k : ℕ) (n : NetNodeData) (value : ValueData) → slice_get nodes.now k ≡ Some n → slice_get fact.now.fields field ≡ Some value
        → is_listed alpha.now.constants (list_slot_of alpha.now.mask fact.now.ty.0 field value) k ≡ true
        → is_meant (pattern_of (condition_of n.node)) fact.now ≡ true → has_place due.new.keys k ≡ true) }
{
    match fact.fields.as_slice().get(field) {
        Some(value) => put_meant(due, nodes, alpha.constants(fact.ty, field, value), fact),
        None => Ok(()),
    }
}

// Puts the nodes that mean a fact, of those that are found by a range of the field that the ranges in a place are of.
fn put_in_range(
    due: &mut BTreeSet<usize, Global>,
    nodes: &[NetNode],
    ranges: &Ranges,
    at: usize,
    fact: &Fact,
) -> Result<(), NoMemory>
    ensures kept { OnOk result ((k : ℕ) → has_place due.old.keys k ≡ true → has_place due.new.keys k ≡ true) }
    ensures put { OnOk result ((k : ℕ) (n : NetNodeData) (of : FieldRangesData) (number : ℤ) → slice_get nodes.now k ≡ Some n → slice_get ranges.now.fields.items at ≡ Some of
        → slice_get fact.now.fields of.field ≡ Some (Int number) → (FitsSigned w64 number → is_found number of.ranges k ≡ true)
        → is_meant (pattern_of (condition_of n.node)) fact.now ≡ true → has_place due.new.keys k ≡ true) }
{
    match ranges.get(at) {
        Some(of) => match fact.fields.as_slice().get(of.field) {
            Some(Value::Int(number)) => put_hits(due, nodes, of.ranges.hits(*number), fact),
            _ => Ok(()),
        },
        None => Ok(()),
    }
}

// Puts the nodes that mean a fact, of those that a range finds.
fn put_hits(
    due: &mut BTreeSet<usize, Global>,
    nodes: &[NetNode],
    mut hits: Hits,
    fact: &Fact,
) -> Result<(), NoMemory>
    ensures kept { OnOk result ((k : ℕ) → has_place due.old.keys k ≡ true → has_place due.new.keys k ≡ true) }
    ensures put { OnOk result ((k : ℕ) (n : NetNodeData) → slice_get nodes.now k ≡ Some n → is_in hits.entry k ≡ true
        → is_meant (pattern_of (condition_of n.node)) fact.now ≡ true → has_place due.new.keys k ≡ true) }
{
    'hits: while let Some(place) = hits.next() {
        put_if_meant(due, nodes, place, fact)?;
    }
    Ok(())
}

/// Puts the nodes that mean one of these facts.
fn put_facts(
    due: &mut BTreeSet<usize, Global>,
    nodes: &[NetNode],
    index: &Index,
    facts: &[&Fact],
) -> Result<(), NoMemory>
    ensures kept { OnOk result ((k : ℕ) → has_place due.old.keys k ≡ true → has_place due.new.keys k ≡ true) }
    ensures put { OnOk result ((k : ℕ) (n : NetNodeData) → slice_get nodes.now k ≡ Some n → IsNodeFound index.now k n
        → list_any (is_meant (pattern_of (condition_of n.node))) (lent facts.now) ≡ true → has_place due.new.keys k ≡ true) }
{
    for fact in facts {
        put_fact(due, nodes, index, fact)?;
    }
    Ok(())
}

/// Puts the nodes that a step reaches by facts: those that mean one that goes or comes, and the first ones where something comes to them.
/// It asks the nodes of the types of these facts, but for those that a constant or a range tells apart which the fact does not have.
pub(crate) fn put_reached(
    due: &mut BTreeSet<usize, Global>,
    nodes: &[NetNode],
    index: &Index,
    first: &Delta,
    gone: &[&Fact],
    come: Option<&Fact>,
) -> Result<(), NoMemory>
    ensures kept { OnOk result ((k : ℕ) → has_place due.old.keys k ≡ true → has_place due.new.keys k ≡ true) }
    ensures put { OnOk result ((k : ℕ) (n : NetNodeData) → slice_get nodes.now k ≡ Some n → IsNodeFound index.now k n → has_place due.new.keys k ≡ false
        → is_one_meant (pattern_of (condition_of n.node)) (lent gone.now) (option_map (λ f. f.now) come.entry) ≡ false) }
    ensures begun { OnOk result ((k : ℕ) → is_in index.now.firsts.items k ≡ true → has_place due.new.keys k ≡ false → changes_nothing first.now ≡ true) }
{
    if !changes_nothing(first) {
        put_all(due, index.firsts())?;
    }
    put_facts(due, nodes, index, gone)?;
    if let Some(fact) = come {
        put_fact(due, nodes, index, fact)?;
    }
    Ok(())
}
