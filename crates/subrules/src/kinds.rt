//! The kinds of a type: itself, and the other types below it.
ghost use Rattle.std.specs.Prelude.{◌≡◌, ◌++◌, slice_get, option_map, option_and_then, option_to_list, IfOk, OnOk};
ghost use Rattle.std.specs.List.{flat_map, list_any};
ghost use Rattle.subrules.specs.Hierarchy.{parent_of, above, is_type_of_name, kinds_of};
ghost use Rattle.subrules.specs.Known.{AreKnown, IsLeading, subtype_at as subtype_at_place};

use crate::hierarchy::Hierarchy;
use crate::known::{entry, note, nothing_known};
use drl_grammar::WrittenType;
use fx_base::{Copies, NoMemory, Text};
use std::alloc::Global;

// Whether a type has this name.
fn is_named(tree: &WrittenType, name: &Text) -> bool
    ensures { result ≡ is_type_of_name name.now tree.now }
{
    tree.name == *name
}

// Whether a type of this name stands above a type. It costs a look-up for each type above it.
#[tactic(auto, unfolding(crate::specs::Hierarchy::ancestors))]
fn climbs_to(types: &Hierarchy, over: &Text, tree: &WrittenType) -> bool
    ensures { result ≡ list_any (is_type_of_name over.now) (above types.now tree.now) }
{
    let mut up = types.parent(tree);
    for _ in 0..types.len() {
        match up {
            Some(next) => {
                if is_named(next, over) {
                    return true;
                }
                up = types.parent(next);
            }
            None => return false,
        }
    }
    false
}

// The same of a type that extends the one at a place. Where it is known of this one, it costs a step.
fn known_or_climbed(
    types: &Hierarchy,
    over: &Text,
    known: &[Option<bool>],
    tree: &WrittenType,
    up: usize,
) -> bool
    requires known { AreKnown (IsLeading types.now over.now) types.now known.now }
    requires up { slice_get types.now up ≡ parent_of types.now tree.now }
    ensures { result ≡ list_any (is_type_of_name over.now) (above types.now tree.now) }
{
    match entry(known, up) {
        Some(found) => *found,
        None => climbs_to(types, over, tree),
    }
}

// The same of a type that extends the one at a place, if any.
#[tactic(auto, using(crate::proofs::KnownLaws::leads_alone))]
fn stands_below(
    types: &Hierarchy,
    over: &Text,
    known: &[Option<bool>],
    tree: &WrittenType,
    up: Option<usize>,
) -> bool
    requires known { AreKnown (IsLeading types.now over.now) types.now known.now }
    requires up { option_and_then (λ k. slice_get types.now k) up ≡ parent_of types.now tree.now }
    ensures { result ≡ list_any (is_type_of_name over.now) (above types.now tree.now) }
{
    match up {
        Some(up) => known_or_climbed(types, over, known, tree, up),
        None => false,
    }
}

// Whether a type that extends the one at a place, if any, or one above it has this name.
fn leads_to(
    types: &Hierarchy,
    over: &Text,
    known: &[Option<bool>],
    tree: &WrittenType,
    up: Option<usize>,
) -> bool
    requires known { AreKnown (IsLeading types.now over.now) types.now known.now }
    requires up { option_and_then (λ k. slice_get types.now k) up ≡ parent_of types.now tree.now }
    ensures { IsLeading types.now over.now tree.now result }
{
    is_named(tree, over) || stands_below(types, over, known, tree, up)
}

// For each type whether it or one above it has this name, as far as it was found.
fn leading(alloc: Global, types: &Hierarchy, over: &Text) -> Result<Vec<Option<bool>>, NoMemory>
    ensures { IfOk result (λ known. AreKnown (IsLeading types.now over.now) types.now known.items) }
{
    let mut known = nothing_known(alloc, types.len())?;
    for place in types.order() {
        match types.standing(*place) {
            Some((tree, up)) => {
                let leads = leads_to(types, over, &known, tree, up);
                note(&mut known, *place, Some(leads));
            }
            None => {}
        }
    }
    Ok(known)
}

// The name of the type at a place, where it is another one and stands below the type of this name.
fn subtype_at<'a>(
    types: &Hierarchy<'a>,
    name: &Text,
    known: &[Option<bool>],
    place: Option<usize>,
) -> Option<&'a Text>
    requires { AreKnown (IsLeading types.now name.now) types.now known.now }
    ensures { option_to_list (option_map (λ found. found.now) result) ≡ subtype_at_place types.now name.now place }
{
    match place {
        Some(place) => match types.standing(place) {
            Some((tree, up)) => {
                if is_named(tree, name) {
                    return None;
                }
                if stands_below(types, name, known, tree, up) {
                    Some(&tree.name)
                } else {
                    None
                }
            }
            None => None,
        },
        None => None,
    }
}

// Adds the names of the types at these places that are other ones, and stand below the type of a name.
fn add_below(
    alloc: Global,
    types: &Hierarchy,
    kinds: &mut Vec<Text>,
    name: &Text,
    places: &[Option<usize>],
) -> Result<(), NoMemory>
    ensures { OnOk result (kinds.new.items ≡ kinds.old.items ++ flat_map (subtype_at_place types.now name.now) places.now) }
{
    let known = leading(alloc, types, name)?;
    for place in places {
        match subtype_at(types, name, &known, *place) {
            Some(other) => kinds.push(other.copy(alloc)?)?,
            None => {}
        }
    }
    Ok(())
}

/// The name of a type, and those of the other types below it in the order of the file. Where no other type extends it, it costs a
/// look-up, else a step for each type.
#[tactic(auto, using(crate::proofs::KnownLaws::all_subtypes))]
pub(crate) fn kinds(alloc: Global, types: &Hierarchy, name: &Text) -> Result<Vec<Text>, NoMemory>
    ensures { IfOk result (λ kinds. kinds.items ≡ kinds_of types.now name.now) }
{
    let mut kinds = Vec::new(alloc);
    kinds.push(name.copy(alloc)?)?;
    if types.has_subtypes(name) {
        add_below(alloc, types, &mut kinds, name, types.first())?;
    }
    Ok(kinds)
}
