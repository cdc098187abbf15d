ghost use Rattle.std.specs.Prelude.{◌≡◌, [], map, option_map, option_and_then, option_to_list, length, slice_get, IfOk, IfSome};
ghost use Rattle.std.specs.List.{filter, flat_map};
ghost use Rattle.drl_scope.specs.EntryPoints.{with_names};
ghost use Rattle.drl_scope.specs.Names.{place_of_name};
ghost use Rattle.drl_expr.specs.Words.{is_among};
ghost use Rattle.subrules.specs.Hierarchy.{written_types_of, written_type_names, first_names, written_type_named, parent_of, above, is_type_of_name, is_other, goes_round, extended_by as extended_by_name, has_subtypes};

use crate::order::upper_first;
use drl_grammar::{WrittenBody, WrittenItem, WrittenType};
use drl_scope::Places;
use fx_base::{Copies, NoMemory, Text};
use std::alloc::Global;
use std::marker::Model;

/// The types of a written file, in its order, and which extend which. They are found by their names. Contracts see the types.
#[derive(Drop)]
pub(crate) struct Hierarchy<'a> {
    types: Vec<&'a WrittenType>,
    names: Places,
    /// For each name the place of the first type that has it.
    first: Vec<Option<usize>>,
    extended: Places,
    /// For each type the place of the one that it extends.
    parents: Vec<Option<usize>>,
    /// All places, each behind that of the type that its type extends, where types do not go in a circle. Of it nothing is said: what is
    /// found does not depend on it, the time for it does.
    order: Vec<usize>,
}

impl<'a> Model for Hierarchy<'a> {
    ghost use Rattle.drl_grammar.specs.declared.written.WrittenType.{WrittenType};
    ghost use Rattle.std.specs.Prelude.{List, map};
    ghost use Rattle.subrules.specs.Indexed.{IsIndexed};

    ghost Value = { List WrittenType };

    ghost view = { λ h. map (λ t. t.now) h.types.items };

    ghost invariant = { λ h. IsIndexed (map (λ t. t.now) h.types.items) h.names h.first.items h.extended h.parents.items };
}

// The types of the items.
fn types_in<'a>(alloc: Global, items: &'a [WrittenItem]) -> Result<Vec<&'a WrittenType>, NoMemory>
    ensures { IfOk result (λ types. map (λ t. t.now) types.items ≡ written_types_of items.now) }
{
    let mut types = Vec::new(alloc);
    for item in items {
        match &item.body {
            WrittenBody::Declare(tree) => types.push(tree)?,
            _ => {}
        }
    }
    Ok(types)
}

// The names of types.
fn names_in(alloc: Global, types: &[&WrittenType]) -> Result<Vec<Text>, NoMemory>
    ensures { IfOk result (λ names. names.items ≡ written_type_names (map (λ t. t.now) types.now)) }
{
    let mut names = Vec::with_capacity(alloc, types.len())?;
    for tree in types {
        names.push(tree.name.copy(alloc)?)?;
    }
    Ok(names)
}

// The type of a name.
fn named<'a>(types: &[&'a WrittenType], names: &Places, name: &Text) -> Option<&'a WrittenType>
    requires { names.now ≡ written_type_names (map (λ t. t.now) types.now) }
    ensures { option_map (λ t. t.now) result ≡ written_type_named (map (λ t. t.now) types.now) name.now }
{
    match names.find(name) {
        Some(place) => types.get(place).copied(),
        None => None,
    }
}

// The name of the other type that the type of this name extends, where there is the type.
fn extended_by<'a>(tree: Option<&'a WrittenType>, name: &Text) -> Option<&'a Text>
    ensures { option_to_list (option_map (λ other. other.now) result) ≡ filter (is_other name.now) (option_to_list (option_and_then (λ t. t.now.parent) tree.entry)) }
{
    match tree {
        Some(tree) => match &tree.parent {
            Some(parent) => { if *parent == *name { None } else { Some(parent) } }
            None => None,
        },
        None => None,
    }
}

// The names of this list, each once.
#[tactic(auto, unfolding(drl_scope::specs::EntryPoints::with_names))]
fn each_once(alloc: Global, names: &[Text]) -> Result<Places, NoMemory>
    ensures { IfOk result (λ once. once ≡ with_names [] names.now) }
{
    let mut once = Places::new(alloc);
    for name in names {
        once = once.with_new(alloc, name)?;
    }
    Ok(once)
}

// The names that other types extend.
fn all_extended(
    alloc: Global,
    types: &[&WrittenType],
    names: &Places,
    first: &[Text],
) -> Result<Places, NoMemory>
    requires { names.now ≡ written_type_names (map (λ t. t.now) types.now) }
    ensures { IfOk result (λ all. all ≡ flat_map (extended_by_name (map (λ t. t.now) types.now)) first.now) }
{
    let mut all = Places::new(alloc);
    for name in first {
        match extended_by(named(types, names, name), name) {
            Some(parent) => all = all.with(alloc, parent)?,
            None => {}
        }
    }
    Ok(all)
}

// For each of these names the place of the first type that has it.
fn places_of(alloc: Global, names: &Places, first: &[Text]) -> Result<Vec<Option<usize>>, NoMemory>
    ensures { IfOk result (λ places. places.items ≡ map (place_of_name names.now) first.now) }
{
    let mut places = Vec::with_capacity(alloc, first.len())?;
    for name in first {
        places.push(names.find(name))?;
    }
    Ok(places)
}

// The place of the type that a type extends.
fn place_above(names: &Places, tree: &WrittenType) -> Option<usize>
    ensures { result ≡ option_and_then (place_of_name names.now) tree.now.parent }
{
    match &tree.parent {
        Some(name) => names.find(name),
        None => None,
    }
}

// For each type the place of the one that it extends.
fn parents_of(
    alloc: Global,
    types: &[&WrittenType],
    names: &Places,
) -> Result<Vec<Option<usize>>, NoMemory>
    ensures { IfOk result (λ parents. parents.items ≡ map (λ t. option_and_then (place_of_name names.now) t.parent) (map (λ t. t.now) types.now)) }
{
    let mut parents = Vec::with_capacity(alloc, types.len())?;
    for tree in types {
        parents.push(place_above(names, tree))?;
    }
    Ok(parents)
}

// What stands at a place.
fn entry(parents: &[Option<usize>], place: usize) -> Option<usize>
    ensures { result ≡ option_and_then (λ up. up) (slice_get parents.now place) }
{
    match parents.get(place) {
        Some(up) => *up,
        None => None,
    }
}

// The type at a place.
fn type_at<'a>(types: &[&'a WrittenType], place: usize) -> Option<&'a WrittenType>
    ensures { option_map (λ t. t.now) result ≡ slice_get (map (λ t. t.now) types.now) place }
{
    types.get(place).copied()
}

// The type at a place, and the place of the type that it extends.
fn standing<'a>(
    types: &[&'a WrittenType],
    parents: &[Option<usize>],
    place: usize,
) -> Option<(&'a WrittenType, Option<usize>)>
    requires { parents.now ≡ map (λ t. option_and_then (place_of_name (written_type_names (map (λ t. t.now) types.now))) t.parent) (map (λ t. t.now) types.now) }
    ensures tree { option_map (λ s. s.0.now) result ≡ slice_get (map (λ t. t.now) types.now) place }
    ensures up { IfSome result (λ s. option_and_then (λ k. slice_get (map (λ t. t.now) types.now) k) s.1 ≡ parent_of (map (λ t. t.now) types.now) s.0.now) }
{
    match type_at(types, place) {
        Some(tree) => Some((tree, entry(parents, place))),
        None => None,
    }
}

impl<'a> Hierarchy<'a> {
    /// The types of these items.
    pub(crate) fn of(alloc: Global, items: &'a [WrittenItem]) -> Result<Hierarchy<'a>, NoMemory>
        ensures { IfOk result (λ h. h ≡ written_types_of items.now) }
    {
        let types = types_in(alloc, items)?;
        let all = names_in(alloc, &types)?;
        let names = Places::of(alloc, &all)?;
        let once = each_once(alloc, &all)?;
        let first = places_of(alloc, &names, once.names())?;
        let extended = all_extended(alloc, &types, &names, once.names())?;
        let parents = parents_of(alloc, &types, &names)?;
        let order = upper_first(alloc, &parents)?;
        Ok(Hierarchy {
            types,
            names,
            first,
            extended,
            parents,
            order,
        })
    }

    /// The type of a name. Takes no memory.
    pub(crate) fn find(&self, name: &Text) -> Option<&'a WrittenType>
        ensures { option_map (λ t. t.now) result ≡ written_type_named self.now name.now }
    {
        named(&self.types, &self.names, name)
    }

    /// Whether a type of this name is declared. Takes no memory.
    pub(crate) fn holds(&self, name: &Text) -> bool
        ensures { result ≡ is_among (written_type_names self.now) name.now }
    {
        self.names.holds(name)
    }

    /// How many types there are.
    pub(crate) fn len(&self) -> usize
        ensures { result ≡ length self.now }
    {
        self.types.len()
    }

    /// The type at a place.
    pub(crate) fn at(&self, place: usize) -> Option<&'a WrittenType>
        ensures { option_map (λ t. t.now) result ≡ slice_get self.now place }
    {
        type_at(&self.types, place)
    }

    /// All places, each behind that of the type that its type extends, where types do not go in a circle. Nothing is said of it.
    pub(crate) fn order(&self) -> &[usize] {
        &self.order
    }

    /// For each name the place of the first type that has it.
    pub(crate) fn first(&self) -> &[Option<usize>]
        ensures { result.now ≡ map (place_of_name (written_type_names self.now)) (first_names self.now) }
    {
        &self.first
    }

    /// The place of the type that a type extends. Takes no memory.
    pub(crate) fn place_above(&self, tree: &WrittenType) -> Option<usize>
        ensures { option_and_then (λ k. slice_get self.now k) result ≡ parent_of self.now tree.now }
    {
        place_above(&self.names, tree)
    }

    /// The type at a place, and the place of the type that it extends. It costs no look-up, and takes no memory.
    pub(crate) fn standing(&self, place: usize) -> Option<(&'a WrittenType, Option<usize>)>
        ensures tree { option_map (λ s. s.0.now) result ≡ slice_get self.now place }
        ensures up { IfSome result (λ s. option_and_then (λ k. slice_get self.now k) s.1 ≡ parent_of self.now s.0.now) }
    {
        standing(&self.types, &self.parents, place)
    }

    /// The type that a type extends. Takes no memory.
    pub(crate) fn parent(&self, tree: &WrittenType) -> Option<&'a WrittenType>
        ensures { option_map (λ t. t.now) result ≡ parent_of self.now tree.now }
    {
        match &tree.parent {
            Some(name) => self.find(name),
            None => None,
        }
    }

    /// The types above a type, the nearest first. It costs a look-up for each.
    #[tactic(auto, unfolding(crate::specs::Hierarchy::ancestors))]
    pub(crate) fn above(
        &self,
        alloc: Global,
        tree: &WrittenType,
    ) -> Result<Vec<&'a WrittenType>, NoMemory>
        ensures { IfOk result (λ found. map (λ t. t.now) found.items ≡ above self.now tree.now) }
    {
        let mut found = Vec::new(alloc);
        let mut up = self.parent(tree);
        for _ in 0..self.types.len() {
            match up {
                Some(next) => {
                    found.push(next)?;
                    up = self.parent(next);
                }
                None => return Ok(found),
            }
        }
        Ok(found)
    }

    /// Whether the way upward from a type goes in a circle. It costs a look-up for each step. Takes no memory.
    #[tactic(auto, unfolding(crate::specs::Hierarchy::goes_on))]
    pub(crate) fn goes_round(&self, tree: &WrittenType) -> bool
        ensures { result ≡ goes_round self.now tree.now }
    {
        let mut up = self.parent(tree);
        for _ in 0..self.types.len() {
            match up {
                Some(next) => up = self.parent(next),
                None => return false,
            }
        }
        up.is_some()
    }

    /// Whether another type extends the type of this name. Takes no memory.
    pub(crate) fn has_subtypes(&self, name: &Text) -> bool
        ensures { result ≡ has_subtypes self.now name.now }
    {
        self.extended.holds(name)
    }
}
