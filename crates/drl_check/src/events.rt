ghost use Rattle.std.specs.Prelude.{◌≡◌, Some, IfOk};
ghost use Rattle.std.specs.List.{list_any};
ghost use Rattle.drl_check.specs.Events.{meta_lacks, annotation_lacks, is_of_events, is_no_event, meta_misfits, has_bad_timestamp, marks_event, is_event_meant, modifies_event, is_observed_meant, retracts_observed, is_reference_named, is_reference_meant, fixes_reference};
ghost use Rattle.drl_scope.specs.Observed.{is_event_among};
ghost use Rattle.drl_scope.specs.Sight.{begin, behind_all, meaning_of, sight_of_actions};

use drl_grammar::{ActTree, CondTree, Meta, RuleTree, TypeTree};
use drl_scope::{
    Declared, DeclaredType, Meaning, Place, Places, Seen, is_event_tree, is_reference_tree,
};
use drl_typing::is_whole;
use fx_base::{NoMemory, Text};
use std::alloc::Global;

// ---- annotations

fn is_meta_lacking(ty: &DeclaredType, meta: &Meta) -> bool
    ensures { result ≡ meta_lacks ty.now meta.now }
{
    match meta {
        Meta::Timestamp(field) => !ty.has(field),
        Meta::Duration(field) => !ty.has(field),
        Meta::Role(_) | Meta::Expires(_) | Meta::Reference => false,
    }
}

fn is_some_lacking(ty: &DeclaredType, metas: &[Meta]) -> bool
    ensures { result ≡ list_any (meta_lacks ty.now) metas.now }
{
    metas.iter().any(|meta| is_meta_lacking(ty, meta))
}

/// Whether an annotation names a field that the type does not have.
pub(crate) fn lacks_annotated(alloc: Global, tree: &TypeTree) -> Result<bool, NoMemory>
    ensures { IfOk result (λ lacks. lacks ≡ annotation_lacks tree.now) }
{
    let ty = DeclaredType::of(alloc, tree)?;
    Ok(is_some_lacking(&ty, tree.metas.as_slice()))
}

fn speaks_of_events(meta: &Meta) -> bool
    ensures { result ≡ is_of_events meta.now }
{
    match meta {
        Meta::Role(_) | Meta::Reference => false,
        Meta::Timestamp(_) | Meta::Duration(_) | Meta::Expires(_) => true,
    }
}

fn some_of_events(metas: &[Meta]) -> bool
    ensures { result ≡ list_any is_of_events metas.now }
{
    metas.iter().any(|meta| speaks_of_events(meta))
}

/// Whether a plain type has an annotation that speaks of the times of events.
pub(crate) fn is_plain_with_times(tree: &TypeTree) -> bool
    ensures { result ≡ is_no_event tree.now }
{
    !is_event_tree(tree) && some_of_events(tree.metas.as_slice())
}

fn is_meta_misfit(ty: &DeclaredType, meta: &Meta) -> bool
    ensures { result ≡ meta_misfits ty.now meta.now }
{
    match meta {
        Meta::Timestamp(field) => !is_whole(ty.kind_of(field)),
        Meta::Duration(field) => !is_whole(ty.kind_of(field)),
        Meta::Role(_) | Meta::Expires(_) | Meta::Reference => false,
    }
}

fn is_some_misfit(ty: &DeclaredType, metas: &[Meta]) -> bool
    ensures { result ≡ list_any (meta_misfits ty.now) metas.now }
{
    metas.iter().any(|meta| is_meta_misfit(ty, meta))
}

/// Whether the field of a timestamp or a duration holds no whole numbers.
pub(crate) fn misfits_annotated(alloc: Global, tree: &TypeTree) -> Result<bool, NoMemory>
    ensures { IfOk result (λ misfits. misfits ≡ has_bad_timestamp tree.now) }
{
    let ty = DeclaredType::of(alloc, tree)?;
    Ok(is_some_misfit(&ty, tree.metas.as_slice()))
}

/// Whether an event type is marked as a reference type.
pub(crate) fn is_marked_event(tree: &TypeTree) -> bool
    ensures { result ≡ marks_event tree.now }
{
    is_event_tree(tree) && is_reference_tree(tree)
}

// ---- actions

fn is_event_seen(meaning: &Meaning) -> bool
    ensures { result ≡ is_event_meant (Some meaning.now) }
{
    match meaning.seen() {
        Seen::Fact { fact: _, ty } => ty.is_event(),
        Seen::Field { .. } | Seen::Result { .. } => false,
    }
}

fn does_modify_event(place: &Place, action: &ActTree) -> bool
    ensures { result ≡ modifies_event place.now.sight action.now }
{
    match action {
        ActTree::Modify { var, .. } => match place.find(var) {
            Some(meaning) => is_event_seen(meaning),
            None => false,
        },
        ActTree::Insert { .. } | ActTree::Retract(_) => false,
    }
}

fn do_modify_event(place: &Place, actions: &[ActTree]) -> bool
    ensures { result ≡ list_any (modifies_event place.now.sight) actions.now }
{
    actions
        .iter()
        .any(|action| does_modify_event(place, action))
}

// What is in sight behind all conditions of a rule, which is what its actions see.
#[tactic(auto, unfolding(drl_scope::specs::Sight::behind_all))]
fn behind_conditions<'a, 'b>(
    alloc: Global,
    types: &'a Declared<'b>,
    conditions: &[CondTree],
) -> Result<Place<'a, 'b>, NoMemory>
    ensures { IfOk result (λ p. p ≡ behind_all types.now begin conditions.now) }
{
    let mut place = Place::begin(alloc);
    for condition in conditions {
        place = place.behind(alloc, types, condition)?;
    }
    Ok(place)
}

/// Whether one of the actions of a rule modifies an event.
pub(crate) fn modifies_some_event(
    alloc: Global,
    types: &Declared,
    tree: &RuleTree,
) -> Result<bool, NoMemory>
    ensures { IfOk result (λ modifies. modifies ≡ list_any (modifies_event (sight_of_actions types.now tree.now.conditions)) tree.now.actions) }
{
    let place = behind_conditions(alloc, types, tree.conditions.as_slice())?;
    Ok(do_modify_event(&place, tree.actions.as_slice()))
}

// ---- retractions

fn is_observed_seen(watched: &Places, meaning: &Meaning) -> bool
    ensures { result ≡ is_observed_meant (is_event_among watched.now) (Some meaning.now) }
{
    match meaning.seen() {
        Seen::Fact { fact: _, ty } => ty.is_event() && watched.holds(ty.name()),
        Seen::Field { .. } | Seen::Result { .. } => false,
    }
}

fn does_retract_observed(watched: &Places, place: &Place, action: &ActTree) -> bool
    ensures { result ≡ retracts_observed (is_event_among watched.now) place.now.sight action.now }
{
    match action {
        ActTree::Retract(var) => match place.find(var) {
            Some(meaning) => is_observed_seen(watched, meaning),
            None => false,
        },
        ActTree::Insert { .. } | ActTree::Modify { .. } => false,
    }
}

fn do_retract_observed(watched: &Places, place: &Place, actions: &[ActTree]) -> bool
    ensures { result ≡ list_any (retracts_observed (is_event_among watched.now) place.now.sight) actions.now }
{
    actions
        .iter()
        .any(|action| does_retract_observed(watched, place, action))
}

/// Whether one of the actions of a rule retracts an event of a type that is observed, where `watched` are the names of the
/// types that the conditions of the file watch.
pub(crate) fn retracts_some_observed(
    alloc: Global,
    types: &Declared,
    watched: &Places,
    tree: &RuleTree,
) -> Result<bool, NoMemory>
    ensures { IfOk result (λ retracts. retracts ≡ list_any (retracts_observed (is_event_among watched.now) (sight_of_actions types.now tree.now.conditions)) tree.now.actions) }
{
    let place = behind_conditions(alloc, types, tree.conditions.as_slice())?;
    Ok(do_retract_observed(watched, &place, tree.actions.as_slice()))
}

// ---- reference types

fn is_reference_type(types: &Declared, name: &Text) -> bool
    ensures { result ≡ is_reference_named types.now name.now }
{
    match types.find(name) {
        Some(ty) => ty.is_reference(),
        None => false,
    }
}

fn is_reference_seen(meaning: &Meaning) -> bool
    ensures { result ≡ is_reference_meant (Some meaning.now) }
{
    match meaning.seen() {
        Seen::Fact { fact: _, ty } => ty.is_reference(),
        Seen::Field { .. } | Seen::Result { .. } => false,
    }
}

fn is_reference_variable(place: &Place, name: &Text) -> bool
    ensures { result ≡ is_reference_meant (meaning_of place.now.sight name.now) }
{
    match place.find(name) {
        Some(meaning) => is_reference_seen(meaning),
        None => false,
    }
}

fn does_fix_reference(types: &Declared, place: &Place, action: &ActTree) -> bool
    ensures { result ≡ fixes_reference types.now place.now.sight action.now }
{
    match action {
        ActTree::Insert { ty, .. } => is_reference_type(types, ty),
        ActTree::Modify { var, .. } => is_reference_variable(place, var),
        ActTree::Retract(var) => is_reference_variable(place, var),
    }
}

fn do_fix_reference(types: &Declared, place: &Place, actions: &[ActTree]) -> bool
    ensures { result ≡ list_any (fixes_reference types.now place.now.sight) actions.now }
{
    actions
        .iter()
        .any(|action| does_fix_reference(types, place, action))
}

/// Whether one of the actions of a rule inserts, modifies or retracts a fact of a reference type.
pub(crate) fn fixes_some_reference(
    alloc: Global,
    types: &Declared,
    tree: &RuleTree,
) -> Result<bool, NoMemory>
    ensures { IfOk result (λ fixes. fixes ≡ list_any (fixes_reference types.now (sight_of_actions types.now tree.now.conditions)) tree.now.actions) }
{
    let place = behind_conditions(alloc, types, tree.conditions.as_slice())?;
    Ok(do_fix_reference(types, &place, tree.actions.as_slice()))
}
