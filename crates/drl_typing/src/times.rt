ghost use Rattle.std.specs.Prelude.{◌≡◌, Some, IfOk};
ghost use Rattle.std.specs.List.{list_any};
ghost use Rattle.drl_scope.specs.Declarations.{type_tree_named};
ghost use Rattle.drl_scope.specs.Sight.{begin, meaning_of};
ghost use Rattle.drl_typing.specs.Times.{is_plain_fact, part_lacks_times, source_lacks_times, has_no_times};
ghost use Rattle.drl_typing.specs.Uses.{any_condition};

use drl_grammar::{CondTree, Part, SourceTree};
use drl_scope::{Declared, DeclaredType, Meaning, Place, Seen, source_of};
use fx_base::{NoMemory, Text};
use std::alloc::Global;

fn is_plain(meaning: &Meaning) -> bool
    ensures { result ≡ is_plain_fact (Some meaning.now) }
{
    match meaning.seen() {
        Seen::Fact { fact: _, ty } => !ty.is_event(),
        Seen::Field { .. } | Seen::Result { .. } => false,
    }
}

fn is_plain_in(place: &Place, var: &Text) -> bool
    ensures { result ≡ is_plain_fact (meaning_of place.now.sight var.now) }
{
    match place.find(var) {
        Some(meaning) => is_plain(meaning),
        None => false,
    }
}

fn lacks_times_in(ty: &DeclaredType, place: &Place, part: &Part) -> bool
    ensures { result ≡ part_lacks_times ty.now place.now.sight part.now }
{
    match part {
        Part::Temporal { other, .. } => !ty.is_event() || is_plain_in(place, other),
        Part::Bind { .. } | Part::AnyOf(_) => false,
    }
}

fn lacks_times_in_some(ty: &DeclaredType, place: &Place, parts: &[Part]) -> bool
    ensures { result ≡ list_any (part_lacks_times ty.now place.now.sight) parts.now }
{
    parts.iter().any(|part| lacks_times_in(ty, place, part))
}

fn does_source_lack_times(types: &Declared, place: &Place, source: &SourceTree) -> bool
    ensures { result ≡ source_lacks_times (type_tree_named types.now source.now.ty) place.now.sight source.now }
{
    match types.find(&source.ty) {
        Some(ty) => {
            (source.window.is_some() && !ty.is_event())
                || lacks_times_in_some(ty, place, source.parts.as_slice())
        }
        None => false,
    }
}

fn is_without_times(types: &Declared, place: &Place, condition: &CondTree) -> bool
    ensures { result ≡ has_no_times types.now place.now condition.now }
{
    does_source_lack_times(types, place, source_of(condition))
}

/// Whether a temporal test or a window of one of the conditions looks at the times of a fact whose type is no event type.
#[tactic(auto, unfolding(crate::specs::Uses::any_condition))]
pub fn lack_times(
    alloc: Global,
    types: &Declared,
    conditions: &[CondTree],
) -> Result<bool, NoMemory>
    ensures { IfOk result (λ lacks. lacks ≡ any_condition (has_no_times types.now) types.now begin conditions.now) }
{
    let mut place = Place::begin(alloc);
    for condition in conditions {
        if is_without_times(types, &place, condition) {
            return Ok(true);
        }
        place = place.behind(alloc, types, condition)?;
    }
    Ok(false)
}
