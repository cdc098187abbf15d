//! Tables of what is known of types, by their places.
ghost use Rattle.std.specs.Prelude.{◌≡◌, ◌⊎◌, ℕ, false, is_some, slice_get, Some, IfOk, IfSome};
ghost use Rattle.std.specs.List.{list_any};
ghost use Rattle.subrules.specs.Hierarchy.{parent_of};

use crate::hierarchy::Hierarchy;
use drl_grammar::WrittenType;
use fx_base::NoMemory;
use std::alloc::Global;

/// A table for so many types, of which nothing is known.
#[tactic(auto, using(crate::proofs::KnownLaws::none_more))]
pub(crate) fn nothing_known<T: Drop>(alloc: Global, many: usize) -> Result<Vec<Option<T>>, NoMemory>
    ensures { IfOk result (λ known. list_any is_some known.items ≡ false) }
{
    let mut known = Vec::with_capacity(alloc, many)?;
    for _ in 0..many {
        known.push(None)?;
    }
    Ok(known)
}

/// Notes what is known of the type at a place, where the table has the place.
pub(crate) fn note<T: Drop>(known: &mut Vec<Option<T>>, place: usize, entry: Option<T>)
    ensures { (k : ℕ) (other : T) → slice_get known.new.items k ≡ Some (Some other)
        → (slice_get known.old.items k ≡ Some (Some other)) ⊎ ((k ≡ place) × (entry ≡ Some other)) }
{
    if place < known.len() {
        known[place] = entry;
    }
}

/// What is known of the type at a place.
pub(crate) fn entry<T>(known: &[Option<T>], place: usize) -> Option<&T>
    ensures { IfSome result (λ entry. slice_get known.now place ≡ Some (Some entry.now)) }
{
    match known.get(place) {
        Some(Some(entry)) => Some(entry),
        _ => None,
    }
}

/// What is known of the type that a type extends. It costs a look-up.
pub(crate) fn entry_above<'a, T>(
    types: &Hierarchy,
    known: &'a [Option<T>],
    tree: &WrittenType,
) -> Option<&'a T>
    ensures { IfSome result (λ entry. (k : ℕ) × (slice_get types.now k ≡ parent_of types.now tree.now) × (slice_get known.now k ≡ Some (Some entry.now))) }
{
    match types.place_above(tree) {
        Some(place) => entry(known, place),
        None => None,
    }
}
