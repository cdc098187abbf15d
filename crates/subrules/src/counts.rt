//! How many fields types have with those that they inherit.
ghost use Rattle.std.specs.Prelude.{◌≡◌, IfOk, IfSome};
ghost use Rattle.subrules.specs.Known.{AreKnown, IsCount};

use crate::hierarchy::Hierarchy;
use crate::known::{entry_above, note, nothing_known};
use drl_grammar::WrittenType;
use fx_base::NoMemory;
use std::alloc::Global;

/// Stands for each number of fields above 32.
const MANY: usize = 33;

/// How many fields a type has with those that it inherits, where it does not go round, and where that is known of the type that it extends.
/// It costs a look-up, and takes no memory.
#[tactic(auto, using(crate::proofs::KnownLaws::counted_alone))]
pub(crate) fn count_of(
    types: &Hierarchy,
    known: &[Option<usize>],
    tree: &WrittenType,
) -> Option<usize>
    requires { AreKnown (IsCount types.now) types.now known.now }
    ensures { IfSome result (λ count. IsCount types.now tree.now count) }
{
    let own = tree.fields.as_slice().len().min(MANY);
    if types.parent(tree).is_none() {
        return Some(own);
    }
    match entry_above(types, known, tree) {
        Some(above) => Some((own + (*above).min(MANY)).min(MANY)),
        None => None,
    }
}

/// For each type how many fields it has with those that it inherits, as far as it was found.
pub(crate) fn counts(alloc: Global, types: &Hierarchy) -> Result<Vec<Option<usize>>, NoMemory>
    ensures { IfOk result (λ known. AreKnown (IsCount types.now) types.now known.items) }
{
    let mut known = nothing_known(alloc, types.len())?;
    for place in types.order() {
        match types.at(*place) {
            Some(tree) => {
                let count = count_of(types, &known, tree);
                note(&mut known, *place, count);
            }
            None => {}
        }
    }
    Ok(known)
}
