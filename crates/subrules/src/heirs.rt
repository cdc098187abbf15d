//! Types with all that they inherit.
ghost use Rattle.std.specs.Prelude.{◌≡◌, IfOk, IfSome};
ghost use Rattle.subrules.specs.Expanded.{plain_type};
ghost use Rattle.subrules.specs.Known.{AreKnown, IsHeir};

use crate::hierarchy::Hierarchy;
use crate::known::{entry_above, note, nothing_known};
use crate::types::{behind, plain};
use drl_grammar::{TypeTree, WrittenType};
use fx_base::NoMemory;
use std::alloc::Global;

// A type that does not go round, with all that it inherits, where that is known of the type that it extends.
#[tactic(auto, using(crate::proofs::HeirLaws::heir_alone))]
fn heir(
    alloc: Global,
    types: &Hierarchy,
    known: &[Option<TypeTree>],
    tree: &WrittenType,
) -> Result<Option<TypeTree>, NoMemory>
    requires { AreKnown (IsHeir types.now) types.now known.now }
    ensures { IfOk result (λ made. IfSome made (λ made. IsHeir types.now tree.now made)) }
{
    if types.parent(tree).is_none() {
        return Ok(Some(plain(alloc, types, tree)?));
    }
    match entry_above(types, known, tree) {
        Some(above) => {
            let made = behind(alloc, above, tree)?;
            Ok(Some(made))
        }
        None => Ok(None),
    }
}

/// For each type it with all that it inherits, as far as it was found.
pub(crate) fn heirs(alloc: Global, types: &Hierarchy) -> Result<Vec<Option<TypeTree>>, NoMemory>
    ensures { IfOk result (λ known. AreKnown (IsHeir types.now) types.now known.items) }
{
    let mut known = nothing_known(alloc, types.len())?;
    for place in types.order() {
        match types.at(*place) {
            Some(tree) => {
                let made = heir(alloc, types, &known, tree)?;
                note(&mut known, *place, made);
            }
            None => {}
        }
    }
    Ok(known)
}

/// A type with all that it inherits. Where that is known of the type that it extends, it costs what is copied, else also a look-up for each type above
/// it.
pub(crate) fn whole(
    alloc: Global,
    types: &Hierarchy,
    known: &[Option<TypeTree>],
    tree: &WrittenType,
) -> Result<TypeTree, NoMemory>
    requires { AreKnown (IsHeir types.now) types.now known.now }
    ensures { IfOk result (λ made. made ≡ plain_type types.now tree.now) }
{
    match heir(alloc, types, known, tree)? {
        Some(made) => Ok(made),
        None => plain(alloc, types, tree),
    }
}
