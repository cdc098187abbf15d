//! Which type cannot be written out.
ghost use Rattle.std.specs.Prelude.{◌≡◌, ◌+◌, map, nat_lt, IfOk, IfSome};
ghost use Rattle.subrules.specs.Faults.{lacks_parent, has_many_fields, fault_of_type, number_of_fields};
ghost use Rattle.subrules.specs.Known.{AreKnown, IsCount};

use crate::counts::count_of;
use crate::fault::ExpandCode;
use crate::hierarchy::Hierarchy;
use drl_grammar::WrittenType;
use fx_base::NoMemory;
use std::alloc::Global;

/// The most fields that a type may have with those that it inherits.
const FIELDS_MAX: usize = 32;

// Whether a type extends one that is not declared.
fn lacks_parent(types: &Hierarchy, tree: &WrittenType) -> bool
    ensures { result ≡ lacks_parent types.now tree.now }
{
    match &tree.parent {
        Some(name) => !types.holds(name),
        None => false,
    }
}

// Whether a type that extends one has more than 32 fields.
#[tactic(auto, using(crate::proofs::FieldLaws::fields_counted))]
fn has_many_fields(alloc: Global, types: &Hierarchy, tree: &WrittenType) -> Result<bool, NoMemory>
    ensures { IfOk result (λ many. many ≡ has_many_fields types.now tree.now) }
{
    if tree.parent.is_none() {
        return Ok(false);
    }
    let above = types.above(alloc, tree)?;
    Ok(exceed(tree.fields.as_slice().len(), &above))
}

// Whether so many fields and those of these types are more than 32.
fn exceed(own: usize, above: &[&WrittenType]) -> bool
    ensures { result ≡ nat_lt 32 (own + number_of_fields (map (λ t. t.now) above.now)) }
{
    let mut count = own;
    for tree in above {
        if count > FIELDS_MAX {
            return true;
        }
        count += tree.fields.as_slice().len();
    }
    count > FIELDS_MAX
}

// Whether a type has more than 32 fields, given how many it has with those that it inherits, where that is known.
#[tactic(auto, using(crate::proofs::KnownLaws::many_counted))]
fn exceeds(
    alloc: Global,
    types: &Hierarchy,
    tree: &WrittenType,
    count: Option<usize>,
) -> Result<bool, NoMemory>
    requires { IfSome count (λ count. IsCount types.now tree.now count) }
    ensures { IfOk result (λ many. many ≡ has_many_fields types.now tree.now) }
{
    match count {
        Some(count) => Ok(tree.parent.is_some() && count > FIELDS_MAX),
        None => has_many_fields(alloc, types, tree),
    }
}

/// The fault of a type, given how many fields types have with those that they inherit, as far as it was found. Where that is known of the type that
/// it extends, it costs a look-up, else one for each type above it.
pub(crate) fn fault_of_type(
    alloc: Global,
    types: &Hierarchy,
    known: &[Option<usize>],
    tree: &WrittenType,
) -> Result<Option<ExpandCode>, NoMemory>
    requires { AreKnown (IsCount types.now) types.now known.now }
    ensures { IfOk result (λ code. code ≡ fault_of_type types.now tree.now) }
{
    if lacks_parent(types, tree) {
        return Ok(Some(ExpandCode::UnknownType));
    }
    let count = count_of(types, known, tree);
    if count.is_none() && types.goes_round(tree) {
        return Ok(Some(ExpandCode::BadExtends));
    }
    if exceeds(alloc, types, tree, count)? {
        return Ok(Some(ExpandCode::LimitPassed));
    }
    Ok(None)
}
