ghost use Rattle.std.specs.Prelude.{◌≡◌, ◌<◌, ◌≤◌, ◌++◌, ◌∷◌, [], cond, ℕ, Some, length, nat_lt, slice_get, IfOk, OnOk, IsTrue, true, false};
ghost use Rattle.std.specs.List.{filter};
ghost use Rattle.std.specs.List.Sorted.{IsStrictlySortedBy};
ghost use Rattle.fx_base.specs.Lists.{In};
ghost use Rattle.row_delta.specs.declared.extra.Extra.{Extra as ExtraData};
ghost use Rattle.row_delta.specs.Rows.{has, InOrder};
ghost use Rattle.rule_model.specs.Lent.{lent};
ghost use Rattle.laden_rows.specs.Extras.{extra_cmp};
ghost use Rattle.rete_net.specs.declared.build.Owner.{Owner as OwnerData};
ghost use Rattle.rete_net.specs.Loads.{is_fact_of_type, is_extra_under, comes_before, grouped_facts_at};

use crate::build::Owner;
use fx_base::{Fact, NoMemory, TypeId};
use row_delta::{Extra, Row};
use std::alloc::Global;

// Puts empty lists at the end until there is one of this number.
fn reach<'f>(groups: &mut Vec<Vec<&'f Fact>>, alloc: Global, number: usize) -> Result<(), NoMemory>
    ensures reached { OnOk result (number < length groups.new.items) }
    ensures kept { OnOk result ((ty : ℕ) → grouped_facts_at groups.new.items ty ≡ grouped_facts_at groups.old.items ty) }
{
    'reach: while groups.len() <= number {
        groups.push(Vec::new(alloc))?;
    }
    Ok(())
}

// Puts a fact at the end of those of its type.
fn put_fact<'f>(
    groups: &mut Vec<Vec<&'f Fact>>,
    alloc: Global,
    fact: &'f Fact,
) -> Result<(), NoMemory>
    ensures { OnOk result ((ty : ℕ) → grouped_facts_at groups.new.items ty ≡ grouped_facts_at groups.old.items ty ++ cond (is_fact_of_type ty fact.now) (fact.now ∷ []) []) }
{
    let number = usize::from(fact.ty.0);
    reach(groups, alloc, number)?;
    groups[number].push(fact)?;
    Ok(())
}

/// The facts by the numbers of their types, those of a type in their order. It costs the facts and the types.
pub(crate) fn by_type<'f>(alloc: Global, kept: &[&'f Fact]) -> Result<Vec<Vec<&'f Fact>>, NoMemory>
    ensures { IfOk result (λ groups. (ty : ℕ) → grouped_facts_at groups.items ty ≡ filter (is_fact_of_type ty) (lent kept.now)) }
{
    let mut groups = Vec::new(alloc);
    for fact in kept {
        put_fact(&mut groups, alloc, *fact)?;
    }
    Ok(groups)
}

/// The facts of a type, out of those by types, or these where it has none. Takes no memory.
pub(crate) fn of_type<'g, 'f>(
    groups: &'g [Vec<&'f Fact>],
    none: &'g [&'f Fact],
    ty: TypeId,
) -> &'g [&'f Fact]
    ensures { none.now ≡ [] → lent result.now ≡ grouped_facts_at groups.now ty.0 }
{
    match groups.get(usize::from(ty.0)) {
        Some(facts) => facts.as_slice(),
        None => none,
    }
}

// Whether an extra comes before an owner, or under it too.
fn comes_before(extra: &Extra, owner: Owner, under: bool) -> bool
    ensures { result ≡ comes_before under owner extra.now }
{
    let rule = extra.rule.0;
    let condition = extra.condition;
    rule < owner.rule.0
        || (rule == owner.rule.0
            && (condition < owner.condition || (under && condition == owner.condition)))
}

// How many of these extras come before an owner, or under it too. It costs the logarithm of their number.
fn count_before(extras: &[Extra], owner: Owner, under: bool) -> usize
    ensures within { result ≤ length extras.now }
    ensures parted { IsStrictlySortedBy extra_cmp extras.now → (k : ℕ) (e : ExtraData) → slice_get extras.now k ≡ Some e → comes_before under owner e ≡ nat_lt k result }
{
    let mut low = 0;
    let mut high = extras.len();
    'search: while low < high {
        let middle = low + (high - low) / 2;
        if comes_before(&extras[middle], owner, under) {
            low = middle + 1;
        } else {
            high = middle;
        }
    }
    low
}

// The extras under an owner, of extras in their order. It costs the logarithm of their number.
fn extras_under(extras: &[Extra], owner: Owner) -> &[Extra]
    ensures { IsStrictlySortedBy extra_cmp extras.now → result.now ≡ filter (is_extra_under owner) extras.now }
{
    let from = &extras[count_before(extras, owner, false)..];
    &from[..count_before(from, owner, true)]
}

/// The extras under the owner in a place, of extras in their order. It costs the logarithm of their number.
pub(crate) fn extras_of<'e>(extras: &'e [Extra], owners: &[Owner], place: usize) -> &'e [Extra]
    ensures { IsStrictlySortedBy extra_cmp extras.now → (o : OwnerData) → slice_get owners.now place ≡ Some o → result.now ≡ filter (is_extra_under o) extras.now }
{
    match owners.get(place) {
        Some(owner) => extras_under(extras, *owner),
        None => &[],
    }
}

// Whether a row is among rows that are in order. It costs the logarithm of their number.
fn has_row(rows: &[Row], row: &Row) -> bool
    ensures { InOrder rows.now → result ≡ has rows.now row.now }
{
    match rows.binary_search(row) {
        Ok(_) => true,
        Err(_) => false,
    }
}

/// Whether the rows of these extras are all among rows that are in order. It costs for each extra the logarithm of the rows.
pub(crate) fn have_rows(extras: &[Extra], rows: &[Row]) -> bool
    ensures there { IsTrue result → InOrder rows.now → (e : ExtraData) → In e extras.now → has rows.now e.row ≡ true }
    ensures missing { result ≡ false → InOrder rows.now → (e : ExtraData) × In e extras.now × (has rows.now e.row ≡ false) }
{
    for extra in extras {
        if !has_row(rows, &extra.row) {
            return false;
        }
    }
    true
}
