//! Lists that are merged into one.
ghost use Rattle.std.specs.Prelude.{◌≡◌, ◌||◌, IfOk, OnOk};
ghost use Rattle.std.specs.List.{list_any};
ghost use Rattle.std.specs.Ordering.{eq_by_cmp};
ghost use Rattle.std.specs.List.Sorted.{IsStrictlySortedBy};

use fx_base::NoMemory;
use std::alloc::Global;
use std::collections::BTreeSet;

/// The elements of two lists in order, in order, each once. Where both have any, it costs the logarithm of their number for each.
pub(crate) fn merged<K: Ord + Drop>(
    alloc: Global,
    first: Vec<K>,
    second: Vec<K>,
) -> Result<Vec<K>, NoMemory>
    requires first { IsStrictlySortedBy K.cmp first.items }
    requires second { IsStrictlySortedBy K.cmp second.items }
    ensures members { IfOk result (λ all. (k : K) → list_any (eq_by_cmp K.cmp k) all.items
        ≡ (list_any (eq_by_cmp K.cmp k) first.items || list_any (eq_by_cmp K.cmp k) second.items)) }
    ensures in_order { IfOk result (λ all. IsStrictlySortedBy K.cmp all.items) }
{
    if first.is_empty() {
        return Ok(second);
    }
    if second.is_empty() {
        return Ok(first);
    }
    let mut all = BTreeSet::new(alloc);
    put_all(&mut all, first)?;
    put_all(&mut all, second)?;
    let merged: Vec<K> = all.into_iter().collect(alloc)?;
    Ok(merged)
}

fn put_all<K: Ord + Drop>(all: &mut BTreeSet<K, Global>, keys: Vec<K>) -> Result<(), NoMemory>
    ensures { OnOk result ((k : K) → list_any (eq_by_cmp K.cmp k) all.new.keys
        ≡ (list_any (eq_by_cmp K.cmp k) all.old.keys || list_any (eq_by_cmp K.cmp k) keys.items)) }
{
    for key in keys {
        all.insert(key)?;
    }
    Ok(())
}
