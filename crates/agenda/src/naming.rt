ghost use Rattle.std.specs.Prelude.{◌≡◌, ℕ, ◌+◌, ◌-◌, ◌==◌, ℤ, List, true, false, cond, OnOk};
ghost use Rattle.std.specs.Ordering.{eq_by_cmp};
ghost use Rattle.std.specs.List.{list_any};
ghost use Rattle.agenda.specs.declared.ranked.Ranked.{Ranked};
ghost use Rattle.agenda.specs.Agendas.{Well, AllWell};
ghost use Rattle.agenda.specs.Ranks.{rank_cmp};
ghost use Rattle.agenda.specs.Namings.{times, times_in, CountsNamings};

use crate::ranked::Ranked;
use fx_base::NoMemory;
use row_delta::Named;
use std::alloc::Global;
use std::collections::{BTreeSet, HashMap};

/// How often the tag is named.
pub(crate) fn times_of(named: &HashMap<u64, u64>, tag: u64) -> u64
    ensures { result ≡ times named.now.entries tag }
{
    named.get(&tag).copied().unwrap_or(0)
}

// Counts one naming more; `NoMemory` where the count is full.
fn raise(named: &mut HashMap<u64, u64>, tag: u64) -> Result<(), NoMemory>
    ensures { OnOk result ((other : ℕ) → times named.new.entries other ≡ times named.old.entries other + cond (other == tag) 1 0) }
{
    let more = times_of(named, tag).checked_add(1).ok_or(NoMemory)?;
    named.insert(tag, more)?;
    Ok(())
}

// Counts one naming less; a tag that is no longer named is taken out.
fn lower(named: &mut HashMap<u64, u64>, tag: u64)
    ensures { (other : ℕ) → times named.new.entries other ≡ times named.old.entries other - cond (other == tag) 1 0 }
{
    match named.get_mut(&tag) {
        Some(count) if *count > 1 => *count -= 1,
        _ => {
            named.remove(&tag);
        }
    }
}

// The facts are named once more.
fn raise_all(named: &mut HashMap<u64, u64>, facts: &[Named]) -> Result<(), NoMemory>
    ensures { OnOk result ((tag : ℕ) → times named.new.entries tag ≡ times named.old.entries tag + times_in tag facts.now) }
{
    for fact in facts {
        raise(named, fact.tag.0)?;
    }
    Ok(())
}

/// The facts are named once less.
pub(crate) fn lower_all(named: &mut HashMap<u64, u64>, facts: &[Named])
    ensures { (tag : ℕ) → times named.new.entries tag ≡ times named.old.entries tag - times_in tag facts.now }
{
    for fact in facts {
        lower(named, fact.tag.0);
    }
}

// Puts in a match with what it names; where it is there, nothing changes.
fn try_put_ranked(
    pending: &mut BTreeSet<Ranked, Global>,
    named: &mut HashMap<u64, u64>,
    ranked: Ranked,
) -> Result<(), NoMemory>
    ensures well { (saliences : List ℤ) → AllWell saliences pending.old.keys → Well saliences ranked → OnOk result (AllWell saliences pending.new.keys) }
    ensures updates { OnOk result ((q : Ranked) → list_any (eq_by_cmp rank_cmp q) pending.new.keys ≡ cond (eq_by_cmp rank_cmp ranked q) true (list_any (eq_by_cmp rank_cmp q) pending.old.keys)) }
    ensures named { CountsNamings named.old.entries pending.old.keys → OnOk result (CountsNamings named.new.entries pending.new.keys) }
{
    if pending.contains(&ranked) {
        return Ok(());
    }
    raise_all(named, ranked.matched.row.facts.as_slice())?;
    pending.insert(ranked)?;
    Ok(())
}

/// Puts in a match with what it names; where it is there, nothing changes. Where memory is refused, no match is left.
pub(crate) fn put_ranked(
    pending: &mut BTreeSet<Ranked, Global>,
    named: &mut HashMap<u64, u64>,
    ranked: Ranked,
) -> Result<(), NoMemory>
    ensures well { (saliences : List ℤ) → AllWell saliences pending.old.keys → Well saliences ranked → AllWell saliences pending.new.keys }
    ensures updates { OnOk result ((q : Ranked) → list_any (eq_by_cmp rank_cmp q) pending.new.keys ≡ cond (eq_by_cmp rank_cmp ranked q) true (list_any (eq_by_cmp rank_cmp q) pending.old.keys)) }
    ensures named { CountsNamings named.old.entries pending.old.keys → CountsNamings named.new.entries pending.new.keys }
{
    match try_put_ranked(pending, named, ranked) {
        Ok(()) => Ok(()),
        Err(refused) => {
            pending.clear();
            named.clear();
            Err(refused)
        }
    }
}

/// Takes out a match with what it names, if it is there.
pub(crate) fn take_ranked(
    pending: &mut BTreeSet<Ranked, Global>,
    named: &mut HashMap<u64, u64>,
    ranked: &Ranked,
)
    ensures well { (saliences : List ℤ) → AllWell saliences pending.old.keys → AllWell saliences pending.new.keys }
    ensures updates { (q : Ranked) → list_any (eq_by_cmp rank_cmp q) pending.new.keys ≡ cond (eq_by_cmp rank_cmp ranked.now q) false (list_any (eq_by_cmp rank_cmp q) pending.old.keys) }
    ensures named { CountsNamings named.old.entries pending.old.keys → CountsNamings named.new.entries pending.new.keys }
{
    if let Some(gone) = pending.take(ranked) {
        lower_all(named, gone.matched.row.facts.as_slice());
    }
}
