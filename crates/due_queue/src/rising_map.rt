ghost use Rattle.std.specs.Prelude.{◌≡◌, ◌+◌, ◌||◌, [], None, Some, cond, not, length, map as list_map, OnOk, OnErr, IfOk, IfSome, IfNone, IsTrue, IsFalse};
ghost use Rattle.std.specs.Prelude.{IsSomeAnd, true, false};
ghost use Rattle.std.specs.List.Sorted.{IsStrictlySortedBy};
ghost use Rattle.std.specs.Ordering.{is_gt};
ghost use Rattle.std.specs.BTreeMap.{is_at};
ghost use Rattle.std.specs.BTreeMap.Range.{is_past_end};
ghost use Rattle.due_queue.specs.Moments.{found, pair_cmp, has_pair, is_moment, is_due, AreDue};
ghost use Rattle.due_queue.specs.Rising.{live, Leads, Stands};

use crate::map::DueMap;
use crate::pairs::is_past;
use crate::rising::Rising;
use fx_base::NoMemory;
use std::alloc::Global;
use std::collections::BTreeSet;
use std::marker::Model;
use std::ops::Bound;

/// A `DueMap` for keys that mostly rise with their moments, as the tags of facts do: such a key is put and taken out for a few
/// instructions. Over many calls, each costs at most the logarithm of what is held, for each key that it puts in or takes out; one
/// alone may move the whole list, as it grows, shrinks or is swept.
#[derive(Drop)]
pub struct RisingMap<M: Ord, K: Ord, V> {
    rising: Rising<M, K, V>,
    others: DueMap<M, K, V>,
}

impl<M: Ord, K: Ord, V> Model for RisingMap<M, K, V> {
    ghost use Rattle.std.specs.Prelude.{◌++◌, List};
    ghost use Rattle.due_queue.specs.Rising.{live, Stands, AreApart};

    ghost Value = { List (K × (M × V)) };

    ghost view = { λ q. live q.rising.entries.items ++ q.others };

    ghost invariant = { λ q. Stands M.cmp K.cmp q.rising.entries.items × AreApart K.cmp (live q.rising.entries.items) q.others };
}

impl<M: Ord + Copy + Drop, K: Ord + Copy + Drop, V: Copy + Drop> RisingMap<M, K, V> {
    /// No keys. Takes no memory.
    pub fn new(alloc: Global) -> RisingMap<M, K, V>
        ensures { result ≡ [] }
    {
        RisingMap {
            rising: Rising::new(alloc),
            others: DueMap::new(alloc),
        }
    }

    /// Lets a key wait for this moment, with this value, and answers for which it waited, and with which. Where memory is refused,
    /// nothing changes.
    pub fn put(&mut self, at: M, key: K, value: V) -> Result<Option<(M, V)>, NoMemory>
        ensures before { IfOk result (λ before. before ≡ found K.cmp self.old key) }
        ensures kept { OnOk result ((k : K) → found K.cmp self.new k ≡ cond (is_at (K.cmp key) k) (Some (at, value)) (found K.cmp self.old k)) }
        ensures err { OnErr result (self.new ≡ self.old) }
    {
        if self.rising.push(at, key, value)? {
            return Ok(self.others.cancel(key));
        }
        match self.others.put(at, key, value)? {
            Some(before) => Ok(Some(before)),
            None => Ok(self.rising.cancel(&key)),
        }
    }

    /// Takes a key out, and answers for which moment it waited, and with which value. Takes no memory.
    pub fn cancel(&mut self, key: K) -> Option<(M, V)>
        ensures before { result ≡ found K.cmp self.old key }
        ensures kept { (k : K) → found K.cmp self.new k ≡ cond (is_at (K.cmp key) k) None (found K.cmp self.old k) }
        ensures unchanged { IfNone result (self.new ≡ self.old) }
    {
        match self.rising.cancel(&key) {
            Some(one) => Some(one),
            None => self.others.cancel(key),
        }
    }

    /// The least moment for which a key waits, with the least key that waits for it. Takes no memory.
    pub fn first(&self) -> Option<(M, K)>
        ensures waits { IfSome result (λ first. is_moment M.cmp first.0 (found K.cmp self.now first.1) ≡ true) }
        ensures least { (at : M) (key : K) → is_moment M.cmp at (found K.cmp self.now key) ≡ true → IsSomeAnd result (λ first. is_gt (pair_cmp M.cmp K.cmp first (at, key)) ≡ false) }
    {
        if leads(&self.rising, &self.others) {
            self.rising.first()
        } else {
            self.others.first()
        }
    }

    /// Whether a key is due. Takes no memory.
    pub(crate) fn is_due(&self, bound: &Bound<M>) -> bool
        ensures { IsFalse result → (k : K) → is_due M.cmp bound.now (found K.cmp self.now k) ≡ false }
    {
        match self.first() {
            Some(first) => !is_past(bound, &first.0),
            None => false,
        }
    }

    /// Takes out the first key that is due, by its moment, then by the key, and answers its moment and its value. It costs one look
    /// where none is due. Takes no memory.
    pub fn take_due(&mut self, bound: Bound<M>) -> Option<(M, K, V)>
        ensures there { IfSome result (λ taken. found K.cmp self.old taken.1 ≡ Some (taken.0, taken.2)) }
        ensures due { IfSome result (λ taken. is_past_end M.cmp bound taken.0 ≡ false) }
        ensures first { IfSome result (λ taken. (at : M) (key : K) → is_moment M.cmp at (found K.cmp self.old key) ≡ true → is_gt (pair_cmp M.cmp K.cmp (taken.0, taken.1) (at, key)) ≡ false) }
        ensures kept { IfSome result (λ taken. (k : K) → found K.cmp self.new k ≡ cond (is_at (K.cmp taken.1) k) None (found K.cmp self.old k)) }
        ensures fewer { IfSome result (λ _. length self.new + 1 ≡ length self.old) }
        ensures none { IfNone result ((k : K) → is_due M.cmp bound (found K.cmp self.old k) ≡ false) }
        ensures unchanged { IfNone result (self.new ≡ self.old) }
    {
        if leads(&self.rising, &self.others) {
            self.rising.take_due(&bound)
        } else {
            self.others.take_due(bound)
        }
    }

    /// The keys that are due, in the order of their moments, then of the keys.
    pub fn due(&self, alloc: Global, bound: Bound<M>) -> Result<Vec<K>, NoMemory>
        ensures { IfOk result (λ keys. AreDue M.cmp K.cmp bound self.now keys.items) }
    {
        let rising = self.rising.due(alloc, &bound)?;
        let others = self.others.due_pairs(alloc, &bound)?;
        let pairs = merged(alloc, rising, &others)?;
        let keys = keys_of(alloc, &pairs)?;
        Ok(keys)
    }
}

/// The pairs of both lists in order; of the first alone as they are.
fn merged<M: Ord + Copy + Drop, K: Ord + Copy + Drop>(
    alloc: Global,
    some: Vec<(M, K)>,
    others: &[(M, K)],
) -> Result<Vec<(M, K)>, NoMemory>
    ensures in_order { IsStrictlySortedBy (pair_cmp M.cmp K.cmp) some.items → IfOk result (λ all. IsStrictlySortedBy (pair_cmp M.cmp K.cmp) all.items) }
    ensures both { IfOk result (λ all. (pair : M × K) → has_pair M.cmp K.cmp all.items pair ≡ (has_pair M.cmp K.cmp some.items pair || has_pair M.cmp K.cmp others.now pair)) }
{
    if others.is_empty() {
        return Ok(some);
    }
    let mut all = BTreeSet::new(alloc);
    insert_all(&mut all, &some)?;
    insert_all(&mut all, others)?;
    let pairs = in_order(alloc, &all)?;
    Ok(pairs)
}

fn insert_all<M: Ord + Copy + Drop, K: Ord + Copy + Drop>(
    all: &mut BTreeSet<(M, K), Global>,
    pairs: &[(M, K)],
) -> Result<(), NoMemory>
    ensures { OnOk result ((pair : M × K) → has_pair M.cmp K.cmp all.new.keys pair ≡ (has_pair M.cmp K.cmp all.old.keys pair || has_pair M.cmp K.cmp pairs.now pair)) }
{
    for one in pairs {
        all.insert(*one)?;
    }
    Ok(())
}

/// The pairs of a set as a list.
fn in_order<M: Ord + Copy + Drop, K: Ord + Copy + Drop>(
    alloc: Global,
    pairs: &BTreeSet<(M, K), Global>,
) -> Result<Vec<(M, K)>, NoMemory>
    ensures sorted { IsStrictlySortedBy (pair_cmp M.cmp K.cmp) pairs.now.keys }
    ensures same { IfOk result (λ list. list.items ≡ pairs.now.keys) }
{
    Ok(pairs.iter().map(|pair| *pair).collect(alloc)?)
}

/// Whether the keys that rise lead: each of the others has one of them that is not after it. If not, they have such a one of the others.
fn leads<M: Ord + Copy + Drop, K: Ord + Copy + Drop, V: Copy + Drop>(
    rising: &Rising<M, K, V>,
    others: &DueMap<M, K, V>,
) -> bool
    requires { Stands M.cmp K.cmp rising.now.entries.items }
    ensures rising { IsTrue result → Leads M.cmp K.cmp (live rising.now.entries.items) others.now }
    ensures others { IsFalse result → Leads M.cmp K.cmp others.now (live rising.now.entries.items) }
{
    match others.first() {
        None => true,
        Some(other) => match rising.first() {
            None => false,
            Some(first) => first.cmp(&other).is_le(),
        },
    }
}

/// The keys of pairs.
fn keys_of<M: Copy + Drop, K: Copy + Drop>(
    alloc: Global,
    pairs: &[(M, K)],
) -> Result<Vec<K>, NoMemory>
    ensures { IfOk result (λ keys. keys.items ≡ list_map (λ pair. pair.1) pairs.now) }
{
    Ok(pairs.iter().map(|pair| pair.1).collect(alloc)?)
}
