ghost use Rattle.std.specs.Prelude.{◌≡◌, ◌+◌, [], None, Some, true, false, cond, not, ◌&&◌, length, option_map, map as list_map, take_while, OnOk, OnErr};
ghost use Rattle.std.specs.Prelude.{IfOk, IfSome, IfNone, IsSomeAnd};
ghost use Rattle.std.specs.List.Sorted.{IsStrictlySortedBy};
ghost use Rattle.std.specs.Ordering.{eq_by_cmp, is_gt};
ghost use Rattle.std.specs.BTreeMap.{is_at};
ghost use Rattle.std.specs.BTreeMap.Range.{is_past_end};
ghost use Rattle.due_queue.specs.Moments.{found, pair_cmp, has_pair, is_moment, is_due, AreDue, AreDuePairs};

use crate::pairs::{is_past, take_first_due};
use fx_base::NoMemory;
use std::alloc::Global;
use std::collections::{BTreeMap, BTreeSet};
use std::marker::Model;
use std::ops::Bound;

/// A finite map from keys to the moments for which they wait, each with a value. What is due is told by a bound: no moment past its end
/// is. Each call costs at most the logarithm of what is held, for each key that it puts in or takes out.
#[derive(Drop)]
pub struct DueMap<M: Ord, K: Ord, V> {
    by_moment: BTreeSet<(M, K), Global>,
    kept: BTreeMap<K, (M, V), Global>,
}

impl<M: Ord, K: Ord, V> Model for DueMap<M, K, V> {
    ghost use Rattle.std.specs.Prelude.{List};
    ghost use Rattle.due_queue.specs.Moments.{Agree};

    ghost Value = { List (K × (M × V)) };

    ghost view = { λ q. q.kept.entries };

    ghost invariant = { λ q. Agree M.cmp K.cmp q.by_moment.keys q.kept.entries };
}

impl<M: Ord + Copy + Drop, K: Ord + Copy + Drop, V: Drop> DueMap<M, K, V> {
    /// No keys. Takes no memory.
    pub fn new(alloc: Global) -> DueMap<M, K, V>
        ensures { result ≡ [] }
    {
        DueMap {
            by_moment: BTreeSet::new(alloc),
            kept: BTreeMap::new(alloc),
        }
    }

    /// The moment for which a key waits. Takes no memory.
    pub fn moment(&self, key: K) -> Option<M>
        ensures { result ≡ option_map (λ one. one.0) (found K.cmp self.now key) }
    {
        match self.kept.get(&key) {
            Some(one) => Some(one.0),
            None => None,
        }
    }

    /// Lets a key wait for this moment, with this value, and answers for which it waited, and with which. Where memory is refused,
    /// nothing changes.
    pub fn put(&mut self, at: M, key: K, value: V) -> Result<Option<(M, V)>, NoMemory>
        ensures before { IfOk result (λ before. before ≡ found K.cmp self.old key) }
        ensures kept { OnOk result ((k : K) → found K.cmp self.new k ≡ cond (is_at (K.cmp key) k) (Some (at, value)) (found K.cmp self.old k)) }
        ensures err { OnErr result (self.new ≡ self.old) }
    {
        self.by_moment.insert((at, key))?;
        match self.kept.insert(key, (at, value)) {
            Ok(Some(before)) => {
                leave(&mut self.by_moment, before.0, at, key);
                Ok(Some(before))
            }
            Ok(None) => Ok(None),
            Err(_) => {
                self.by_moment.remove(&(at, key));
                Err(NoMemory)
            }
        }
    }

    /// Takes a key out, and answers for which moment it waited, and with which value. Takes no memory.
    pub fn cancel(&mut self, key: K) -> Option<(M, V)>
        ensures before { result ≡ found K.cmp self.old key }
        ensures kept { (k : K) → found K.cmp self.new k ≡ cond (is_at (K.cmp key) k) None (found K.cmp self.old k) }
        ensures unchanged { IfNone result (self.new ≡ self.old) }
    {
        let one = self.kept.remove(&key)?;
        self.by_moment.remove(&(one.0, key));
        Some(one)
    }

    /// The least moment for which a key waits, with the least key that waits for it. Takes no memory.
    pub fn first(&self) -> Option<(M, K)>
        ensures waits { IfSome result (λ first. is_moment M.cmp first.0 (found K.cmp self.now first.1) ≡ true) }
        ensures least { (at : M) (key : K) → is_moment M.cmp at (found K.cmp self.now key) ≡ true → IsSomeAnd result (λ first. is_gt (pair_cmp M.cmp K.cmp first (at, key)) ≡ false) }
    {
        match self.by_moment.first() {
            Some(pair) => Some((pair.0, pair.1)),
            None => None,
        }
    }

    /// Takes out the first key that is due, by its moment, then by the key, and answers its moment and its value. It costs one look
    /// where none is due. Takes no memory.
    pub fn take_due(&mut self, bound: Bound<M>) -> Option<(M, K, V)>
        ensures there { IfSome result (λ taken. found K.cmp self.old taken.1 ≡ Some (taken.0, taken.2)) }
        ensures due { IfSome result (λ taken. is_past_end M.cmp bound taken.0 ≡ false) }
        ensures first { IfSome result (λ taken. (at : M) (key : K) → is_moment M.cmp at (found K.cmp self.old key) ≡ true → is_gt (pair_cmp M.cmp K.cmp (taken.0, taken.1) (at, key)) ≡ false) }
        ensures kept { IfSome result (λ taken. (k : K) → found K.cmp self.new k ≡ cond (is_at (K.cmp taken.1) k) None (found K.cmp self.old k)) }
        ensures fewer { IfSome result (λ _. length self.new + 1 ≡ length self.old) }
        ensures none { IfNone result ((k : K) → is_due M.cmp bound (found K.cmp self.old k) ≡ false) }
        ensures unchanged { IfNone result (self.new ≡ self.old) }
    {
        let first = take_first_due(&mut self.by_moment, &bound)?;
        let (at, value) = self.kept.remove(&first.1)?;
        Some((at, first.1, value))
    }

    /// The keys that are due, in the order of their moments, then of the keys.
    pub fn due(&self, alloc: Global, bound: Bound<M>) -> Result<Vec<K>, NoMemory>
        ensures { IfOk result (λ keys. AreDue M.cmp K.cmp bound self.now keys.items) }
    {
        let keys = due_keys(alloc, &self.by_moment, &bound)?;
        Ok(keys)
    }

    /// The same keys with their moments.
    pub(crate) fn due_pairs(&self, alloc: Global, bound: &Bound<M>) -> Result<Vec<(M, K)>, NoMemory>
        ensures { IfOk result (λ pairs. AreDuePairs M.cmp K.cmp bound.now self.now pairs.items) }
    {
        let pairs = first_pairs(alloc, &self.by_moment, bound)?;
        Ok(pairs)
    }
}

/// Takes out the pair of the moment for which a key waited, if that is another than this one.
fn leave<M: Ord + Drop, K: Ord + Drop>(pairs: &mut BTreeSet<(M, K), Global>, was: M, at: M, key: K)
    ensures { (other : M × K) → has_pair M.cmp K.cmp pairs.new.keys other
        ≡ cond (not (eq_by_cmp M.cmp was at) && is_at (pair_cmp M.cmp K.cmp (was, key)) other) false (has_pair M.cmp K.cmp pairs.old.keys other) }
{
    if was.cmp(&at).is_ne() {
        pairs.remove(&(was, key));
    }
}

/// The keys of the pairs in front that are due.
fn due_keys<M: Ord + Copy + Drop, K: Ord + Copy + Drop>(
    alloc: Global,
    pairs: &BTreeSet<(M, K), Global>,
    bound: &Bound<M>,
) -> Result<Vec<K>, NoMemory>
    ensures sorted { IsStrictlySortedBy (pair_cmp M.cmp K.cmp) pairs.now.keys }
    ensures keys { IfOk result (λ keys. keys.items ≡ list_map (λ pair. pair.1) (take_while (λ pair. not (is_past_end M.cmp bound.now pair.0)) pairs.now.keys)) }
{
    Ok(
        pairs
            .iter()
            .take_while(|pair| !is_past(bound, &pair.0))
            .map(|pair| pair.1)
            .collect(alloc)?,
    )
}

/// The pairs in front that are due.
fn first_pairs<M: Ord + Copy + Drop, K: Ord + Copy + Drop>(
    alloc: Global,
    pairs: &BTreeSet<(M, K), Global>,
    bound: &Bound<M>,
) -> Result<Vec<(M, K)>, NoMemory>
    ensures sorted { IsStrictlySortedBy (pair_cmp M.cmp K.cmp) pairs.now.keys }
    ensures front { IfOk result (λ front. front.items ≡ take_while (λ pair. not (is_past_end M.cmp bound.now pair.0)) pairs.now.keys) }
{
    Ok(
        pairs
            .iter()
            .take_while(|first| !is_past(bound, &first.0))
            .map(|pair| *pair)
            .collect(alloc)?,
    )
}
