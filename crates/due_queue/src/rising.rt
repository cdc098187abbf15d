ghost use Rattle.std.specs.Prelude.{◌≡◌, ◌+◌, ◌<◌, [], None, Some, true, false, cond, length, filter, take_while, not, is_some, OnErr, IfOk, IfSome, IfNone};
ghost use Rattle.std.specs.Prelude.{IsNone, IsTrue, IsFalse, IsSomeAnd};
ghost use Rattle.std.specs.BTreeMap.{is_at};
ghost use Rattle.std.specs.BTreeMap.Range.{is_past_end};
ghost use Rattle.std.specs.List.{AllByRecursion, HoldsAt};
ghost use Rattle.std.specs.Ordering.{is_gt};
ghost use Rattle.std.specs.declared.cmp.Ordering.TheVariants.{Equal};
ghost use Rattle.due_queue.specs.Moments.{found, pair_cmp, is_moment, is_due};
ghost use Rattle.due_queue.specs.Rising.{live, one_of, value_at, emptied, pairs_of, IsBehind, Rises, Stands};

use crate::pairs::is_past;
use fx_base::NoMemory;
use std::alloc::Global;
use std::cmp::Ordering;
use std::collections::VecDeque;
use std::ops::Bound;

/// A list that has room for fewer entries is not made smaller.
const LEAST_ROOM: usize = 32;

/// A key that waits for a moment, with a value; one without a value was taken out.
#[derive(Drop)]
pub(crate) struct Entry<M, K, V> {
    pub(crate) at: M,
    pub(crate) key: K,
    pub(crate) value: Option<V>,
}

/// Keys that wait for moments and rise with them: they come behind the last and go from the front for a few instructions. One that
/// goes from the middle stays without a value until it is in front, or until such entries are more than the others.
#[derive(Drop)]
pub(crate) struct Rising<M, K, V> {
    pub(crate) entries: VecDeque<Entry<M, K, V>>,
    gone: usize,
}

impl<M: Ord + Copy + Drop, K: Ord + Copy + Drop, V: Copy + Drop> Rising<M, K, V> {
    /// No keys. Takes no memory.
    pub(crate) fn new(alloc: Global) -> Rising<M, K, V>
        ensures { result.entries.items ≡ [] }
    {
        Rising {
            entries: VecDeque::new(alloc),
            gone: 0,
        }
    }

    /// Whether a key stands behind all others, and its moment not before theirs.
    fn is_last(&self, at: &M, key: &K) -> bool
        requires { Rises M.cmp K.cmp self.now.entries.items }
        ensures { IsTrue result → AllByRecursion (IsBehind M.cmp K.cmp at.now key.now) self.now.entries.items }
    {
        match self.entries.back() {
            Some(last) => last.key.cmp(key).is_lt() && last.at.cmp(at).is_le(),
            None => true,
        }
    }

    /// Puts a key behind the others, if it and its moment rise, and answers whether they do. Where memory is refused, nothing changes.
    pub(crate) fn push(&mut self, at: M, key: K, value: V) -> Result<bool, NoMemory>
        requires { Stands M.cmp K.cmp self.old.entries.items }
        ensures stands { Stands M.cmp K.cmp self.new.entries.items }
        ensures put { IfOk result (λ rises. IsTrue rises → (k : K) → found K.cmp (live self.new.entries.items) k
            ≡ cond (is_at (K.cmp key) k) (Some (at, value)) (found K.cmp (live self.old.entries.items) k)) }
        ensures absent { IfOk result (λ rises. IsTrue rises → found K.cmp (live self.old.entries.items) key ≡ None) }
        ensures unchanged { IfOk result (λ rises. IsFalse rises → self.new.entries.items ≡ self.old.entries.items) }
        ensures err { OnErr result (self.new.entries.items ≡ self.old.entries.items) }
    {
        if !self.is_last(&at, &key) {
            return Ok(false);
        }
        self.entries.push_back(Entry {
            at,
            key,
            value: Some(value),
        })?;
        Ok(true)
    }

    /// Where a key stands, with a value or without one, found by halving; one above the last stands nowhere.
    fn place_of(&self, key: &K) -> Option<usize>
        requires { Rises M.cmp K.cmp self.now.entries.items }
        ensures within { IfSome result (λ place. place < length self.now.entries.items) }
        ensures there { IfSome result (HoldsAt (λ entry. K.cmp entry.key key.now ≡ Equal) self.now.entries.items) }
        ensures none { IsNone result → found K.cmp (live self.now.entries.items) key.now ≡ None }
    {
        let last = self.entries.back()?;
        if last.key.cmp(key).is_lt() {
            return None;
        }
        match self.entries.binary_search_by(
            |entry: &Entry<M, K, V>| -> Ordering
                ensures { result ≡ K.cmp entry.now.key key.entry.now }
            { entry.key.cmp(key) },
        ) {
            Ok(place) => Some(place),
            Err(_) => None,
        }
    }

    /// Takes the value out of the entry at a place, and answers it with its moment.
    fn empty(&mut self, place: usize) -> Option<(M, V)>
        requires { place < length self.old.entries.items }
        ensures value { result ≡ value_at self.old.entries.items place }
        ensures emptied { IfSome result (λ _. self.new.entries.items ≡ emptied self.old.entries.items place) }
        ensures unchanged { IfNone result (self.new.entries.items ≡ self.old.entries.items) }
    {
        let entry = self.entries.get(place)?;
        let one = waits(entry)?;
        self.entries[place].value = None;
        self.gone = self.gone.saturating_add(1);
        Some(one)
    }

    /// Takes a key out, and answers for which moment it waited, and with which value. Takes no memory.
    pub(crate) fn cancel(&mut self, key: &K) -> Option<(M, V)>
        requires { Stands M.cmp K.cmp self.old.entries.items }
        ensures stands { Stands M.cmp K.cmp self.new.entries.items }
        ensures before { result ≡ found K.cmp (live self.old.entries.items) key.now }
        ensures kept { (k : K) → found K.cmp (live self.new.entries.items) k ≡ cond (is_at (K.cmp key.now) k) None (found K.cmp (live self.old.entries.items) k) }
        ensures unchanged { IfNone result (self.new.entries.items ≡ self.old.entries.items) }
    {
        let place = self.place_of(key)?;
        let one = self.empty(place)?;
        self.settle();
        Some(one)
    }

    /// Takes out the entries in front that have no value.
    fn trim(&mut self)
        requires { Rises M.cmp K.cmp self.old.entries.items }
        ensures stands { Stands M.cmp K.cmp self.new.entries.items }
        ensures live { live self.new.entries.items ≡ live self.old.entries.items }
    {
        'gone: while let Some(front) = self.entries.front() {
            if front.value.is_some() {
                return;
            }
            self.entries.pop_front();
            self.gone = self.gone.saturating_sub(1);
        }
    }

    /// Takes out all entries that have no value, if they are more than the others.
    fn sweep(&mut self)
        requires { Stands M.cmp K.cmp self.old.entries.items }
        ensures stands { Stands M.cmp K.cmp self.new.entries.items }
        ensures live { live self.new.entries.items ≡ live self.old.entries.items }
    {
        if self.gone > self.entries.len() / 2 {
            self.entries.retain(
                |entry: &Entry<M, K, V>| -> bool
                    ensures { result ≡ is_some entry.now.value }
                { entry.value.is_some() },
            );
            self.gone = 0;
        }
    }

    /// Gives back room that is four times what is needed.
    fn give_back(&mut self)
        ensures { self.new.entries.items ≡ self.old.entries.items }
    {
        if self.entries.capacity() > LEAST_ROOM
            && self.entries.capacity() / 4 > self.entries.len()
        {
            self.entries.shrink_to(self.entries.capacity() / 2);
        }
    }

    /// Behind a key that went: the first entry has a value, and room is given back.
    fn settle(&mut self)
        requires { Rises M.cmp K.cmp self.old.entries.items }
        ensures stands { Stands M.cmp K.cmp self.new.entries.items }
        ensures live { live self.new.entries.items ≡ live self.old.entries.items }
    {
        self.trim();
        self.sweep();
        self.give_back();
    }

    /// The least moment for which a key waits, with the least key that waits for it. Takes no memory.
    pub(crate) fn first(&self) -> Option<(M, K)>
        requires { Stands M.cmp K.cmp self.now.entries.items }
        ensures waits { IfSome result (λ first. is_moment M.cmp first.0 (found K.cmp (live self.now.entries.items) first.1) ≡ true) }
        ensures least { (at : M) (key : K) → is_moment M.cmp at (found K.cmp (live self.now.entries.items) key) ≡ true
            → IsSomeAnd result (λ first. is_gt (pair_cmp M.cmp K.cmp first (at, key)) ≡ false) }
    {
        match self.entries.front() {
            Some(entry) => Some((entry.at, entry.key)),
            None => None,
        }
    }

    /// Takes out the first key, if it is due. Takes no memory.
    pub(crate) fn take_due(&mut self, bound: &Bound<M>) -> Option<(M, K, V)>
        requires { Stands M.cmp K.cmp self.old.entries.items }
        ensures stands { Stands M.cmp K.cmp self.new.entries.items }
        ensures there { IfSome result (λ taken. found K.cmp (live self.old.entries.items) taken.1 ≡ Some (taken.0, taken.2)) }
        ensures due { IfSome result (λ taken. is_past_end M.cmp bound.now taken.0 ≡ false) }
        ensures first { IfSome result (λ taken. (at : M) (key : K) → is_moment M.cmp at (found K.cmp (live self.old.entries.items) key) ≡ true
            → is_gt (pair_cmp M.cmp K.cmp (taken.0, taken.1) (at, key)) ≡ false) }
        ensures kept { IfSome result (λ taken. (k : K) → found K.cmp (live self.new.entries.items) k
            ≡ cond (is_at (K.cmp taken.1) k) None (found K.cmp (live self.old.entries.items) k)) }
        ensures fewer { IfSome result (λ _. length (live self.new.entries.items) + 1 ≡ length (live self.old.entries.items)) }
        ensures none { IfNone result ((k : K) → is_due M.cmp bound.now (found K.cmp (live self.old.entries.items) k) ≡ false) }
        ensures unchanged { IfNone result (self.new.entries.items ≡ self.old.entries.items) }
    {
        let front = self.entries.front()?;
        if is_past(bound, &front.at) {
            return None;
        }
        let entry = self.entries.pop_front()?;
        self.settle();
        let value = entry.value?;
        Some((entry.at, entry.key, value))
    }

    /// The keys that are due with their moments, in the order of both.
    pub(crate) fn due(&self, alloc: Global, bound: &Bound<M>) -> Result<Vec<(M, K)>, NoMemory>
        ensures { IfOk result (λ pairs. pairs.items ≡ pairs_of (take_while (λ entry. not (is_past_end M.cmp bound.now entry.at))
            (filter (λ entry. is_some entry.value) self.now.entries.items))) }
    {
        Ok(
            self.entries
                .iter()
                .filter(|entry| entry.value.is_some())
                .take_while(|entry| !is_past(bound, &entry.at))
                .map(|entry| (entry.at, entry.key))
                .collect(alloc)?,
        )
    }
}

/// The moment and the value of an entry, if it has one.
fn waits<M: Copy, K, V: Copy>(entry: &Entry<M, K, V>) -> Option<(M, V)>
    ensures { result ≡ one_of entry.now.at entry.now.value }
{
    match entry.value {
        Some(value) => Some((entry.at, value)),
        None => None,
    }
}
