ghost use Rattle.std.specs.Prelude.{◌≡◌, ◌≢◌, [], ◌∷◌, true, false, None, Some, cond, option_map, IfOk, IfErr, OnOk, OnErr};
ghost use Rattle.std.specs.BTreeMap as tree;
ghost use Rattle.std.specs.BTreeMap.{is_at};
ghost use Rattle.alpha_memory.specs.Bucket.{entries, found};

use fx_base::NoMemory;
use std::alloc::Global;
use std::collections::BTreeMap;
use std::mem::replace;

/// The keys that have one join value, in order, each with what is kept beside it. One key takes no memory beside its
/// own; with a second one they go to an ordered map, and stay there.
#[derive(Drop)]
pub enum Bucket<K: Ord, S> {
    One(K, S),
    Many(BTreeMap<K, S>),
}

impl<K: Ord + Drop, S: Drop> Bucket<K, S> {
    /// No keys. Takes no memory.
    pub(crate) fn empty(alloc: Global) -> Bucket<K, S>
        ensures { entries result ≡ [] }
    {
        Bucket::Many(BTreeMap::new(alloc))
    }

    /// Whether there are no keys.
    pub(crate) fn is_empty(&self) -> bool
        ensures emptied { result ≡ true → entries self.now ≡ [] }
        ensures filled { result ≡ false → entries self.now ≢ [] }
    {
        match self {
            Bucket::One(_, _) => false,
            Bucket::Many(bucket) => bucket.is_empty(),
        }
    }

    /// What is kept beside a key; `None` exactly where the key is not there. Takes no memory.
    pub(crate) fn get(&self, key: &K) -> Option<&S>
        ensures { option_map (λ kept. kept.now) result ≡ found K.cmp self.now key.now }
    {
        match self {
            Bucket::One(there, kept) => key.cmp(there).is_eq().then_some(kept),
            Bucket::Many(bucket) => bucket.get(key),
        }
    }

    /// Puts a key in, with what is kept beside it, and answers what was kept before. Where memory is refused, the keys
    /// stay as they are.
    pub(crate) fn put(
        self,
        alloc: Global,
        key: K,
        kept: S,
    ) -> (Bucket<K, S>, Result<Option<S>, NoMemory>)
        ensures before { IfOk result.1 (λ before. before ≡ found K.cmp self key) }
        ensures kept { OnOk result.1 ((k : K) → found K.cmp result.0 k ≡ cond (is_at (K.cmp key) k) (Some kept) (found K.cmp self k)) }
        ensures err { OnErr result.1 (entries result.0 ≡ entries self) }
    {
        match self {
            Bucket::One(there, beside) => put_to_one(alloc, there, beside, key, kept),
            Bucket::Many(bucket) => put_to_many(bucket, key, kept),
        }
    }

    /// Takes a key out, and answers what was kept beside it; `None` exactly where the key is not there. Takes no memory.
    pub(crate) fn without(self, alloc: Global, key: &K) -> (Bucket<K, S>, Option<S>)
        ensures taken { result.1 ≡ found K.cmp self key.now }
        ensures kept { (k : K) → found K.cmp result.0 k ≡ cond (is_at (K.cmp key.now) k) None (found K.cmp self k) }
    {
        match self {
            Bucket::One(there, beside) => one_without(alloc, there, beside, key),
            Bucket::Many(bucket) => many_without(bucket, key),
        }
    }

    /// Keeps this beside a key in place of what was kept there, and answers that; where the key is not there, gives this
    /// back, and nothing changes. Takes no memory.
    pub(crate) fn exchange(&mut self, key: &K, kept: S) -> Result<S, S>
        ensures before { IfOk result (λ before. found K.cmp self.old key.now ≡ Some before) }
        ensures kept { OnOk result ((k : K) → found K.cmp self.new k ≡ cond (is_at (K.cmp key.now) k) (Some kept) (found K.cmp self.old k)) }
        ensures absent { OnErr result (found K.cmp self.old key.now ≡ None) }
        ensures back { IfErr result (λ given. given ≡ kept) }
        ensures err { OnErr result (entries self.new ≡ entries self.old) }
    {
        match self {
            Bucket::One(there, beside) => exchange_one(there, beside, key, kept),
            Bucket::Many(bucket) => exchange_many(bucket, key, kept),
        }
    }
}

/// Puts a key in where there is one key. If it is another, the new one goes into a map first, so that the old one is at
/// hand where memory is refused.
fn put_to_one<K: Ord + Drop, S: Drop>(
    alloc: Global,
    there: K,
    beside: S,
    key: K,
    kept: S,
) -> (Bucket<K, S>, Result<Option<S>, NoMemory>)
    ensures before { IfOk result.1 (λ before. before ≡ found K.cmp (Bucket.One there beside) key) }
    ensures kept { OnOk result.1 ((k : K) → found K.cmp result.0 k ≡ cond (is_at (K.cmp key) k) (Some kept) (found K.cmp (Bucket.One there beside) k)) }
    ensures err { OnErr result.1 (entries result.0 ≡ (there, beside) ∷ []) }
{
    if key.cmp(&there).is_eq() {
        return (Bucket::One(there, kept), Ok(Some(beside)));
    }
    match map_of(alloc, key, kept) {
        Ok(bucket) => with_first(bucket, there, beside),
        Err(refused) => (Bucket::One(there, beside), Err(refused)),
    }
}

/// A map of one key.
fn map_of<K: Ord + Drop, S: Drop>(
    alloc: Global,
    key: K,
    kept: S,
) -> Result<BTreeMap<K, S>, NoMemory>
    ensures { IfOk result (λ bucket. bucket.entries ≡ (key, kept) ∷ []) }
{
    let mut bucket = BTreeMap::new(alloc);
    bucket.insert(key, kept)?;
    Ok(bucket)
}

/// Puts the key that was alone into the map of a second one. Where memory is refused, it is alone again.
fn with_first<K: Ord + Drop, S: Drop>(
    mut bucket: BTreeMap<K, S>,
    there: K,
    beside: S,
) -> (Bucket<K, S>, Result<Option<S>, NoMemory>)
    ensures before { IfOk result.1 (λ before. before ≡ None) }
    ensures kept { OnOk result.1 ((k : K) → found K.cmp result.0 k ≡ cond (is_at (K.cmp there) k) (Some beside) (tree.get K.cmp bucket k)) }
    ensures err { OnErr result.1 (entries result.0 ≡ (there, beside) ∷ []) }
{
    match bucket.insert(there, beside) {
        Ok(_) => (Bucket::Many(bucket), Ok(None)),
        Err(refused) => {
            let (there, beside) = refused.value;
            (Bucket::One(there, beside), Err(NoMemory))
        }
    }
}

/// Puts a key into an ordered map.
fn put_to_many<K: Ord + Drop, S: Drop>(
    mut bucket: BTreeMap<K, S>,
    key: K,
    kept: S,
) -> (Bucket<K, S>, Result<Option<S>, NoMemory>)
    ensures before { IfOk result.1 (λ before. before ≡ tree.get K.cmp bucket key) }
    ensures kept { OnOk result.1 ((k : K) → found K.cmp result.0 k ≡ cond (is_at (K.cmp key) k) (Some kept) (tree.get K.cmp bucket k)) }
    ensures err { OnErr result.1 (entries result.0 ≡ bucket.entries) }
{
    match bucket.insert(key, kept) {
        Ok(before) => (Bucket::Many(bucket), Ok(before)),
        Err(_) => (Bucket::Many(bucket), Err(NoMemory)),
    }
}

/// Takes a key out where there is one key.
fn one_without<K: Ord + Drop, S: Drop>(
    alloc: Global,
    there: K,
    beside: S,
    key: &K,
) -> (Bucket<K, S>, Option<S>)
    ensures taken { result.1 ≡ found K.cmp (Bucket.One there beside) key.now }
    ensures kept { (k : K) → found K.cmp result.0 k ≡ cond (is_at (K.cmp key.now) k) None (found K.cmp (Bucket.One there beside) k) }
{
    if key.cmp(&there).is_eq() {
        (Bucket::empty(alloc), Some(beside))
    } else {
        (Bucket::One(there, beside), None)
    }
}

/// Takes a key out of an ordered map.
fn many_without<K: Ord + Drop, S: Drop>(
    mut bucket: BTreeMap<K, S>,
    key: &K,
) -> (Bucket<K, S>, Option<S>)
    ensures taken { result.1 ≡ tree.get K.cmp bucket key.now }
    ensures kept { (k : K) → found K.cmp result.0 k ≡ cond (is_at (K.cmp key.now) k) None (tree.get K.cmp bucket k) }
{
    let taken = bucket.remove(key);
    (Bucket::Many(bucket), taken)
}

/// Keeps this beside the one key in place of what was kept there, if it is the key that is asked for.
fn exchange_one<K: Ord + Drop, S: Drop>(there: &K, beside: &mut S, key: &K, kept: S) -> Result<S, S>
    ensures ok { IfOk result (λ before. (is_at (K.cmp key.now) there.now ≡ true) × (before ≡ beside.old) × (beside.new ≡ kept)) }
    ensures err { IfErr result (λ given. (is_at (K.cmp key.now) there.now ≡ false) × (given ≡ kept) × (beside.new ≡ beside.old)) }
{
    if key.cmp(there).is_eq() {
        Ok(replace(beside, kept))
    } else {
        Err(kept)
    }
}

/// Keeps this beside a key of an ordered map in place of what was kept there, if the key is there.
fn exchange_many<K: Ord + Drop, S: Drop>(
    bucket: &mut BTreeMap<K, S>,
    key: &K,
    kept: S,
) -> Result<S, S>
    ensures before { IfOk result (λ before. tree.get K.cmp bucket.old key.now ≡ Some before) }
    ensures kept { OnOk result ((k : K) → tree.get K.cmp bucket.new k ≡ cond (is_at (K.cmp key.now) k) (Some kept) (tree.get K.cmp bucket.old k)) }
    ensures absent { OnErr result (tree.get K.cmp bucket.old key.now ≡ None) }
    ensures back { IfErr result (λ given. given ≡ kept) }
    ensures err { OnErr result (bucket.new.entries ≡ bucket.old.entries) }
{
    match bucket.get_mut(key) {
        Some(place) => Ok(replace(place, kept)),
        None => Err(kept),
    }
}
