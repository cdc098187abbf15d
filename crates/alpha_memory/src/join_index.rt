ghost use Rattle.std.specs.Prelude.{◌≡◌, ◌≢◌, ◌&&◌, ◌++◌, [], true, false, None, Some, cond, is_some, option_map, IfOk, IfErr, IfSome, OnOk, OnErr};
ghost use Rattle.std.specs.BTreeMap.{is_at};
ghost use Rattle.std.specs.Map.{keys_of};
ghost use Rattle.alpha_memory.specs.Bucket.{entries, found};
ghost use Rattle.alpha_memory.specs.JoinIndex.{at, bucket_at, AreKeys};

use crate::bucket::Bucket;
use fx_base::{Copies, NoMemory};
use indexmap::IndexMap;
use std::alloc::Global;
use std::hash::Hash;
use std::mem::replace;

/// Under each join value the keys that have it, in order, each with what is kept beside it: a hash index whose buckets
/// are ordered. A call costs a hash and the logarithm of the bucket. The first key of a join value stands in the hash
/// index itself and takes no further memory. A bucket goes with its last key.
#[derive(Drop)]
pub struct JoinIndex<J: Eq + Hash, K: Ord, S> {
    alloc: Global,
    buckets: IndexMap<J, Bucket<K, S>>,
}

impl<J: Eq + Hash + Drop, K: Ord + Drop, S: Drop> JoinIndex<J, K, S> {
    /// No keys. Takes no memory.
    pub fn new(alloc: Global) -> JoinIndex<J, K, S>
        ensures buckets { (j : J) → bucket_at J.eq result j ≡ None }
        ensures kept { (j : J) (k : K) → at J.eq K.cmp result j k ≡ None }
    {
        JoinIndex {
            alloc,
            buckets: IndexMap::new(alloc),
        }
    }

    /// The keys with this join value, in order, each with what is kept beside it; `None` where there is no such key.
    /// Lends them, and takes no memory.
    pub fn bucket(&self, join: &J) -> Option<&Bucket<K, S>>
        ensures { option_map (λ bucket. entries bucket.now) result ≡ bucket_at J.eq self.now join.now }
    {
        self.buckets.get(join)
    }

    /// What is kept beside a key; `None` exactly where the key is not there. Takes no memory.
    pub fn get(&self, join: &J, key: &K) -> Option<&S>
        ensures { option_map (λ kept. kept.now) result ≡ at J.eq K.cmp self.now join.now key.now }
    {
        match self.bucket(join) {
            Some(bucket) => bucket.get(key),
            None => None,
        }
    }

    /// Puts a key under its join value, with what is kept beside it, and answers what was kept before. Where memory is
    /// refused, nothing changes.
    pub fn put(&mut self, join: J, key: K, kept: S) -> Result<Option<S>, NoMemory>
        ensures before { IfOk result (λ before. before ≡ at J.eq K.cmp self.old join key) }
        ensures kept { OnOk result ((j : J) (k : K) → at J.eq K.cmp self.new j k
            ≡ cond (J.eq join j && is_at (K.cmp key) k) (Some kept) (at J.eq K.cmp self.old j k)) }
        ensures others { OnOk result ((j : J) → J.eq join j ≡ false → bucket_at J.eq self.new j ≡ bucket_at J.eq self.old j) }
        ensures err { OnErr result ((j : J) → bucket_at J.eq self.new j ≡ bucket_at J.eq self.old j) }
    {
        match self.buckets.get_mut(&join) {
            Some(bucket) => put_in(self.alloc, bucket, key, kept),
            None => {
                self.buckets.insert(join, Bucket::One(key, kept))?;
                Ok(None)
            }
        }
    }

    /// Takes a key out, and answers what was kept beside it; `None` exactly where the key is not there. A bucket that
    /// becomes empty is freed, and its join value with it. Takes no memory.
    pub fn take(&mut self, join: &J, key: &K) -> Option<S>
        ensures taken { result ≡ at J.eq K.cmp self.old join.now key.now }
        ensures kept { (j : J) (k : K) → at J.eq K.cmp self.new j k
            ≡ cond (J.eq join.now j && is_at (K.cmp key.now) k) None (at J.eq K.cmp self.old j k) }
        ensures others { (j : J) → J.eq join.now j ≡ false → bucket_at J.eq self.new j ≡ bucket_at J.eq self.old j }
        ensures freed { IfSome (bucket_at J.eq self.new join.now) (λ entries. entries ≢ []) }
    {
        let (taken, emptied) = self.take_out(join, key);
        if emptied {
            self.buckets.swap_remove(join);
        }
        taken
    }

    /// Keeps this beside a key in place of what was kept there, and answers that; where the key is not there, gives this
    /// back, and nothing changes. Takes no memory.
    pub fn exchange(&mut self, join: &J, key: &K, kept: S) -> Result<S, S>
        ensures before { IfOk result (λ before. at J.eq K.cmp self.old join.now key.now ≡ Some before) }
        ensures kept { OnOk result ((j : J) (k : K) → at J.eq K.cmp self.new j k
            ≡ cond (J.eq join.now j && is_at (K.cmp key.now) k) (Some kept) (at J.eq K.cmp self.old j k)) }
        ensures others { OnOk result ((j : J) → J.eq join.now j ≡ false → bucket_at J.eq self.new j ≡ bucket_at J.eq self.old j) }
        ensures absent { OnErr result (at J.eq K.cmp self.old join.now key.now ≡ None) }
        ensures back { IfErr result (λ given. given ≡ kept) }
        ensures err { OnErr result ((j : J) → bucket_at J.eq self.new j ≡ bucket_at J.eq self.old j) }
    {
        match self.buckets.get_mut(join) {
            Some(bucket) => bucket.exchange(key, kept),
            None => Err(kept),
        }
    }

    /// Takes a key out, and answers what was kept beside it, and whether its bucket became empty.
    fn take_out(&mut self, join: &J, key: &K) -> (Option<S>, bool)
        ensures taken { result.0 ≡ at J.eq K.cmp self.old join.now key.now }
        ensures kept { (j : J) (k : K) → at J.eq K.cmp self.new j k
            ≡ cond (J.eq join.now j && is_at (K.cmp key.now) k) None (at J.eq K.cmp self.old j k) }
        ensures others { (j : J) → J.eq join.now j ≡ false → bucket_at J.eq self.new j ≡ bucket_at J.eq self.old j }
        ensures emptied { result.1 ≡ true → IfSome (bucket_at J.eq self.new join.now) (λ entries. entries ≡ []) }
        ensures filled { result.1 ≡ false → IfSome (bucket_at J.eq self.new join.now) (λ entries. entries ≢ []) }
    {
        match self.buckets.get_mut(join) {
            Some(bucket) => take_from(self.alloc, bucket, key),
            None => (None, false),
        }
    }
}

impl<J: Eq + Hash + Drop, K: Ord + Copies + Drop, S: Drop> JoinIndex<J, K, S> {
    /// Copies of the keys of all join values, those of one join value in order. It costs a copy of each.
    pub fn keys(&self, alloc: Global) -> Result<Vec<K>, NoMemory>
        ensures { IfOk result (λ keys. AreKeys J.eq K.cmp self.now keys.items) }
    {
        let mut keys = Vec::new(alloc);
        for (_, bucket) in self.buckets.iter() {
            add_keys(alloc, &mut keys, bucket)?;
        }
        Ok(keys)
    }
}

/// Adds copies of the keys of a bucket to these keys.
fn add_keys<K: Ord + Copies + Drop, S: Drop>(
    alloc: Global,
    keys: &mut Vec<K>,
    bucket: &Bucket<K, S>,
) -> Result<(), NoMemory>
    ensures { OnOk result (keys.new.items ≡ keys.old.items ++ keys_of (entries bucket.now)) }
{
    match bucket {
        Bucket::One(key, _) => keys.push(key.copy(alloc)?)?,
        Bucket::Many(ordered) => {
            for key in ordered.keys() {
                keys.push(key.copy(alloc)?)?;
            }
        }
    }
    Ok(())
}

/// Puts a key into a bucket, with what is kept beside it, and answers what was kept before. Where memory is refused, the
/// keys stay as they are.
fn put_in<K: Ord + Drop, S: Drop>(
    alloc: Global,
    bucket: &mut Bucket<K, S>,
    key: K,
    kept: S,
) -> Result<Option<S>, NoMemory>
    ensures before { IfOk result (λ before. before ≡ found K.cmp bucket.old key) }
    ensures kept { OnOk result ((k : K) → found K.cmp bucket.new k ≡ cond (is_at (K.cmp key) k) (Some kept) (found K.cmp bucket.old k)) }
    ensures err { OnErr result (entries bucket.new ≡ entries bucket.old) }
{
    let was = replace(bucket, Bucket::empty(alloc));
    let (now, answer) = was.put(alloc, key, kept);
    *bucket = now;
    answer
}

/// Takes a key out of a bucket, and answers what was kept beside it, and whether the bucket is empty now.
fn take_from<K: Ord + Drop, S: Drop>(
    alloc: Global,
    bucket: &mut Bucket<K, S>,
    key: &K,
) -> (Option<S>, bool)
    ensures taken { result.0 ≡ found K.cmp bucket.old key.now }
    ensures kept { (k : K) → found K.cmp bucket.new k ≡ cond (is_at (K.cmp key.now) k) None (found K.cmp bucket.old k) }
    ensures emptied { result.1 ≡ true → entries bucket.new ≡ [] }
    ensures filled { result.1 ≡ false → entries bucket.new ≢ [] }
{
    let was = replace(bucket, Bucket::empty(alloc));
    let (now, taken) = was.without(alloc, key);
    let emptied = now.is_empty();
    *bucket = now;
    (taken, emptied)
}
