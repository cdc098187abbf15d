ghost use Rattle.std.specs.Prelude.{◌≡◌, ◌≤◌, ◌<◌, ◌^◌, ℕ, [], false, true, cond, IfSome, IfNone, OnOk, OnErr};
ghost use Rattle.std.specs.BTreeMap.{is_at};
ghost use Rattle.fact_store.specs.Indexes.{id_tag_cmp, has_pair};

use fx_base::NoMemory;
use page_map::PageMap;
use std::alloc::Global;
use std::collections::BTreeSet;
use std::marker::Model;

/// Ids with the tags of their versions. The newest version of each id stands in pages; the others, of which there are few, in a tree.
/// A call costs the logarithm of what is held.
#[derive(Drop)]
pub(crate) struct Versions {
    newest: PageMap,
    older: BTreeSet<(u64, u64), Global>,
}

impl Model for Versions {
    ghost use Rattle.std.specs.Prelude.{ℕ, List, ◌++◌};
    ghost use Rattle.std.specs.Coded.{codes};
    ghost use Rattle.std.specs.FinMap as map;
    ghost use Rattle.fact_store.specs.Indexes.{LeadsToNewest};

    ghost Value = { List (ℕ × ℕ) };

    ghost coded = { Prim.hlevel codes };

    ghost view = { λ v. map.entries v.newest ++ v.older.keys };

    ghost invariant = { λ v. LeadsToNewest v.newest v.older.keys };
}

impl Versions {
    /// No versions. Takes no memory.
    pub(crate) fn new(alloc: Global) -> Versions
        ensures { result ≡ [] }
    {
        Versions {
            newest: PageMap::new(alloc),
            older: BTreeSet::new(alloc),
        }
    }

    /// The greatest tag of this id. Takes no memory.
    pub(crate) fn newest_tag(&self, id: u64) -> Option<u64>
        ensures found { IfSome result (λ tag. has_pair self.now (id, tag) ≡ true) }
        ensures greatest { IfSome result (λ tag. (other : ℕ) → has_pair self.now (id, other) ≡ true → other ≤ tag) }
        ensures none { IfNone result ((other : ℕ) → has_pair self.now (id, other) ≡ false) }
    {
        self.newest.get(id)
    }

    /// The greatest tag of this id below this one, which is one of its tags. Takes no memory.
    pub(crate) fn tag_below(&self, id: u64, tag: u64) -> Option<u64>
        requires { has_pair self.now (id, tag) ≡ true }
        ensures found { IfSome result (λ lower. (has_pair self.now (id, lower) ≡ true) × (lower < tag)) }
        ensures greatest { IfSome result (λ lower. (other : ℕ) → has_pair self.now (id, other) ≡ true → other < tag → other ≤ lower) }
        ensures none { IfNone result ((other : ℕ) → has_pair self.now (id, other) ≡ true → tag ≤ other) }
    {
        if tag > 0 {
            greatest(&self.older, id, tag - 1)
        } else {
            None
        }
    }

    /// Puts in a version that is new. Where memory is refused, nothing changes. The tag 2^64 - 1 is refused in the same way.
    pub(crate) fn add(&mut self, id: u64, tag: u64) -> Result<(), NoMemory>
        requires { has_pair self.old (id, tag) ≡ false }
        ensures ok { OnOk result ((other : ℕ × ℕ) → has_pair self.new other ≡ cond (is_at (id_tag_cmp (id, tag)) other) true (has_pair self.old other)) }
        ensures err { OnErr result (self.new ≡ self.old) }
    {
        if tag == u64::MAX {
            return Err(NoMemory);
        }
        match self.newest.get(id) {
            Some(newest) => {
                if newest < tag {
                    self.older.insert((id, newest))?;
                    self.newest.replace(id, tag);
                } else {
                    self.older.insert((id, tag))?;
                }
                Ok(())
            }
            None => self.newest.insert(id, tag),
        }
    }

    /// Takes out a version. Takes no memory.
    pub(crate) fn remove(&mut self, id: u64, tag: u64)
        ensures { (other : ℕ × ℕ) → has_pair self.new other ≡ cond (is_at (id_tag_cmp (id, tag)) other) false (has_pair self.old other) }
    {
        match self.newest.get(id) {
            Some(newest) => {
                if newest == tag {
                    match greatest(&self.older, id, u64::MAX) {
                        Some(next) => {
                            self.newest.replace(id, next);
                            self.older.remove(&(id, next));
                        }
                        None => {
                            self.newest.remove(id);
                        }
                    }
                } else {
                    self.older.remove(&(id, tag));
                }
            }
            None => {
                self.older.remove(&(id, tag));
            }
        }
    }
}

/// The greatest tag up to this one that stands beside this id.
fn greatest(pairs: &BTreeSet<(u64, u64), Global>, id: u64, top: u64) -> Option<u64>
    ensures found { IfSome result (λ tag. (has_pair pairs.now.keys (id, tag) ≡ true) × (tag ≤ top)) }
    ensures greatest { IfSome result (λ tag. (other : ℕ) → other ≤ top → has_pair pairs.now.keys (id, other) ≡ true → other ≤ tag) }
    ensures none { IfNone result ((other : ℕ) → other ≤ top → has_pair pairs.now.keys (id, other) ≡ false) }
{
    match pairs.range(..=(id, top)).next_back() {
        Some(last) => { if last.0 == id { Some(last.1) } else { None } }
        None => None,
    }
}
