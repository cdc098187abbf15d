ghost use Rattle.std.specs.Prelude.{◌≡◌, ◌&&◌, ◌++◌, ℕ, [], ◌∷◌, None, cond, false, map as list_map, IfOk, OnOk, OnErr};
ghost use Rattle.std.specs.Bool.{OnFalse};
ghost use Rattle.std.specs.BTreeMap.{IsFromIterResult, is_at};
ghost use Rattle.std.specs.List.Sorted.{IsStrictlySortedBy};
ghost use Rattle.std.specs.Map.{keys_of, values_of};
ghost use Rattle.std.specs.Ordering.{nat_cmp};
ghost use Rattle.fx_base.specs.Values.{same_value};
ghost use Rattle.alpha_memory.specs.Bucket.{entries};
ghost use Rattle.alpha_memory.specs.JoinIndex.{at};
ghost use Rattle.alpha_memory.specs.Candidates.{has_candidate_tag, without_tag, with_join, names_of};
ghost use Rattle.alpha_memory.specs.Places.{name_entry};

use crate::bucket::Bucket;
use crate::join_index::JoinIndex;
use fx_base::{Copies, FactId, NoMemory, Tag, Value};
use row_delta::Named;
use std::alloc::Global;
use std::collections::{BTreeMap, HashMap};
use std::marker::Model;

/// Where the candidate with a tag stands: its number, which rises with each insertion, its fact and its join value.
#[derive(Drop)]
struct Place {
    number: u64,
    id: FactId,
    join: Value,
}

/// The candidates of a condition, each with its join value, in the order of their insertion. `add` and `drop_tag` cost
/// a hash or two and the logarithm of the candidates with that join value, in any order (an `add` that finds the table
/// of tags full doubles it); `equal_to` costs a hash and what it answers.
#[derive(Drop)]
pub struct AlphaMemory {
    alloc: Global,
    next: u64,
    by_tag: HashMap<u64, Place>,
    by_join: JoinIndex<Value, u64, Named>,
}

impl Model for AlphaMemory {
    ghost use Rattle.std.specs.Prelude.{List};
    ghost use Rattle.std.specs.Coded.{codes};
    ghost use Rattle.std.specs.FinMap as map;
    ghost use Rattle.alpha_memory.specs.Candidates.{Candidate};

    ghost Value = { List Candidate };

    ghost coded = { Prim.hlevel codes };

    ghost use Rattle.alpha_memory.specs.Places.{numbered, AgreePlaces};

    ghost view = { λ m. map.values (numbered m.by_tag.entries) };

    ghost invariant = { λ m. AgreePlaces m.by_tag.entries m.next m.by_join };
}

impl AlphaMemory {
    /// No candidates. Takes no memory.
    pub fn new(alloc: Global) -> AlphaMemory
        ensures { result ≡ [] }
    {
        AlphaMemory {
            alloc,
            next: 0,
            by_tag: HashMap::new(alloc),
            by_join: JoinIndex::new(alloc),
        }
    }

    /// Adds a candidate whose tag is new, as the last. Where memory is refused, nothing changes; it is also refused
    /// after 2^64 - 1 candidates.
    pub fn add(&mut self, who: Named, join: Value) -> Result<(), NoMemory>
        requires { has_candidate_tag self.old who.tag.0 ≡ false }
        ensures ok { OnOk result (self.new ≡ self.old ++ (who, join) ∷ []) }
        ensures err { OnErr result (self.new ≡ self.old) }
    {
        let number = self.next;
        let next = number.checked_add(1).ok_or(NoMemory)?;
        let place = Place {
            number,
            id: who.id,
            join: join.copy(self.alloc)?,
        };
        self.by_tag.insert(who.tag.0, place)?;
        match self.by_join.put(join, number, who) {
            Ok(_) => {
                self.next = next;
                Ok(())
            }
            Err(refused) => {
                self.by_tag.remove(&who.tag.0);
                Err(refused)
            }
        }
    }

    /// Takes out the candidate with this tag, and answers `false` exactly where there is none. Takes no memory.
    pub fn drop_tag(&mut self, tag: Tag) -> bool
        ensures found { result ≡ has_candidate_tag self.old tag.0 }
        ensures rest { self.new ≡ without_tag self.old tag.0 }
        ensures unchanged { OnFalse result (self.new ≡ self.old) }
    {
        match self.by_tag.remove(&tag.0) {
            Some(place) => {
                leave(&mut self.by_join, place);
                true
            }
            None => false,
        }
    }

    /// The candidates with this join value, in the order of their insertion.
    pub fn equal_to(&self, join: &Value) -> Result<Vec<Named>, NoMemory>
        ensures { IfOk result (λ found. found.items ≡ names_of (with_join self.now join.now)) }
    {
        match self.by_join.bucket(join) {
            Some(bucket) => names_under(self.alloc, bucket),
            None => Ok(Vec::new(self.alloc)),
        }
    }

    /// All candidates, in the order of their insertion. It costs the logarithm of their number for each.
    pub fn all(&self) -> Result<Vec<Named>, NoMemory>
        ensures { IfOk result (λ found. found.items ≡ names_of self.now) }
    {
        let by_number = names_by_number(self.alloc, &self.by_tag)?;
        names_in(self.alloc, &by_number)
    }
}

/// Takes the candidate that has this place out from under its join value. Takes no memory.
fn leave(by_join: &mut JoinIndex<Value, u64, Named>, place: Place)
    ensures { (join : Value) (number : ℕ) → at same_value nat_cmp by_join.new join number
        ≡ cond (same_value place.join join && is_at (nat_cmp place.number) number) None (at same_value nat_cmp by_join.old join number) }
{
    by_join.take(&place.join, &place.number);
}

/// The names of a bucket, in its order.
fn names_under(alloc: Global, bucket: &Bucket<u64, Named>) -> Result<Vec<Named>, NoMemory>
    ensures sorted { IsStrictlySortedBy nat_cmp (keys_of (entries bucket.now)) }
    ensures names { IfOk result (λ names. names.items ≡ values_of (entries bucket.now)) }
{
    match bucket {
        Bucket::One(_, who) => Ok(vec![in alloc; *who]?),
        Bucket::Many(by_number) => names_in(alloc, by_number),
    }
}

/// The names of a map, in its order.
fn names_in(alloc: Global, by_number: &BTreeMap<u64, Named>) -> Result<Vec<Named>, NoMemory>
    ensures sorted { IsStrictlySortedBy nat_cmp (keys_of by_number.now.entries) }
    ensures names { IfOk result (λ names. names.items ≡ values_of by_number.now.entries) }
{
    Ok(by_number.values().copied().collect(alloc)?)
}

/// The candidates by their numbers.
fn names_by_number(
    alloc: Global,
    by_tag: &HashMap<u64, Place>,
) -> Result<BTreeMap<u64, Named>, NoMemory>
    ensures { IfOk result (IsFromIterResult nat_cmp (list_map name_entry by_tag.now.entries)) }
{
    let names = by_tag.iter().map(|(tag, place)| {
        (
            place.number,
            Named {
                id: place.id,
                tag: Tag(*tag),
            },
        )
    });
    Ok(names.collect(alloc)?)
}
