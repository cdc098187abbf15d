ghost use Rattle.std.specs.Prelude.{◌≡◌, ◌<◌, ℕ, Some, length, slice_get, option_map, true, IfOk, IsTrue, OnOk};
ghost use Rattle.fx_base.specs.declared.fact.Fact.{Fact as FactData};
ghost use Rattle.rete_net.specs.Bounds.{IsWithin};
ghost use Rattle.rete_net.specs.Indexes.{is_listed, items_of, IsInRange};
ghost use Rattle.rete_net.specs.declared.ranges.FieldRanges.{FieldRanges as FieldRangesData};

use crate::bounds::FieldRange;
use crate::lists::Lists;
use fx_base::{NoMemory, TypeId};
use range_index::{PlacedRange, RangeIndex};
use std::alloc::Global;

/// The ranges in which nodes of a type have their candidates' numbers in a field, with the places of the nodes.
#[derive(Drop)]
pub(crate) struct FieldRanges {
    pub(crate) field: usize,
    pub(crate) ranges: RangeIndex,
}

/// By which ranges nodes are found: for each type and field that has some.
#[derive(Drop)]
pub(crate) struct Ranges {
    by_type: Lists,
    fields: Vec<FieldRanges>,
}

impl Ranges {
    /// No node is found. Takes no memory.
    pub(crate) fn new(alloc: Global) -> Ranges {
        Ranges {
            by_type: Lists::new(alloc),
            fields: Vec::new(alloc),
        }
    }

    /// Puts the node in a place where facts of a type are looked up whose number in a field is in the range. It costs a look at the fields
    /// of the type that have ranges.
    pub(crate) fn put(
        &mut self,
        alloc: Global,
        ty: usize,
        range: FieldRange,
        place: usize,
    ) -> Result<(), NoMemory>
        ensures put { OnOk result ((f : FactData) → f.ty.0 ≡ ty → IsWithin range f → IsInRange self.new f place) }
        ensures kept { OnOk result ((f : FactData) (k : ℕ) → IsInRange self.old f k → IsInRange self.new f k) }
    {
        let at = self.reach(alloc, ty, range.field)?;
        self.fields[at].ranges.put(placed(range, place))?;
        Ok(())
    }

    // The place of the ranges of a field of a type, which are put there where there are none.
    fn reach(&mut self, alloc: Global, ty: usize, field: usize) -> Result<usize, NoMemory>
        ensures within { IfOk result (λ at. at < length self.new.fields.items) }
        ensures field { IfOk result (λ at. (of : FieldRangesData) → slice_get self.new.fields.items at ≡ Some of → of.field ≡ field) }
        ensures listed { IfOk result (λ at. is_listed self.new.by_type ty at ≡ true) }
        ensures kept { OnOk result ((f : FactData) (k : ℕ) → IsInRange self.old f k → IsInRange self.new f k) }
    {
        for at in self.by_type.list(ty) {
            if self.is_of(*at, field) {
                return Ok(*at);
            }
        }
        let at = self.fields.len();
        self.fields.push(FieldRanges {
            field,
            ranges: RangeIndex::new(alloc),
        })?;
        self.by_type.put(alloc, ty, at)?;
        Ok(at)
    }

    // Whether the ranges in a place are those of a field.
    fn is_of(&self, at: usize, field: usize) -> bool
        ensures { IsTrue result → (of : FieldRangesData) × (slice_get self.now.fields.items at ≡ Some of) × (of.field ≡ field) }
    {
        self.fields
            .get(at)
            .is_some_and(|ranges| ranges.field == field)
    }

    /// Puts the ranges of each field in their order. It costs the logarithm for each.
    pub(crate) fn settle(&mut self, alloc: Global) -> Result<(), NoMemory>
        ensures { OnOk result ((f : FactData) (k : ℕ) → IsInRange self.old f k → IsInRange self.new f k) }
    {
        for at in 0..self.fields.len() {
            self.fields[at].ranges.settle(alloc)?;
        }
        Ok(())
    }

    /// The places of the ranges of a type. Takes no memory.
    pub(crate) fn of_type(&self, ty: TypeId) -> &[usize]
        ensures { result.now ≡ items_of (slice_get self.now.by_type.lists.items ty.0) }
    {
        self.by_type.list(usize::from(ty.0))
    }

    /// The ranges in a place. Takes no memory.
    pub(crate) fn get(&self, at: usize) -> Option<&FieldRanges>
        ensures { option_map (λ of. of.now) result ≡ slice_get self.now.fields.items at }
    {
        self.fields.get(at)
    }
}

// The range with the place of a node.
fn placed(range: FieldRange, place: usize) -> PlacedRange
    ensures { result ≡ record { least = range.least; most = range.most; place = place } }
{
    PlacedRange {
        least: range.least,
        most: range.most,
        place,
    }
}
