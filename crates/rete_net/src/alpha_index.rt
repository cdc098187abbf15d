ghost use Rattle.std.specs.Prelude.{◌≡◌, ℕ, slice_get, OnOk};
ghost use Rattle.fx_base.specs.declared.fact.Fact.{Fact as FactData};
ghost use Rattle.rete_net.specs.Indexes.{items_of, IsLookedUp, IsAskedWhereMeant};
ghost use Rattle.rete_net.specs.Selectors.{list_slot_of};

use crate::bounds::range_of;
use crate::lists::Lists;
use crate::ranges::Ranges;
use crate::selector::{number_of, selector_of};
use fx_base::{NoMemory, TypeId, Value};
use rule_model::Pattern;
use std::alloc::Global;

/// By what the nodes are found whose patterns may mean a fact, by their places. A node whose pattern asks that a field is equal to a literal
/// is found by a hash of the type, the field and the value, as selector nodes find theirs; one whose pattern bounds a field by an order, by
/// the ranges of the field; the others by the type. A list of a hash may have nodes of other constants, which are asked too. An empty list
/// takes 24 bytes, and there are none above the last with a node.
#[derive(Drop)]
pub(crate) struct AlphaIndex {
    fields: Lists,
    mask: u64,
    constants: Lists,
    ranges: Ranges,
    others: Lists,
}

impl AlphaIndex {
    /// No node is found. There are to be more lists by constants than so many nodes, up to twice as many. Takes no memory.
    pub(crate) fn new(alloc: Global, nodes: usize) -> AlphaIndex {
        AlphaIndex {
            fields: Lists::new(alloc),
            mask: mask_above(nodes),
            constants: Lists::new(alloc),
            ranges: Ranges::new(alloc),
            others: Lists::new(alloc),
        }
    }

    /// Puts the node in a place where the facts are looked up that its pattern means. Of several equalities it takes the first: nodes that
    /// have this one alike, and are told apart by another, stand in one list and are each asked. Without one it takes the bounds of the first
    /// field that has some. It costs a look at the fields by which nodes of the type are told apart, and the lists below that are not there
    /// yet.
    pub(crate) fn put(
        &mut self,
        alloc: Global,
        place: usize,
        pattern: &Pattern,
    ) -> Result<(), NoMemory>
        ensures asked { OnOk result (IsAskedWhereMeant self.new pattern.now place) }
        ensures kept { OnOk result ((f : FactData) (k : ℕ) → IsLookedUp self.old f k → IsLookedUp self.new f k) }
    {
        let ty = usize::from(pattern.ty.0);
        match selector_of(pattern.alone.as_slice()) {
            Some(selector) => {
                let field = usize::from(selector.field);
                let slot = self.slot(pattern.ty, field, selector.value);
                self.fields.put_once(alloc, ty, field)?;
                self.constants.put(alloc, slot, place)?;
                Ok(())
            }
            None => match range_of(pattern.alone.as_slice()) {
                Some(range) => self.ranges.put(alloc, ty, range, place),
                None => self.others.put(alloc, ty, place),
            },
        }
    }

    /// Puts the ranges in their order: until then each is looked at. It costs the logarithm for each.
    pub(crate) fn settle(&mut self, alloc: Global) -> Result<(), NoMemory>
        ensures { OnOk result ((f : FactData) (k : ℕ) → IsLookedUp self.old f k → IsLookedUp self.new f k) }
    {
        self.ranges.settle(alloc)
    }

    /// The fields by which nodes of a type are told apart. Takes no memory.
    pub(crate) fn fields(&self, ty: TypeId) -> &[usize]
        ensures { result.now ≡ items_of (slice_get self.now.fields.lists.items ty.0) }
    {
        self.fields.list(usize::from(ty.0))
    }

    /// The nodes of a type that are told apart by this value in a field, and perhaps others. It costs the hash. Takes no memory.
    pub(crate) fn constants(&self, ty: TypeId, field: usize, value: &Value) -> &[usize]
        ensures { result.now ≡ items_of (slice_get self.now.constants.lists.items (list_slot_of self.now.mask ty.0 field value.now)) }
    {
        self.constants.list(self.slot(ty, field, value))
    }

    /// The ranges by which nodes are found. Takes no memory.
    pub(crate) fn ranges(&self) -> &Ranges
        ensures { result.now ≡ self.now.ranges }
    {
        &self.ranges
    }

    /// The nodes of a type that are not told apart. Takes no memory.
    pub(crate) fn others(&self, ty: TypeId) -> &[usize]
        ensures { result.now ≡ items_of (slice_get self.now.others.lists.items ty.0) }
    {
        self.others.list(usize::from(ty.0))
    }

    // The number of the list for a value in a field of a type.
    fn slot(&self, ty: TypeId, field: usize, value: &Value) -> usize
        ensures { result ≡ list_slot_of self.now.mask ty.0 field value.now }
    {
        (number_of(ty, field, value) & self.mask) as usize
    }
}

// One less than a power of two, which is above the number of nodes and at most twice as much.
pub(crate) fn mask_above(nodes: usize) -> u64 {
    u64::MAX
        .checked_shr((nodes as u64).leading_zeros())
        .unwrap_or(0)
}
