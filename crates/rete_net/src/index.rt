ghost use Rattle.std.specs.Prelude.{◌≡◌, ℕ, None, Some, true, false, slice_get, IfOk, OnOk};
ghost use Rattle.candidate_source.specs.Sources.{is_follower};
ghost use Rattle.rete_net.specs.Indexes.{is_in, is_listed, items_of, IsNodeFound, IsIndexOf};
ghost use Rattle.rete_net.specs.declared.node.NetNode.{NetNode as NetNodeData};

use crate::alpha_index::AlphaIndex;
use crate::lists::Lists;
use crate::node::NetNode;
use crate::sourcing::is_follower;
use candidate_source::Sources;
use fx_base::{NoMemory, TypeId};
use std::alloc::Global;

/// By what the nodes of a network are found, by their places: by the type of their candidates, by what their patterns mean, and as nodes
/// without a parent; and the rules by the places of their last nodes.
#[derive(Drop)]
pub(crate) struct Index {
    by_type: Lists,
    pub(crate) alpha: AlphaIndex,
    firsts: Vec<usize>,
    rules: Lists,
}

impl Index {
    /// The index of these nodes, of which those that follow the first one of a source are found by that, and of the rules with these last
    /// nodes. It costs the nodes, the types and the rules.
    pub(crate) fn of(
        alloc: Global,
        nodes: &[NetNode],
        ends: &[usize],
        sources: &Sources,
    ) -> Result<Index, NoMemory>
        ensures { IfOk result (λ index. IsIndexOf sources.now nodes.now ends.now index) }
    {
        let mut index = Index {
            by_type: Lists::new(alloc),
            alpha: AlphaIndex::new(alloc, nodes.len()),
            firsts: Vec::new(alloc),
            rules: Lists::new(alloc),
        };
        for (place, node) in nodes.iter().enumerate() {
            index.put_node(alloc, place, node, sources)?;
            index.put_first(place, node.parent)?;
        }
        index.alpha.settle(alloc)?;
        for (rule, end) in ends.iter().enumerate() {
            index.put_rule(alloc, rule, *end)?;
        }
        Ok(index)
    }

    // Puts a node by its type and by what it means, unless it follows the first one of its source.
    fn put_node(
        &mut self,
        alloc: Global,
        place: usize,
        node: &NetNode,
        sources: &Sources,
    ) -> Result<(), NoMemory>
        ensures found { OnOk result (is_follower sources.now place ≡ false → IsNodeFound self.new place node.now) }
        ensures kept { OnOk result ((k : ℕ) (n : NetNodeData) → IsNodeFound self.old k n → IsNodeFound self.new k n) }
        ensures firsts { OnOk result (self.new.firsts ≡ self.old.firsts) }
    {
        if is_follower(sources, place) {
            return Ok(());
        }
        self.by_type.put(alloc, usize::from(node.ty().0), place)?;
        self.alpha.put(alloc, place, node.pattern())?;
        Ok(())
    }

    // Puts a node among the first ones, where it has no parent.
    fn put_first(&mut self, place: usize, parent: Option<usize>) -> Result<(), NoMemory>
        ensures nodes { OnOk result ((k : ℕ) (n : NetNodeData) → IsNodeFound self.old k n → IsNodeFound self.new k n) }
        ensures first { OnOk result (parent ≡ None → is_in self.new.firsts.items place ≡ true) }
        ensures kept { OnOk result ((k : ℕ) → is_in self.old.firsts.items k ≡ true → is_in self.new.firsts.items k ≡ true) }
    {
        match parent {
            Some(_) => {}
            None => self.firsts.push(place)?,
        }
        Ok(())
    }

    fn put_rule(&mut self, alloc: Global, rule: usize, end: usize) -> Result<(), NoMemory>
        ensures nodes { OnOk result ((k : ℕ) (n : NetNodeData) → IsNodeFound self.old k n → IsNodeFound self.new k n) }
        ensures firsts { OnOk result (self.new.firsts ≡ self.old.firsts) }
        ensures rule { OnOk result (is_listed self.new.rules end rule ≡ true) }
        ensures kept { OnOk result ((e r : ℕ) → is_listed self.old.rules e r ≡ true → is_listed self.new.rules e r ≡ true) }
    {
        self.rules.put(alloc, end, rule)?;
        Ok(())
    }

    /// The nodes whose candidates are of a type. Takes no memory.
    pub(crate) fn of_type(&self, ty: TypeId) -> &[usize]
        ensures { result.now ≡ items_of (slice_get self.now.by_type.lists.items ty.0) }
    {
        self.by_type.list(usize::from(ty.0))
    }

    /// The nodes without a parent. Takes no memory.
    pub(crate) fn firsts(&self) -> &[usize]
        ensures { result.now ≡ self.now.firsts.items }
    {
        &self.firsts
    }

    /// The rules whose last node this is. Takes no memory.
    pub(crate) fn rules(&self, end: usize) -> &[usize]
        ensures { result.now ≡ items_of (slice_get self.now.rules.lists.items end) }
    {
        self.rules.list(end)
    }
}
