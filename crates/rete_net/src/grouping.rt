//! Nodes that may share a source, in groups.
use crate::alike::SourceKey;
use crate::alpha_index::mask_above;
use crate::fans::Fans;
use crate::lists::Lists;
use crate::node::NetNode;
use crate::selector::{number_of, selector_of};
use fx_base::NoMemory;
use rule_model::Pattern;
use std::alloc::Global;

/// Nodes that take and keep alike: how many there are, and their source, if it is there.
#[derive(Drop)]
struct Group {
    key: SourceKey,
    members: usize,
    source: Option<usize>,
}

/// The groups of nodes without a seat, by a hash of what their patterns ask of a fact alone, and the group of each node, if it is of one.
#[derive(Drop)]
pub(crate) struct Groups {
    list: Vec<Group>,
    of: Vec<Option<usize>>,
    slots: Lists,
    mask: u64,
}

impl Groups {
    /// The groups of these nodes. It costs for each node a key, and a look at the groups in its slot.
    pub(crate) fn of(alloc: Global, nodes: &[NetNode], fans: &Fans) -> Result<Groups, NoMemory> {
        let mut groups = Groups {
            list: Vec::new(alloc),
            of: Vec::new(alloc),
            slots: Lists::new(alloc),
            mask: mask_above(nodes.len()),
        };
        for (place, node) in nodes.iter().enumerate() {
            match fans.seat(place) {
                Some(_) => groups.of.push(None)?,
                None => groups.put(alloc, node.pattern())?,
            }
        }
        Ok(groups)
    }

    fn put(&mut self, alloc: Global, pattern: &Pattern) -> Result<(), NoMemory> {
        let key = SourceKey::of(alloc, pattern)?;
        let slot = self.slot(pattern);
        match self.with_key(slot, &key) {
            Some(group) => self.put_member(group),
            None => self.put_group(alloc, slot, key),
        }
    }

    // The slot of a pattern: by the first constant that it asks for, or else by its type.
    fn slot(&self, pattern: &Pattern) -> usize {
        let number = match selector_of(pattern.alone.as_slice()) {
            Some(selector) => number_of(pattern.ty, usize::from(selector.field), selector.value),
            None => u64::from(pattern.ty.0),
        };
        (number & self.mask) as usize
    }

    // The group with a key, in its slot.
    fn with_key(&self, slot: usize, key: &SourceKey) -> Option<usize> {
        for group in self.slots.list(slot) {
            if self.has_key(*group, key) {
                return Some(*group);
            }
        }
        None
    }

    fn has_key(&self, group: usize, key: &SourceKey) -> bool {
        match self.list.get(group) {
            Some(group) => group.key.is_same(key),
            None => false,
        }
    }

    fn put_member(&mut self, group: usize) -> Result<(), NoMemory> {
        self.of.push(Some(group))?;
        match self.list.get_mut(group) {
            Some(group) => group.members = group.members.saturating_add(1),
            None => {}
        }
        Ok(())
    }

    fn put_group(&mut self, alloc: Global, slot: usize, key: SourceKey) -> Result<(), NoMemory> {
        let group = self.list.len();
        self.list.push(Group {
            key,
            members: 1,
            source: None,
        })?;
        self.slots.put(alloc, slot, group)?;
        self.of.push(Some(group))?;
        Ok(())
    }

    /// The group of the node in a place, where it has two members and more. Takes no memory.
    pub(crate) fn shared(&self, place: usize) -> Option<usize> {
        match self.of.get(place) {
            Some(Some(group)) => {
                if self.is_shared(*group) {
                    Some(*group)
                } else {
                    None
                }
            }
            _ => None,
        }
    }

    fn is_shared(&self, group: usize) -> bool {
        match self.list.get(group) {
            Some(group) => group.members >= 2,
            None => false,
        }
    }

    /// The source of a group, if it is there. Takes no memory.
    pub(crate) fn source(&self, group: usize) -> Option<usize> {
        match self.list.get(group) {
            Some(group) => group.source,
            None => None,
        }
    }

    /// A group has its source now. Takes no memory.
    pub(crate) fn set_source(&mut self, group: usize, source: usize) {
        match self.list.get_mut(group) {
            Some(group) => group.source = Some(source),
            None => {}
        }
    }
}
