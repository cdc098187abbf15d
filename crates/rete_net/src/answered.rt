ghost use Rattle.std.specs.Prelude.{◌≡◌, ℕ, None, OnOk};
ghost use Rattle.rete_net.specs.Answers.{answer_in, left_given, some_answer, IsAnswerPut};

use crate::due::put_all;
use crate::index::Index;
use fx_base::NoMemory;
use std::alloc::Global;
use std::collections::{BTreeMap, BTreeSet};

/// What the nodes of a network answer in a walk, by their places, where it is not `none`, and the rules that end at these nodes.
#[derive(Drop)]
pub(crate) struct Answered<D> {
    none: D,
    answers: BTreeMap<usize, D>,
    rules: BTreeSet<usize, Global>,
}

impl<D: Drop> Answered<D> {
    /// No node has answered. Takes no memory.
    pub(crate) fn new(alloc: Global, none: D) -> Answered<D>
        ensures none { result.none ≡ none }
        ensures answers { (k : ℕ) → some_answer result k ≡ None }
    {
        Answered {
            none,
            answers: BTreeMap::new(alloc),
            rules: BTreeSet::new(alloc),
        }
    }

    /// What the node in a place answered. It costs the logarithm of the answers. Takes no memory.
    pub(crate) fn answer(&self, place: usize) -> &D
        ensures { result.now ≡ answer_in self.now place }
    {
        match self.answers.get(&place) {
            Some(answer) => answer,
            None => &self.none,
        }
    }

    /// The rules that end at nodes that answered. Takes no memory.
    pub(crate) fn rules(&self) -> &BTreeSet<usize, Global>
        ensures { result.now ≡ self.now.rules }
    {
        &self.rules
    }

    /// What comes to a node: what its parent answered, or what comes to the nodes without a parent. Takes no memory.
    pub(crate) fn left<'d>(&'d self, first: &'d D, parent: Option<usize>) -> &'d D
        ensures { result.now ≡ left_given first.now self.now parent }
    {
        match parent {
            Some(parent) => self.answer(parent),
            None => first,
        }
    }

    /// Takes what the node in a place answers, which is not `none`.
    pub(crate) fn put(&mut self, index: &Index, place: usize, answer: D) -> Result<(), NoMemory>
        ensures { OnOk result (IsAnswerPut index.now place answer self.old self.new) }
    {
        put_all(&mut self.rules, index.rules(place))?;
        self.answers.insert(place, answer)?;
        Ok(())
    }
}
