ghost use Rattle.std.specs.Prelude.{◌≡◌, ◌↔◌, ◌∷◌, ◌++◌, ◌+◌, ◌<◌, ◌≤◌, ℕ, true, length, IfOk, IfSome, IsNone, IsTrue, List, [], Some, slice_get};
ghost use Rattle.std.specs.List.{list_all};
ghost use Rattle.row_delta.specs.declared.delta.Delta.{Delta};
ghost use Rattle.rule_model.specs.declared.condition.Condition.{Condition};
ghost use Rattle.rule_model.specs.declared.program.Program.{Program as ProgramData};
ghost use Rattle.rule_model.specs.Rows.{pattern_of};
ghost use Rattle.rule_world.specs.Programs.{IsRunnable, has_window};
ghost use Rattle.rete_net.specs.declared.build.Origin.{Origin as OriginData};
ghost use Rattle.rete_net.specs.Building.{AreGrown, IsParentNode};
ghost use Rattle.rete_net.specs.Owners.{AreOwnedSoFar, PutsOwner};
ghost use Rattle.rete_net.specs.Shapes.{IsRuleFront};
ghost use Rattle.rete_net.specs.Steps.{no_change, empty_row_comes};

use crate::node::NetNode;
use fx_base::{Fact, Facts, NoMemory, RuleId, Seq, Tag};
use row_delta::{Delta, Row};
use rule_model::{Condition, Program, Rule};
use std::alloc::Global;

/// The store that holds nothing.
pub(crate) struct NoFacts;

impl Facts for NoFacts {
    ghost use Rattle.std.specs.Prelude.{None};

    ghost map = { λ facts tag. None };

    fn fact(&self, _tag: Tag) -> Option<&Fact> {
        None
    }
}

/// Nothing has changed. Takes no memory.
pub(crate) fn no_change(alloc: Global) -> Delta
    ensures { result ≡ no_change }
{
    Delta {
        gone: Seq::from_vec(Vec::new(alloc)),
        come: Seq::from_vec(Vec::new(alloc)),
    }
}

/// The empty row comes.
pub(crate) fn empty_row_comes(alloc: Global) -> Result<Delta, NoMemory>
    ensures { IfOk result (λ delta. delta ≡ empty_row_comes) }
{
    let mut come = Vec::new(alloc);
    come.push(Row {
        facts: Seq::from_vec(Vec::new(alloc)),
        values: Seq::from_vec(Vec::new(alloc)),
    })?;
    Ok(Delta {
        gone: Seq::from_vec(Vec::new(alloc)),
        come: Seq::from_vec(come),
    })
}

/// Behind which parent a node stands, and of which condition it is.
#[derive(Drop)]
pub(crate) struct Origin<'p> {
    parent: Option<usize>,
    condition: &'p Condition,
}

impl Origin<'_> {
    // Whether it has this parent and this condition. Takes no memory.
    fn names(&self, parent: Option<usize>, condition: &Condition) -> bool
        ensures { IsTrue result ↔ ((self.now.parent ≡ parent) × (self.now.condition.now ≡ condition.now)) }
    {
        self.parent == parent && self.condition.is_same(condition)
    }
}

/// Under which rule, and at which of its conditions, what a node counts beyond its candidates is told: of the rules that share the
/// conditions up to that one the first.
#[derive(Clone, Copy)]
pub(crate) struct Owner {
    pub(crate) rule: RuleId,
    pub(crate) condition: u8,
}

impl Owner {
    // The next condition of the rule. Takes no memory.
    fn next(self) -> Owner
        ensures rule { result.rule ≡ self.rule }
        ensures condition { self.condition < 255 → result.condition ≡ self.condition + 1 }
    {
        Owner {
            rule: self.rule,
            condition: self.condition.saturating_add(1),
        }
    }
}

/// The nodes of a network that is being built, each behind its parent, their owners, and where each comes from.
#[derive(Drop)]
pub(crate) struct Builder<'p> {
    pub(crate) nodes: Vec<NetNode>,
    pub(crate) owners: Vec<Owner>,
    origins: Vec<Origin<'p>>,
}

// The place of the first of these origins that has this parent and this condition. It looks at each, and compares the conditions of
// those with this parent. Takes no memory.
fn place_of(origins: &[Origin], parent: Option<usize>, condition: &Condition) -> Option<usize>
    ensures found { IfSome result (λ place. (origin : OriginData) × (slice_get origins.now place ≡ Some origin) × (origin.parent ≡ parent) × (origin.condition.now ≡ condition.now)) }
    ensures missing { IsNone result → (place : ℕ) (origin : OriginData) → slice_get origins.now place ≡ Some origin → origin.parent ≡ parent → origin.condition.now ≡ condition.now → ⊥ }
{
    for place in 0..origins.len() {
        if origins[place].names(parent, condition) {
            return Some(place);
        }
    }
    None
}

impl<'p> Builder<'p> {
    /// No nodes. Takes no memory.
    pub(crate) fn new(alloc: Global) -> Builder<'p>
        ensures grown { (p : ProgramData) → AreGrown p result.nodes.items result.origins.items [] }
        ensures owned { (p : ProgramData) → AreOwnedSoFar p [] result.owners.items 0 [] 0 }
    {
        Builder {
            nodes: Vec::new(alloc),
            owners: Vec::new(alloc),
            origins: Vec::new(alloc),
        }
    }

    /// Puts the nodes of the conditions of the rule in a place, each behind the one before it, and answers the last one; `None` where there is no
    /// condition. Of first conditions that are there it takes the nodes that are there. For each condition it looks at all nodes.
    pub(crate) fn put_chain(
        &mut self,
        alloc: Global,
        program: &Program,
        rule: &'p Rule,
        place: RuleId,
    ) -> Result<Option<usize>, NoMemory>
        ensures { IfOk result (λ last. (all : List (List Condition)) → AreGrown program.now self.old.nodes.items self.old.origins.items all
            → slice_get program.now.rules place.0 ≡ Some rule.now → length rule.now.conditions ≤ 8 → list_all (has_window program.now) rule.now.conditions ≡ true
            → AreOwnedSoFar program.now all self.old.owners.items place.0 [] 0
            → (more : List (List Condition)) × AreGrown program.now self.new.nodes.items self.new.origins.items (all ++ more) × IsParentNode (all ++ more) last rule.now.conditions
            × AreOwnedSoFar program.now (all ++ more) self.new.owners.items place.0 rule.now.conditions (length rule.now.conditions)) }
    {
        let mut last = None;
        let mut owner = Owner {
            rule: place,
            condition: 0,
        };
        for condition in rule.conditions.as_slice() {
            let place = self.put(alloc, program, last, condition, owner)?;
            last = Some(place);
            owner = owner.next();
        }
        Ok(last)
    }

    // The place of the node of a condition behind a parent: of the one that is there, or else of a new one with this owner.
    fn put(
        &mut self,
        alloc: Global,
        program: &Program,
        parent: Option<usize>,
        condition: &'p Condition,
        owner: Owner,
    ) -> Result<usize, NoMemory>
        ensures { IfOk result (λ place. (all : List (List Condition)) (front : List Condition) → AreGrown program.now self.old.nodes.items self.old.origins.items all
            → IsParentNode all parent front → IsRuleFront program.now (front ++ condition.now ∷ []) → has_window program.now condition.now ≡ true
            → (more : List (List Condition)) × AreGrown program.now self.new.nodes.items self.new.origins.items (all ++ more) × (slice_get (all ++ more) place ≡ Some (front ++ condition.now ∷ []))
            × PutsOwner all more (front ++ condition.now ∷ []) owner self.old.owners.items self.new.owners.items) }
    {
        match place_of(&self.origins, parent, condition) {
            Some(place) => Ok(place),
            None => {
                let place = self.nodes.len();
                let node = NetNode::new(alloc, program, parent, condition)?;
                self.nodes.push(node)?;
                self.owners.push(owner)?;
                self.origins.push(Origin { parent, condition })?;
                Ok(place)
            }
        }
    }
}
