ghost use Rattle.std.specs.Prelude.{◌≡◌, ℤ, Bool, true, Option, Some, IsNone, option_map, IfOk, IfSome, IsTrue};
ghost use Rattle.rule_model.specs.declared.condition.Condition.TheVariants.{Plain};
ghost use Rattle.row_delta.specs.declared.delta.Delta.{Delta as DeltaData};
ghost use Rattle.row_delta.specs.declared.row.Named.{Named as NamedData};
ghost use Rattle.row_delta.specs.declared.row.Row.{Row as RowData};
ghost use Rattle.row_change.specs.Changes.{changes_nothing};
ghost use Rattle.rule_model.specs.declared.program.Program.{Program as ProgramData};
ghost use Rattle.rule_model.specs.Distinct.{HaveDistinctTags};
ghost use Rattle.rule_model.specs.Snapshots.{Snapshot};
ghost use Rattle.rule_model.specs.Lent.{lent};
ghost use Rattle.join_tests.specs.Joins.{Look};
ghost use Rattle.join_memory.specs.Joined.{has_name};
ghost use Rattle.rule_model.specs.Rows.{pattern_of};
ghost use Rattle.pattern_gate.specs.Turns.{is_meant};
ghost use Rattle.condition_rows.specs.Looks.{HasAllOf, NameHeld};
ghost use Rattle.beta_node.specs.Loading.{AreExtrasBeside};
ghost use Rattle.beta_node.specs.Nodes.{condition_of, is_negated, NodeStands};
ghost use Rattle.beta_node.specs.Quiet.{IsQuiet};
ghost use Rattle.beta_node.specs.Lending.{lent_to, with_candidates};
ghost use Rattle.join_memory.specs.declared.candidates.Candidates.{Candidates as CandidatesData};
ghost use Rattle.rete_net.specs.Dropped.{NodeForgets};
ghost use Rattle.rete_net.specs.Fans.{showing, with_member, Member};
ghost use Rattle.rete_net.specs.Indexes.{is_changed_by_clock, type_of};
ghost use Rattle.rete_net.specs.Standing.{IsFresh};
ghost use Rattle.rete_net.specs.Schedules.{entry_point_of, IsStillAt};
ghost use Rattle.rete_net.specs.Timers.{IsFrom};
ghost use Rattle.rete_net.specs.Steps.{no_change, NodeStep};

use crate::build::{Owner, no_change};
use beta_node::Node;
use fx_base::{EntryId, Fact, Facts, NoMemory, Seq, TypeId};
use join_memory::Candidates;
use pattern_gate::PatternGate;
use row_change::changes_nothing;
use row_delta::{Delta, Extra, Named, Row};
use rule_model::{Condition, Moment, Pattern, Program};
use std::alloc::Global;

/// A node of the network: where the rows of the conditions before it come from, the gate of its candidates, and the node of its
/// condition. Without a parent, the empty row alone is before it.
#[derive(Drop)]
pub(crate) struct NetNode {
    pub(crate) parent: Option<usize>,
    pub(crate) gate: PatternGate,
    pub(crate) node: Node,
}

impl NetNode {
    /// The node of a condition behind a parent. It keeps nothing, and copies the condition.
    pub(crate) fn new(
        alloc: Global,
        program: &Program,
        parent: Option<usize>,
        condition: &Condition,
    ) -> Result<NetNode, NoMemory>
        ensures parent { IfOk result (λ made. made.parent ≡ parent) }
        ensures condition { IfOk result (λ made. condition_of made.node ≡ condition.now) }
        ensures stands { IfOk result (λ made. IsFresh program.now made) }
    {
        let gate = PatternGate::new(alloc, condition.pattern());
        let node = Node::new(alloc, program, condition)?;
        Ok(NetNode { parent, gate, node })
    }

    /// Takes what has changed in the rows before it and what goes and comes, and answers what has changed in the rows of its
    /// condition. Where nothing has changed before it and it is still, it takes no memory.
    pub(crate) fn advance<F: Facts>(
        &mut self,
        alloc: Global,
        program: &Program,
        left: &Delta,
        gone: &[&Fact],
        come: Option<&Fact>,
        moment: &Moment,
        facts: &F,
    ) -> Result<Delta, NoMemory>
        ensures { IfOk result (λ delta. NodeStep program.now (F.map facts.now) (lent gone.now) (option_map (λ f. f.now) come.entry) moment.now self.old self.new left.now delta) }
    {
        if changes_nothing(left) && self.is_still(program, gone, come, moment) {
            return Ok(no_change(alloc));
        }
        let right = self.gate.advance(
            alloc,
            program,
            self.node.pattern(),
            gone,
            come,
            moment.clock,
        )?;
        let delta = self
            .node
            .advance(alloc, program, left, &right, moment, facts)?;
        Ok(delta)
    }

    /// Whether it stays as it is at this moment, where these facts go and this one comes, if one does, and nothing changes in the
    /// rows before it: none of these facts is meant, and nothing is due in the gate or the node. It costs a look at what is due
    /// first in each of them, and of each fact the constant tests. Takes no memory.
    fn is_still(
        &self,
        program: &Program,
        gone: &[&Fact],
        come: Option<&Fact>,
        moment: &Moment,
    ) -> bool
        ensures { IsTrue result → (look : Look) (left : DeltaData) → changes_nothing left ≡ true
            → NodeStep program.now look (lent gone.now) (option_map (λ f. f.now) come.entry) moment.now self.now self.now left no_change }
    {
        self.node.is_still(program, moment)
            && self
                .gate
                .is_still(self.node.pattern(), gone, come, moment.clock)
    }

    /// The type of its candidates. Takes no memory.
    pub(crate) fn ty(&self) -> TypeId
        ensures { result.0 ≡ type_of self.now }
    {
        self.node.pattern().ty
    }

    /// The pattern of its candidates. Takes no memory.
    pub(crate) fn pattern(&self) -> &Pattern
        ensures { result.now ≡ pattern_of (condition_of self.now.node) }
    {
        self.node.pattern()
    }

    /// Its pattern, where it binds a fact and stands behind this parent. Takes no memory.
    pub(crate) fn joined_behind(&self, parent: usize) -> Option<&Pattern>
        ensures { IfSome result (λ q. (self.now.parent ≡ Some parent) × (condition_of self.now.node ≡ Plain q.now)) }
    {
        if self.parent != Some(parent) {
            return None;
        }
        join_pattern(&self.node)
    }

    /// The entry point of its candidates. Takes no memory.
    pub(crate) fn entry(&self) -> EntryId
        ensures { result.0 ≡ entry_point_of self.now }
    {
        self.node.pattern().entry
    }

    /// Whether time alone may change something here: a `not` waits, and candidates leave a window. Takes no memory.
    pub(crate) fn is_timed(&self) -> bool
        ensures { result ≡ is_changed_by_clock self.now }
    {
        is_not(&self.node) || !self.node.pattern().window.is_whole()
    }

    /// Whether a fact is of its pattern's type and entry point, and passes the constant tests. Takes no memory.
    pub(crate) fn means(&self, fact: &Fact) -> bool
        ensures { result ≡ is_meant (pattern_of (condition_of self.now.node)) fact.now }
    {
        let pattern = self.node.pattern();
        fact.ty == pattern.ty && fact.entry == pattern.entry && pattern.passes_alone(fact)
    }

    /// Drops those of the rows before it that name an old fact, which are these, and the old candidates, and answers the rows of its
    /// condition that go with them, in order. The gate stands for the whole snapshot, and keeps them.
    pub(crate) fn forget<F: Facts>(
        &mut self,
        alloc: Global,
        program: &Program,
        rows: &[Row],
        old: &[Named],
        facts: &F,
    ) -> Result<Seq<Row>, NoMemory>
        ensures { IfOk result (λ gone. NodeForgets program.now (F.map facts.now) (has_name old.now) self.old self.new rows.now gone) }
    {
        let gone = self.node.forget(alloc, program, rows, old, facts)?;
        Ok(gone)
    }

    /// What it counts or gathers of forgotten facts beside rows before it that name none, under this owner, in the order of the rows, over
    /// shared candidates, where some are given, and else over its own. Where its pattern binds a fact that is nothing.
    pub(crate) fn extras<F: Facts>(
        &self,
        alloc: Global,
        shared: Option<&Candidates>,
        owner: Owner,
        facts: &F,
    ) -> Result<Vec<Extra>, NoMemory>
        ensures { IfOk result (λ extras. (m : Option Member) (p : ProgramData) (s : Snapshot) (rows : RowData → Bool) (forgotten : NamedData → Bool)
            → HaveDistinctTags s.facts → HasAllOf (F.map facts.now) s forgotten → NameHeld s rows
            → NodeStands p (lent_to (option_map (λ c. c.now) shared.entry) (showing m self.now).node) (F.map facts.now) s rows forgotten
            → AreExtrasBeside p (condition_of self.now.node) s rows forgotten owner.rule owner.condition extras.items) }
    {
        if join_pattern(&self.node).is_some() {
            return Ok(Vec::new(alloc));
        }
        let extras = self
            .node
            .extras(alloc, shared, owner.rule, owner.condition, facts)?;
        Ok(extras)
    }

    /// The moment of the clock, in milliseconds, from which something is due in the node of the condition, whatever candidates are lent to
    /// it: until then a move of the clock alone, which changes neither these nor the rows before it, changes nothing. Takes no memory.
    pub(crate) fn quiet_until(&self, program: &Program) -> Option<i128>
        ensures quiet { IsQuiet program.now self.now.node result }
        ensures lent { (own : CandidatesData) → IsQuiet program.now (with_candidates own self.now.node) result }
    {
        self.node.quiet_until(program)
    }

    /// The least moment, in milliseconds, for which a row of a `not` waits: it comes where the floor of the entry point is above. Takes
    /// no memory.
    pub(crate) fn waits_up_to(&self) -> Option<i128>
        ensures { (floor : ℤ) → IsFrom floor result → IsStillAt self.now.node floor }
    {
        match &self.node {
            Node::Not(waiting) => waiting.next_moment(),
            Node::Join(_) => None,
            Node::Exists(_) => None,
            Node::Fold(_) => None,
        }
    }
}

// Whether the node is that of a `not`.
fn is_not(node: &Node) -> bool
    ensures { result ≡ is_negated (condition_of node.now) }
{
    match node {
        Node::Not(_) => true,
        Node::Join(_) => false,
        Node::Exists(_) => false,
        Node::Fold(_) => false,
    }
}

// The pattern of a node that binds a fact.
fn join_pattern(node: &Node) -> Option<&Pattern>
    ensures some { IfSome result (λ q. condition_of node.now ≡ Plain q.now) }
    ensures none { IsNone result → (m : Member) → with_member m node.now ≡ node.now }
{
    match node {
        Node::Join(join) => Some(join.pattern()),
        Node::Not(_) => None,
        Node::Exists(_) => None,
        Node::Fold(_) => None,
    }
}
