ghost use Rattle.std.specs.Prelude.{◌≡◌, ◌↔◌, ◌<◌, ◌≤ℤ◌, ◌^◌, ℕ, Bool, List, [], length, Some, slice_get, option_map, IfOk, OnOk, IsTrue};
ghost use Rattle.fx_base.specs.Lists.{In};
ghost use Rattle.rule_model.specs.declared.condition.Condition.{Condition};
ghost use Rattle.rule_model.specs.declared.program.Program.{Program as ProgramData};
ghost use Rattle.rule_model.specs.declared.program.Rule.{Rule};
ghost use Rattle.row_delta.specs.declared.row.Named.{Named as NamedData};
ghost use Rattle.row_delta.specs.declared.row.Row.{Row as RowData};
ghost use Rattle.rule_model.specs.Lent.{lent};
ghost use Rattle.rule_model.specs.Moments.{IsAt};
ghost use Rattle.rule_model.specs.Rows.{rows};
ghost use Rattle.rule_model.specs.Snapshots.{Snapshot};
ghost use Rattle.rule_world.specs.Programs.{IsRunnable};
ghost use Rattle.join_memory.specs.Joined.{has_name};
ghost use Rattle.join_memory.specs.Standing.{cleaned, either};
ghost use Rattle.condition_rows.specs.Looks.{empty_snapshot, HasAllOf};
ghost use Rattle.condition_rows.specs.Sets.{rows_of};
ghost use Rattle.pattern_gate.specs.Moves.{IsOrderly, MovesSnapshot, at_clock};
ghost use Rattle.candidate_source.specs.declared.source.Source.{Source as SourceData};
ghost use Rattle.candidate_source.specs.Doors.{source_pattern};
ghost use Rattle.candidate_source.specs.Sources.{source_at, IsNewSource};
ghost use Rattle.beta_node.specs.Quiet.{IsBefore};
ghost use Rattle.rete_net.specs.declared.changes.RuleChange.{RuleChange as RuleChangeData};
ghost use Rattle.rete_net.specs.Doors.{IsNetwork, node_count, quiet_time, rule_count};
ghost use Rattle.rete_net.specs.Dropped.{AreDropped, AreListed, HaveForgotten};
ghost use Rattle.rete_net.specs.Fans.{AreFans, IsLaidAs, shown_nodes};
ghost use Rattle.rete_net.specs.Sources.{AreSources};
ghost use Rattle.rete_net.specs.Forgetting.{AreNotNeeded};
ghost use Rattle.rete_net.specs.Indexes.{IsIndexOf};
ghost use Rattle.rete_net.specs.Nets.{NetStands, clean_rows, AreBetween};
ghost use Rattle.rete_net.specs.Building.{AreBuilt, AreDistinctFronts, AreFronts, HaveEnds};
ghost use Rattle.rete_net.specs.Owners.{AreOwnedSoFar};
ghost use Rattle.rete_net.specs.Quiet.{AreQuiet};
ghost use Rattle.rete_net.specs.Schedules.{AreScheduled};
ghost use Rattle.rete_net.specs.Shapes.{CountsFronts};
ghost use Rattle.rete_net.specs.Steps.{NetStep};
ghost use Rattle.candidate_source.specs.Sources.{source_at, AreApart, AreLaidAs};
ghost use Rattle.rete_net.specs.Walks.{HasAnswered, IsReplaced, IsWired};

use crate::answered::Answered;
use crate::build::{Builder, NoFacts, Owner, empty_row_comes, no_change};
use crate::changes::{RuleChange, changes_of, rule_in};
use crate::due::{first_below, put_reached};
use crate::fans::Fans;
use crate::forgetting::{RuleRows, put_dropped, rows_of_rules, with_old};
use crate::index::Index;
use crate::membership::{Happening, Loss};
use crate::node::NetNode;
use crate::quiet::is_before;
use crate::schedule::Schedule;
use crate::sourcing::sources_of;
use crate::steps::put_delta;
use candidate_source::Sources;
use fx_base::{Fact, Facts, Millis, NoMemory, Seq};
use row_delta::{Delta, Named, Row};
use rule_model::{Moment, Program};
use std::alloc::Global;

/// The network of a program: its nodes, each behind its parent, the last node of each rule by the rule's place, by what nodes and
/// rules are found, the moments at which time alone may change a node, and the moment of the clock, in milliseconds, from which
/// something is due in a gate or a node. Until then a move of the clock alone changes nothing; without such a moment it never does. After a call that was refused memory it is to be given up.
#[derive(Drop)]
pub struct Rete {
    pub(crate) nodes: Vec<NetNode>,
    pub(crate) ends: Vec<usize>,
    pub(crate) owners: Vec<Owner>,
    pub(crate) index: Index,
    pub(crate) fans: Fans,
    pub(crate) sources: Sources,
    pub(crate) schedule: Schedule,
    pub(crate) quiet_until: Option<i128>,
}

impl Rete {
    /// The network of a program over no facts at the clock 0, and of the rules that have rows there, in their order, these rows as
    /// they come. Rules whose first conditions are equal share the nodes of these: there is a node for each distinct front. It copies the
    /// conditions, and for each of them it looks at the nodes that are there.
    pub fn build(alloc: Global, program: &Program) -> Result<(Rete, Vec<RuleChange>), NoMemory>
        ensures stands { IsRunnable program.now → IfOk result (λ built. (forgotten : NamedData → Bool) → NetStands program.now built.0 empty_snapshot forgotten) }
        ensures net { IsRunnable program.now → IfOk result (λ built. IsNetwork program.now built.0) }
        ensures first { IsRunnable program.now → IfOk result (λ built. AreBetween program.now (λ rule. []) (λ rule. rows program.now empty_snapshot rule.conditions) built.1.items) }
    {
        let mut net = Rete::of_rules(alloc, program)?;
        let first = empty_row_comes(alloc)?;
        let start = Moment {
            clock: 0,
            last_starts: &[],
            promises: &[],
        };
        let changes = net.step(alloc, program, &first, &[], None, &start, &NoFacts)?;
        Ok((net, changes))
    }

    /// Takes the facts that go and the one that comes, if one does, and the moment, and answers of the rules
    /// whose rows change, in their order, what has changed in them, but for rows that name a forgotten fact; no rule may need one.
    /// `facts` has those that stay and are not forgotten, those that go and the one that comes. Of the nodes whose candidates are of the
    /// types of these facts it asks those that no constant tells apart, and, by a hash for each field by which some are, those with what the
    /// fact has in it, at the cost of the constant tests of each. It takes those with a window or a `not` in which something is due; and
    /// behind each node that answers a change it takes the children that keep rows of their own, and of those that share them the ones for
    /// which something changes. What no such way leads to costs nothing: neither another node nor its
    /// rules, and what is due next costs a look for each entry point. The others cost what their gates and nodes say, the logarithm of their
    /// number, and a change is copied once for each rule that has it.
    pub fn advance<F: Facts>(
        &mut self,
        alloc: Global,
        program: &Program,
        gone: &[&Fact],
        come: Option<&Fact>,
        moment: &Moment,
        facts: &F,
    ) -> Result<Vec<RuleChange>, NoMemory>
        ensures stands { OnOk result ((s next : Snapshot) (forgotten : NamedData → Bool) → IsRunnable program.now → NetStands program.now self.old s forgotten
            → MovesSnapshot program.now s next (lent gone.now) (option_map (λ f. f.now) come.entry) → IsAt next moment.now
            → AreNotNeeded program.now forgotten s next (lent gone.now) (option_map (λ f. f.now) come.entry)
            → HasAllOf (F.map facts.now) s forgotten → HasAllOf (F.map facts.now) next forgotten
            → NetStands program.now self.new next forgotten) }
        ensures differences { IfOk result (λ changes. (s next : Snapshot) (forgotten : NamedData → Bool) → IsRunnable program.now → NetStands program.now self.old s forgotten
            → MovesSnapshot program.now s next (lent gone.now) (option_map (λ f. f.now) come.entry) → IsAt next moment.now
            → AreNotNeeded program.now forgotten s next (lent gone.now) (option_map (λ f. f.now) come.entry)
            → HasAllOf (F.map facts.now) s forgotten → HasAllOf (F.map facts.now) next forgotten
            → AreBetween program.now (clean_rows program.now s forgotten) (clean_rows program.now next forgotten) changes.items) }
        // Whatever the network stands for: it stays that of its program, and the rules that are answered are the program's.
        ensures net { (p : ProgramData) → IsNetwork p self.old → OnOk result (IsNetwork p self.new) }
        ensures rules { rule_count self.old < 2 ^ 16 → IfOk result (λ changes. (c : RuleChangeData) → In c changes.items → c.rule.0 < rule_count self.old) }
    {
        let none = no_change(alloc);
        let changes = self.step(alloc, program, &none, gone, come, moment, facts)?;
        Ok(changes)
    }

    /// How many nodes there are: one for each distinct front of the rules' conditions. Takes no memory.
    pub fn nodes(&self) -> usize
        ensures number { result ≡ node_count self.now }
        ensures fronts { (p : ProgramData) → IsNetwork p self.now → CountsFronts p result }
    {
        self.nodes.len()
    }

    /// Whether a move of the clock to this moment, in milliseconds, changes nothing where no fact goes or comes. Takes no memory.
    pub fn is_quiet(&self, clock: Millis) -> bool
        ensures exact { IsTrue result ↔ IsBefore (quiet_time self.now) clock }
        ensures stands { IsTrue result → (p : ProgramData) (s : Snapshot) (forgotten : NamedData → Bool) → NetStands p self.now s forgotten → s.clock ≤ℤ clock → IsOrderly p (at_clock s clock)
            → NetStands p self.now (at_clock s clock) forgotten }
        ensures rows { IsTrue result → (p : ProgramData) (s : Snapshot) (forgotten : NamedData → Bool) → NetStands p self.now s forgotten → s.clock ≤ℤ clock → IsOrderly p (at_clock s clock)
            → (place : ℕ) (rule : Rule) → slice_get p.rules place ≡ Some rule
            → (row : RowData) → cleaned (rows_of p (at_clock s clock) rule.conditions) forgotten row ≡ cleaned (rows_of p s rule.conditions) forgotten row }
    {
        is_before(clock, self.quiet_until)
    }

    /// Drops these old facts from what the nodes keep, and answers for each rule of which rows go with them those rows, in order, and
    /// the rules in their order. What nodes count or gather beside rows that stay is left as it is, old facts included, and `facts`
    /// still has them. It takes the nodes whose candidates are of the types of these facts, and those behind a node that drops rows. These
    /// cost what a step costs in which these rows and candidates go, and a copy of the rows that are answered; the others nothing.
    pub fn forget<F: Facts>(
        &mut self,
        alloc: Global,
        program: &Program,
        old: &[Named],
        facts: &F,
    ) -> Result<Vec<RuleRows>, NoMemory>
        ensures stands { OnOk result ((s : Snapshot) (forgotten : NamedData → Bool) → NetStands program.now self.old s forgotten → HasAllOf (F.map facts.now) s forgotten
            → NetStands program.now self.new s (either forgotten (has_name old.now))) }
        ensures dropped { IfOk result (λ answers. (s : Snapshot) (forgotten : NamedData → Bool) → NetStands program.now self.old s forgotten → HasAllOf (F.map facts.now) s forgotten
            → AreDropped program.now s forgotten (has_name old.now) answers.items) }
        ensures listed { IfOk result (λ answers. AreListed answers.items (rule_count self.old)) }
        ensures net { (p : ProgramData) → IsNetwork p self.old → OnOk result (IsNetwork p self.new) }
    {
        let dropped = self.forget_nodes(alloc, program, old, facts)?;
        let answers = rows_of_rules(alloc, &dropped, &self.ends)?;
        Ok(answers)
    }

    /// The nodes of all rules, which keep nothing.
    pub(crate) fn of_rules(alloc: Global, program: &Program) -> Result<Rete, NoMemory>
        ensures indexed { IfOk result (λ net. IsIndexOf net.sources (shown_nodes net) net.ends.items net.index) }
        ensures fans { IfOk result (λ net. AreFans net.nodes.items net.fans) }
        ensures sources { IfOk result (λ net. AreSources net.nodes.items net.fans net.sources) }
        ensures new_sources { IfOk result (λ net. (k : ℕ) (s : SourceData) → source_at net.sources k ≡ Some s → IsNewSource (source_pattern s) s) }
        ensures scheduled { IfOk result (λ net. AreScheduled program.now net.sources net.nodes.items net.schedule) }
        ensures count { IfOk result (λ net. length net.ends.items ≡ length program.now.rules) }
        ensures built { IfOk result (λ net. IsRunnable program.now → (all : List (List Condition)) × AreBuilt program.now (shown_nodes net) all × HaveEnds all net.ends.items program.now.rules (length program.now.rules)
            × AreFronts program.now all × AreDistinctFronts all × (length net.ends.items ≡ length program.now.rules)
            × AreOwnedSoFar program.now all net.owners.items (length program.now.rules) [] 0) }
    {
        let mut builder = Builder::new(alloc);
        let mut ends = Vec::with_capacity(alloc, program.rules.as_slice().len())?;
        for rule in program.rules.as_slice() {
            let last = builder.put_chain(alloc, program, rule, rule_in(ends.len()))?;
            ends.push(last.unwrap_or(0))?;
        }
        let fans = Fans::of(alloc, &builder.nodes)?;
        let sources = sources_of(alloc, &builder.nodes, &fans)?;
        let index = Index::of(alloc, &builder.nodes, &ends, &sources)?;
        let schedule = Schedule::of(alloc, program, &builder.nodes, &sources)?;
        Ok(Rete {
            nodes: builder.nodes,
            ends,
            owners: builder.owners,
            index,
            fans,
            sources,
            schedule,
            quiet_until: None,
        })
    }

    /// Lets the nodes that have something old drop it, each after its parent, and answers what they drop.
    fn forget_nodes<'h, F: Facts>(
        &mut self,
        alloc: Global,
        program: &'h Program,
        old: &'h [Named],
        facts: &F,
    ) -> Result<Answered<Seq<Row>>, NoMemory>
        ensures ends { OnOk result (self.new.ends ≡ self.old.ends) }
        ensures owners { OnOk result (self.new.owners ≡ self.old.owners) }
        ensures index { OnOk result (self.new.index ≡ self.old.index) }
        ensures quiet { OnOk result (self.new.quiet_until ≡ self.old.quiet_until) }
        ensures replaced { OnOk result (IsReplaced self.old.nodes.items self.new.nodes.items) }
        ensures sourced { OnOk result (AreLaidAs self.old.sources self.new.sources) }
        ensures apart { OnOk result (AreApart self.old.sources → AreApart self.new.sources) }
        ensures scheduled { OnOk result (AreFans self.old.nodes.items self.old.fans → AreApart self.old.sources → AreScheduled program.now self.old.sources self.old.nodes.items self.old.schedule → AreScheduled program.now self.new.sources self.new.nodes.items self.new.schedule) }
        ensures laid { OnOk result (IsLaidAs self.old.fans self.new.fans) }
        ensures forgot { IfOk result (λ a. IsWired self.old.sources self.old.nodes.items self.old.ends.items self.old.index → AreFans self.old.nodes.items self.old.fans
            → AreSources self.old.nodes.items self.old.fans self.old.sources
            → HaveForgotten program.now (F.map facts.now) (has_name old.now) (source_at self.old.sources) (source_at self.new.sources) (shown_nodes self.old) (shown_nodes self.new) self.old.ends.items a) }
    {
        let mut due = with_old(alloc, &self.index, old, facts)?;
        self.sources.forget(alloc, old, facts, &mut due)?;
        let loss = Loss { program, old };
        let none = Seq::from_vec(Vec::new(alloc));
        let mut dropped = Answered::new(alloc, Seq::from_vec(Vec::new(alloc)));
        self.fans.begin(alloc);
        let mut next = 0;
        'walk: while let Some(place) = first_below(&due, next, self.nodes.len()) {
            let node = &mut self.nodes[place];
            let rows = dropped.left(&none, node.parent);
            let before = rows.as_slice();
            let gone = node.forget_in(
                alloc,
                &mut self.fans,
                &mut self.sources,
                place,
                before,
                &loss,
                facts,
            )?;
            self.schedule
                .put(alloc, program, place, node, &self.sources)?;
            let went = gone.as_slice();
            self.fans
                .turn_rows(alloc, &mut due, place, went, &[], facts)?;
            put_dropped(&mut dropped, &self.index, place, gone)?;
            next = place + 1;
        }
        Ok(dropped)
    }

    /// Lets the nodes that the step reaches take it, and answers what the last nodes of the rules answer. `first` comes to the nodes without a
    /// parent.
    fn step<F: Facts>(
        &mut self,
        alloc: Global,
        program: &Program,
        first: &Delta,
        gone: &[&Fact],
        come: Option<&Fact>,
        moment: &Moment,
        facts: &F,
    ) -> Result<Vec<RuleChange>, NoMemory>
        ensures ends { OnOk result (self.new.ends.items ≡ self.old.ends.items) }
        ensures owners { OnOk result (self.new.owners ≡ self.old.owners) }
        ensures quiet { OnOk result (AreFans self.old.nodes.items self.old.fans → AreSources self.old.nodes.items self.old.fans self.old.sources → AreScheduled program.now self.old.sources self.old.nodes.items self.old.schedule → AreQuiet program.now self.new.sources (shown_nodes self.new) self.new.quiet_until) }
        ensures scheduled { OnOk result (AreFans self.old.nodes.items self.old.fans → AreApart self.old.sources → AreScheduled program.now self.old.sources self.old.nodes.items self.old.schedule → AreScheduled program.now self.new.sources self.new.nodes.items self.new.schedule) }
        ensures replaced { OnOk result (IsReplaced self.old.nodes.items self.new.nodes.items) }
        ensures indexed { OnOk result (IsIndexOf self.old.sources (shown_nodes self.old) self.old.ends.items self.old.index → IsIndexOf self.new.sources (shown_nodes self.new) self.new.ends.items self.new.index) }
        ensures laid { OnOk result (IsLaidAs self.old.fans self.new.fans) }
        ensures sources { OnOk result (AreSources self.old.nodes.items self.old.fans self.old.sources → AreSources self.new.nodes.items self.new.fans self.new.sources) }
        ensures rules { length self.old.ends.items < 2 ^ 16 → IfOk result (λ changes. (c : RuleChangeData) → In c changes.items → c.rule.0 < length self.old.ends.items) }
        ensures stepped { IfOk result (λ changes. IsWired self.old.sources self.old.nodes.items self.old.ends.items self.old.index → AreScheduled program.now self.old.sources self.old.nodes.items self.old.schedule
            → AreFans self.old.nodes.items self.old.fans → AreSources self.old.nodes.items self.old.fans self.old.sources
            → NetStep program.now (F.map facts.now) (lent gone.now) (option_map (λ f. f.now) come.entry) moment.now first.now (source_at self.old.sources) (source_at self.new.sources) (shown_nodes self.old) (shown_nodes self.new) self.old.ends.items changes.items) }
    {
        let answered = self.walk(alloc, program, first, gone, come, moment, facts)?;
        self.quiet_until = self.schedule.first();
        let changes = changes_of(alloc, &answered, &self.ends)?;
        Ok(changes)
    }

    /// Lets the nodes that the step reaches take it, each after its parent, and answers what they answer. `first` comes to the nodes
    /// without a parent.
    fn walk<'h, F: Facts>(
        &mut self,
        alloc: Global,
        program: &'h Program,
        first: &Delta,
        gone: &'h [&'h Fact],
        come: Option<&'h Fact>,
        moment: &'h Moment<'h>,
        facts: &F,
    ) -> Result<Answered<Delta>, NoMemory>
        ensures ends { OnOk result (self.new.ends ≡ self.old.ends) }
        ensures owners { OnOk result (self.new.owners ≡ self.old.owners) }
        ensures index { OnOk result (self.new.index ≡ self.old.index) }
        ensures replaced { OnOk result (IsReplaced self.old.nodes.items self.new.nodes.items) }
        ensures sourced { OnOk result (AreLaidAs self.old.sources self.new.sources) }
        ensures apart { OnOk result (AreApart self.old.sources → AreApart self.new.sources) }
        ensures scheduled { OnOk result (AreFans self.old.nodes.items self.old.fans → AreApart self.old.sources → AreScheduled program.now self.old.sources self.old.nodes.items self.old.schedule → AreScheduled program.now self.new.sources self.new.nodes.items self.new.schedule) }
        ensures laid { OnOk result (IsLaidAs self.old.fans self.new.fans) }
        ensures answered { IfOk result (λ a. IsWired self.old.sources self.old.nodes.items self.old.ends.items self.old.index → AreScheduled program.now self.old.sources self.old.nodes.items self.old.schedule
            → AreFans self.old.nodes.items self.old.fans → AreSources self.old.nodes.items self.old.fans self.old.sources
            → HasAnswered program.now (F.map facts.now) (lent gone.now) (option_map (λ f. f.now) come.entry) moment.now first.now (source_at self.old.sources) (source_at self.new.sources) (shown_nodes self.old) (shown_nodes self.new) self.old.ends.items a) }
    {
        let mut due = self.schedule.due(alloc, program, moment)?;
        put_reached(&mut due, &self.nodes, &self.index, first, gone, come)?;
        self.sources
            .turn(alloc, program, gone, come, moment.clock, facts, &mut due)?;
        let mut answered = Answered::new(alloc, no_change(alloc));
        let happening = Happening {
            program,
            gone,
            come,
            moment,
        };
        self.fans.begin(alloc);
        let mut next = 0;
        'walk: while let Some(place) = first_below(&due, next, self.nodes.len()) {
            let node = &mut self.nodes[place];
            let left = answered.left(first, node.parent);
            let delta = node.advance_in(
                alloc,
                &mut self.fans,
                &mut self.sources,
                place,
                left,
                &happening,
                facts,
            )?;
            self.schedule
                .put(alloc, program, place, node, &self.sources)?;
            let went = delta.gone.as_slice();
            let came = delta.come.as_slice();
            self.fans
                .turn_rows(alloc, &mut due, place, went, came, facts)?;
            put_delta(&mut answered, &self.index, place, delta)?;
            next = place + 1;
        }
        Ok(answered)
    }
}
