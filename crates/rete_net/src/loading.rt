ghost use Rattle.std.specs.Prelude.{◌≡◌, Bool, true, false, List, Option, Some, IfOk, IsErrOf, OnOk};
ghost use Rattle.std.specs.List.{filter};
ghost use Rattle.fx_base.specs.Lists.{In};
ghost use Rattle.fx_base.specs.declared.fact.Fact.{Fact as FactData};
ghost use Rattle.row_delta.specs.declared.extra.Extra.{Extra as ExtraData};
ghost use Rattle.row_delta.specs.declared.row.Named.{Named as NamedData};
ghost use Rattle.row_delta.specs.declared.row.Row.{Row as RowData};
ghost use Rattle.row_delta.specs.Rows.{has, InOrder};
ghost use Rattle.row_change.specs.Changes.{IsDifference};
ghost use Rattle.rule_model.specs.Lent.{lent};
ghost use Rattle.rule_model.specs.Moments.{IsAt};
ghost use Rattle.rule_model.specs.Rows.{pattern_of};
ghost use Rattle.rule_model.specs.Snapshots.{Snapshot};
ghost use Rattle.join_tests.specs.Joins.{Look};
ghost use Rattle.join_memory.specs.declared.candidates.Candidates.{Candidates as CandidatesData};
ghost use Rattle.join_memory.specs.Standing.{no_names, no_rows};
ghost use Rattle.counting_node.specs.Extras.{extra_for};
ghost use Rattle.condition_rows.specs.Looks.{empty_snapshot};
ghost use Rattle.candidate_source.specs.declared.source.Source.{Source as SourceData};
ghost use Rattle.candidate_source.specs.Sources.{source_at};
ghost use Rattle.beta_node.specs.Lending.{with_candidates, NodeHas};
ghost use Rattle.beta_node.specs.Loading.{IsLoad, Laden, node_rows};
ghost use Rattle.beta_node.specs.Nodes.{condition_of, NodeStands};
ghost use Rattle.rete_net.specs.Indexes.{type_of};
ghost use Rattle.rete_net.specs.Lending.{AreLentAs, IsFoundAnew};
ghost use Rattle.rete_net.specs.Loads.{is_fact_of_type, HasLoaded, MayLoad, NodeLoad, TurnLoads};

use crate::load::LoadFault;
use crate::node::NetNode;
use crate::pieces::have_rows;
use candidate_source::{Source, Sources};
use fx_base::{Fact, Facts, NoMemory};
use join_memory::{Candidates, names_alone};
use pattern_gate::PatternGate;
use row_delta::{Delta, Extra, Row};
use rule_model::{Moment, Program};
use std::alloc::Global;

/// What a node that keeps nothing is loaded with: the rows before it, the facts of its type, its extras, and the moment.
#[derive(Clone, Copy)]
pub(crate) struct Given<'r, 't, 'f, 'e, 'm> {
    pub(crate) rows: &'r [Row],
    pub(crate) theirs: &'t [&'f Fact],
    pub(crate) extras: &'e [Extra],
    pub(crate) moment: &'m Moment<'m>,
}

impl NetNode {
    /// Takes the rows before it, which are in order, the facts of its type and what is counted beside these rows, in their order, into a node that
    /// keeps nothing, and answers the rows of its condition as they come. `NoRow`: exactly where the row of an extra is none of these.
    pub(crate) fn load<F: Facts>(
        &mut self,
        alloc: Global,
        program: &Program,
        rows: &[Row],
        theirs: &[&Fact],
        extras: &[Extra],
        moment: &Moment,
        facts: &F,
    ) -> Result<Delta, LoadFault>
        ensures parent { OnOk result (self.new.parent ≡ self.old.parent) }
        ensures condition { OnOk result (condition_of self.new.node ≡ condition_of self.old.node) }
        ensures loads { IfOk result (λ delta. (kept : List FactData) → lent theirs.now ≡ filter (is_fact_of_type (type_of self.old)) kept → NodeLoad program.now (F.map facts.now) kept extras.now moment.now self.old self.new rows.now delta) }
        ensures there { OnOk result (InOrder rows.now → (e : ExtraData) → In e extras.now → has rows.now e.row ≡ true) }
        ensures no_row { IsErrOf result LoadFault.NoRow → InOrder rows.now → (e : ExtraData) × In e extras.now × (has rows.now e.row ≡ false) }
    {
        if !have_rows(extras, rows) {
            return Err(LoadFault::NoRow);
        }
        let (gate, come) = PatternGate::load(alloc, self.node.pattern(), theirs, moment.clock)?;
        let candidates = names_alone(alloc, come.come.as_slice())?;
        let delta = self
            .node
            .load(alloc, program, rows, &candidates, extras, moment, facts)?;
        self.gate = gate;
        Ok(delta)
    }

    /// Is loaded as the node in a place without a seat: with what its source has, if it is of one.
    pub(crate) fn load_alone<F: Facts>(
        &mut self,
        alloc: Global,
        program: &Program,
        sources: &mut Sources,
        place: usize,
        given: &Given,
        facts: &F,
    ) -> Result<Delta, LoadFault>
        ensures parent { OnOk result (self.new.parent ≡ self.old.parent) }
        ensures condition { OnOk result (condition_of self.new.node ≡ condition_of self.old.node) }
        ensures sources { OnOk result (AreLentAs place sources.old sources.new) }
        ensures loads { IfOk result (λ delta. (was : Option SourceData) (kept : List FactData) → lent given.now.theirs.now ≡ filter (is_fact_of_type (type_of self.old)) kept
            → MayLoad kept given.now.moment.now.clock (F.map facts.now) was (source_at sources.old place) (pattern_of (condition_of self.old.node))
            → TurnLoads program.now (F.map facts.now) kept given.now.extras.now given.now.moment.now was (source_at sources.new place) place self.old self.new given.now.rows.now delta) }
        ensures there { OnOk result (InOrder given.now.rows.now → (e : ExtraData) → In e given.now.extras.now → has given.now.rows.now e.row ≡ true) }
        ensures no_row { IsErrOf result LoadFault.NoRow → InOrder given.now.rows.now → (e : ExtraData) × In e given.now.extras.now × (has given.now.rows.now e.row ≡ false) }
    {
        match sources.lend(place) {
            Some(source) => {
                let delta = self.load_lent(alloc, program, source, place, given, facts)?;
                Ok(delta)
            }
            None => {
                let delta = self.load(
                    alloc,
                    program,
                    given.rows,
                    given.theirs,
                    given.extras,
                    given.moment,
                    facts,
                )?;
                Ok(delta)
            }
        }
    }

    /// Is loaded as the node in a place, with the candidates of its source, which has been loaded.
    pub(crate) fn load_lent<F: Facts>(
        &mut self,
        alloc: Global,
        program: &Program,
        source: &mut Source,
        place: usize,
        given: &Given,
        facts: &F,
    ) -> Result<Delta, LoadFault>
        ensures parent { OnOk result (self.new.parent ≡ self.old.parent) }
        ensures condition { OnOk result (condition_of self.new.node ≡ condition_of self.old.node) }
        ensures anew { OnOk result (IsFoundAnew self.new.node (F.map facts.now) place given.now.rows.now source.old source.new) }
        ensures loads { IfOk result (λ delta. (was : SourceData) (kept : List FactData) → HasLoaded kept given.now.moment.now.clock (F.map facts.now) source.old (pattern_of (condition_of self.old.node))
            → TurnLoads program.now (F.map facts.now) kept given.now.extras.now given.now.moment.now (Some was) (Some source.new) place self.old self.new given.now.rows.now delta) }
        ensures there { OnOk result (InOrder given.now.rows.now → (e : ExtraData) → In e given.now.extras.now → has given.now.rows.now e.row ≡ true) }
        ensures no_row { IsErrOf result LoadFault.NoRow → InOrder given.now.rows.now → (e : ExtraData) × In e given.now.extras.now × (has given.now.rows.now e.row ≡ false) }
    {
        if !have_rows(given.extras, given.rows) {
            return Err(LoadFault::NoRow);
        }
        let delta = self.fill_lent(alloc, program, source.candidates(), given, facts)?;
        self.find_anew(alloc, source, place, &[], given.rows, facts)?;
        Ok(delta)
    }

    // Takes the rows before it and what is counted beside them, with candidates that are lent and have been loaded, and gives these back.
    fn fill_lent<F: Facts>(
        &mut self,
        alloc: Global,
        program: &Program,
        own: &mut Candidates,
        given: &Given,
        facts: &F,
    ) -> Result<Delta, NoMemory>
        ensures own { OnOk result (own.new ≡ own.old) }
        ensures parent { OnOk result (self.new.parent ≡ self.old.parent) }
        ensures condition { OnOk result (condition_of self.new.node ≡ condition_of self.old.node) }
        ensures laden { OnOk result ((was : CandidatesData) (right : List NamedData) → NodeHas (with_candidates own.old self.old.node) (F.map facts.now) right
            → (world : Look) (s : Snapshot) (before : RowData → Bool) → NodeStands program.now (with_candidates was self.old.node) (F.map facts.now) empty_snapshot no_rows no_names → IsAt s given.now.moment.now
            → IsLoad program.now (condition_of self.old.node) (F.map facts.now) world s before given.now.rows.now right given.now.extras.now
            → Laden program.now (with_candidates own.new self.new.node) (F.map facts.now) world s before (extra_for given.now.extras.now)) }
        ensures difference { IfOk result (λ delta. (was : CandidatesData) (right : List NamedData) → NodeHas (with_candidates own.old self.old.node) (F.map facts.now) right
            → NodeStands program.now (with_candidates was self.old.node) (F.map facts.now) empty_snapshot no_rows no_names
            → IsDifference (node_rows program.now (F.map facts.now) (with_candidates was self.old.node)) (node_rows program.now (F.map facts.now) (with_candidates own.new self.new.node)) delta) }
    {
        self.node.exchange_right(own);
        let delta = self.node.load_turned(
            alloc,
            program,
            given.rows,
            given.extras,
            given.moment,
            facts,
        )?;
        self.node.exchange_right(own);
        Ok(delta)
    }
}
