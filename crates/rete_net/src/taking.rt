//! Nodes of a source take their turns with its candidates.
ghost use Rattle.std.specs.Prelude.{◌≡◌, not, Bool, true, List, [], Option, Some, option_map, IfOk, OnOk};
ghost use Rattle.fx_base.specs.declared.value.Value.{Value as ValueData};
ghost use Rattle.row_delta.specs.declared.delta.Delta.{Delta as DeltaData};
ghost use Rattle.row_delta.specs.declared.row.Named.{Named as NamedData};
ghost use Rattle.row_delta.specs.declared.row.Row.{Row as RowData};
ghost use Rattle.row_delta.specs.Rows.{has, InOrder};
ghost use Rattle.row_change.specs.Changes.{IsDifference};
ghost use Rattle.rule_model.specs.Lent.{lent};
ghost use Rattle.rule_model.specs.Moments.{IsAt};
ghost use Rattle.rule_model.specs.Snapshots.{Snapshot};
ghost use Rattle.join_tests.specs.Joins.{Look};
ghost use Rattle.join_memory.specs.declared.candidates.Candidates.{Candidates as CandidatesData};
ghost use Rattle.join_memory.specs.Standing.{clean, cleaned, either};
ghost use Rattle.join_memory.specs.Joined.{has_name};
ghost use Rattle.beta_node.specs.Forgetting.{ForgetsIn};
ghost use Rattle.rete_net.specs.Dropped.{TurnForgets};
ghost use Rattle.condition_rows.specs.Lines.{line};
ghost use Rattle.candidate_source.specs.declared.source.Source.{Source as SourceData};
ghost use Rattle.candidate_source.specs.Doors.{is_reached};
ghost use Rattle.beta_node.specs.Lending.{with_candidates, NodeForgoes, NodeTakes};
ghost use Rattle.beta_node.specs.Nodes.{condition_of, NodeStands};
ghost use Rattle.beta_node.specs.Turns.{IsConditionTurn};
ghost use Rattle.candidate_source.specs.Sources.{handed_come, handed_gone, source_at};
ghost use Rattle.rete_net.specs.Lending.{AreLentAs, IsFoundAnew, MayForget, MayForgetIn, MayTurn, TurnsAt};
ghost use Rattle.rete_net.specs.Sources.{IsSourced};
ghost use Rattle.rete_net.specs.Steps.{TurnStep};

use crate::membership::Happening;
use crate::node::NetNode;
use candidate_source::{Handed, Source, Sources};
use fx_base::{Facts, NoMemory, Seq};
use join_memory::Candidates;
use row_delta::{Delta, Named, Row};
use rule_model::Program;
use std::alloc::Global;

impl NetNode {
    /// Takes a step as the node in a place without a seat: with what its source hands to it, if it is of one.
    pub(crate) fn advance_alone<F: Facts>(
        &mut self,
        alloc: Global,
        sources: &mut Sources,
        place: usize,
        left: &Delta,
        happening: &Happening,
        facts: &F,
    ) -> Result<Delta, NoMemory>
        ensures parent { OnOk result (self.new.parent ≡ self.old.parent) }
        ensures condition { OnOk result (condition_of self.new.node ≡ condition_of self.old.node) }
        ensures sources { OnOk result (AreLentAs place sources.old sources.new) }
        ensures step { IfOk result (λ delta. (was : Option SourceData)
            → MayTurn happening.now.program.now (lent happening.now.gone.now) (option_map (λ f. f.now) happening.now.come) happening.now.moment.now.clock (F.map facts.now)
            was (source_at sources.old place) place self.old (handed_gone sources.old place) (handed_come sources.old place)
            → TurnStep happening.now.program.now (F.map facts.now) (lent happening.now.gone.now) (option_map (λ f. f.now) happening.now.come) happening.now.moment.now
            was (source_at sources.new place) place self.old self.new left.now delta) }
    {
        let handed = sources.take_handed(alloc, place);
        match sources.lend(place) {
            Some(source) => {
                let delta = self.advance_lent(
                    alloc, source, &handed, place, left, happening, facts,
                )?;
                Ok(delta)
            }
            None => {
                let delta = self.advance(
                    alloc,
                    happening.program,
                    left,
                    happening.gone,
                    happening.come,
                    happening.moment,
                    facts,
                )?;
                Ok(delta)
            }
        }
    }

    /// Takes a step as the node in a place, with the candidates of its source, which have turned, and of which these are handed to it.
    pub(crate) fn advance_lent<F: Facts>(
        &mut self,
        alloc: Global,
        source: &mut Source,
        handed: &Handed,
        place: usize,
        left: &Delta,
        happening: &Happening,
        facts: &F,
    ) -> Result<Delta, NoMemory>
        ensures parent { OnOk result (self.new.parent ≡ self.old.parent) }
        ensures condition { OnOk result (condition_of self.new.node ≡ condition_of self.old.node) }
        ensures anew { OnOk result (IsFoundAnew self.new.node (F.map facts.now) place left.now.come source.old source.new) }
        ensures step { IfOk result (λ delta. (was : SourceData) → IsSourced was self.old → ((value : ValueData) → is_reached source.old value place ≡ is_reached was value place)
            → TurnsAt happening.now.program.now (lent happening.now.gone.now) (option_map (λ f. f.now) happening.now.come) happening.now.moment.now.clock (F.map facts.now) was source.old place handed.now.gone.items handed.now.come.items
            → TurnStep happening.now.program.now (F.map facts.now) (lent happening.now.gone.now) (option_map (λ f. f.now) happening.now.come) happening.now.moment.now
            (Some was) (Some source.new) place self.old self.new left.now delta) }
    {
        let delta = self.turn_lent(alloc, source.candidates(), handed, left, happening, facts)?;
        let went = left.gone.as_slice();
        let came = left.come.as_slice();
        self.find_anew(alloc, source, place, went, came, facts)?;
        Ok(delta)
    }

    // Takes a step with candidates that are lent and have turned, of which these are handed to it, and gives them back.
    fn turn_lent<F: Facts>(
        &mut self,
        alloc: Global,
        own: &mut Candidates,
        handed: &Handed,
        left: &Delta,
        happening: &Happening,
        facts: &F,
    ) -> Result<Delta, NoMemory>
        ensures own { OnOk result (own.new ≡ own.old) }
        ensures parent { OnOk result (self.new.parent ≡ self.old.parent) }
        ensures condition { OnOk result (condition_of self.new.node ≡ condition_of self.old.node) }
        ensures stands { OnOk result ((was : CandidatesData) (right : DeltaData) → NodeTakes (with_candidates own.old self.old.node) was (F.map facts.now) right handed.now.gone.items handed.now.come.items
            → (world : Look) (s next : Snapshot) (rows rows_now : RowData → Bool) (forgotten : NamedData → Bool)
            → NodeStands happening.now.program.now (with_candidates was self.old.node) (F.map facts.now) s rows forgotten → IsAt next happening.now.moment.now
            → IsConditionTurn happening.now.program.now (condition_of self.old.node) (F.map facts.now) world s next rows rows_now forgotten left.now right
            → NodeStands happening.now.program.now (with_candidates own.new self.new.node) (F.map facts.now) next rows_now forgotten) }
        ensures difference { IfOk result (λ delta. (was : CandidatesData) (right : DeltaData) → NodeTakes (with_candidates own.old self.old.node) was (F.map facts.now) right handed.now.gone.items handed.now.come.items
            → (world : Look) (s next : Snapshot) (rows rows_now : RowData → Bool) (forgotten : NamedData → Bool)
            → NodeStands happening.now.program.now (with_candidates was self.old.node) (F.map facts.now) s rows forgotten → IsAt next happening.now.moment.now
            → IsConditionTurn happening.now.program.now (condition_of self.old.node) (F.map facts.now) world s next rows rows_now forgotten left.now right
            → IsDifference (cleaned (line happening.now.program.now s (condition_of self.old.node) rows) forgotten) (cleaned (line happening.now.program.now next (condition_of self.old.node) rows_now) forgotten) delta) }
    {
        self.node.exchange_right(own);
        let delta = self.node.advance_turned(
            alloc,
            happening.program,
            left,
            &handed.gone,
            &handed.come,
            happening.moment,
            facts,
        )?;
        self.node.exchange_right(own);
        Ok(delta)
    }

    /// Forgets as the node in a place without a seat: with what its source hands to it, if it is of one.
    pub(crate) fn forget_alone<F: Facts>(
        &mut self,
        alloc: Global,
        program: &Program,
        sources: &mut Sources,
        place: usize,
        rows: &[Row],
        old: &[Named],
        facts: &F,
    ) -> Result<Seq<Row>, NoMemory>
        ensures parent { OnOk result (self.new.parent ≡ self.old.parent) }
        ensures condition { OnOk result (condition_of self.new.node ≡ condition_of self.old.node) }
        ensures sources { OnOk result (AreLentAs place sources.old sources.new) }
        ensures forgets { IfOk result (λ gone. (was : Option SourceData)
            → MayForget program.now (F.map facts.now) old.now was (source_at sources.old place) place self.old (handed_gone sources.old place)
            → TurnForgets program.now (F.map facts.now) (has_name old.now) was (source_at sources.new place) place self.old self.new rows.now gone) }
    {
        let handed = sources.take_handed(alloc, place);
        match sources.lend(place) {
            Some(source) => {
                let gone = self.forget_lent(alloc, program, source, &handed, place, rows, facts)?;
                Ok(gone)
            }
            None => {
                let gone = self.forget(alloc, program, rows, old, facts)?;
                Ok(gone)
            }
        }
    }

    /// Forgets as the node in a place, with the candidates of its source, from which the old ones were dropped, and of which these are handed
    /// to it.
    pub(crate) fn forget_lent<F: Facts>(
        &mut self,
        alloc: Global,
        program: &Program,
        source: &mut Source,
        handed: &Handed,
        place: usize,
        rows: &[Row],
        facts: &F,
    ) -> Result<Seq<Row>, NoMemory>
        ensures parent { OnOk result (self.new.parent ≡ self.old.parent) }
        ensures condition { OnOk result (condition_of self.new.node ≡ condition_of self.old.node) }
        ensures anew { OnOk result (IsFoundAnew self.new.node (F.map facts.now) place [] source.old source.new) }
        ensures forgets { IfOk result (λ gone. (was : SourceData) (old : List NamedData) → MayForgetIn program.now (F.map facts.now) old was source.old place self.old handed.now.gone.items
            → TurnForgets program.now (F.map facts.now) (has_name old) (Some was) (Some source.new) place self.old self.new rows.now gone) }
    {
        let gone = self.drop_lent(alloc, program, source.candidates(), handed, rows, facts)?;
        self.find_anew(alloc, source, place, rows, &[], facts)?;
        Ok(gone)
    }

    // Forgets with candidates that are lent, from which the old ones were dropped, and gives them back.
    fn drop_lent<F: Facts>(
        &mut self,
        alloc: Global,
        program: &Program,
        own: &mut Candidates,
        handed: &Handed,
        rows: &[Row],
        facts: &F,
    ) -> Result<Seq<Row>, NoMemory>
        ensures own { OnOk result (own.new ≡ own.old) }
        ensures parent { OnOk result (self.new.parent ≡ self.old.parent) }
        ensures condition { OnOk result (condition_of self.new.node ≡ condition_of self.old.node) }
        ensures stands { OnOk result ((was : CandidatesData) (old : NamedData → Bool) → NodeForgoes (with_candidates own.old self.old.node) was (F.map facts.now) old handed.now.gone.items
            → (s : Snapshot) (left : RowData → Bool) (forgotten : NamedData → Bool) → ForgetsIn program.now (with_candidates was (with_candidates own.old self.old.node)) (F.map facts.now) s left forgotten old rows.now
            → NodeStands program.now (with_candidates own.new self.new.node) (F.map facts.now) s left (either forgotten old)) }
        ensures dropped { IfOk result (λ gone. (was : CandidatesData) (old : NamedData → Bool) → NodeForgoes (with_candidates own.old self.old.node) was (F.map facts.now) old handed.now.gone.items
            → (s : Snapshot) (left : RowData → Bool) (forgotten : NamedData → Bool) → ForgetsIn program.now (with_candidates was (with_candidates own.old self.old.node)) (F.map facts.now) s left forgotten old rows.now
            → (row : RowData) → cleaned (line program.now s (condition_of (with_candidates own.old self.old.node)) left) forgotten row ≡ true → has gone row ≡ not (clean old row)) }
        ensures dropped_alone { IfOk result (λ gone. (was : CandidatesData) (old : NamedData → Bool) → NodeForgoes (with_candidates own.old self.old.node) was (F.map facts.now) old handed.now.gone.items
            → (s : Snapshot) (left : RowData → Bool) (forgotten : NamedData → Bool) → ForgetsIn program.now (with_candidates was (with_candidates own.old self.old.node)) (F.map facts.now) s left forgotten old rows.now
            → (row : RowData) → has gone row ≡ true → cleaned (line program.now s (condition_of (with_candidates own.old self.old.node)) left) forgotten row ≡ true) }
        ensures in_order { IfOk result (λ gone. (was : CandidatesData) (old : NamedData → Bool) → NodeForgoes (with_candidates own.old self.old.node) was (F.map facts.now) old handed.now.gone.items
            → (s : Snapshot) (left : RowData → Bool) (forgotten : NamedData → Bool) → ForgetsIn program.now (with_candidates was (with_candidates own.old self.old.node)) (F.map facts.now) s left forgotten old rows.now → InOrder gone) }
    {
        self.node.exchange_right(own);
        let gone = self
            .node
            .forget_turned(alloc, program, rows, &handed.gone, facts)?;
        self.node.exchange_right(own);
        Ok(gone)
    }

    /// It is found in its source under the values of rows that came, and no more under those of rows that went, where it keeps none under
    /// them. It costs a hash or two for each row.
    pub(crate) fn find_anew<F: Facts>(
        &self,
        alloc: Global,
        source: &mut Source,
        place: usize,
        went: &[Row],
        came: &[Row],
        facts: &F,
    ) -> Result<(), NoMemory>
        ensures { OnOk result (IsFoundAnew self.now.node (F.map facts.now) place came.now source.old source.new) }
    {
        for row in went {
            let value = self.node.row_value(row, facts);
            if !self.node.has_rows_under(value.value()) {
                source.take_reached(value.value(), place);
            }
        }
        for row in came {
            let value = self.node.row_value(row, facts).into_value(alloc)?;
            source.put_reached(value, place)?;
        }
        Ok(())
    }
}
