ghost use Rattle.std.specs.List.{filter};
ghost use Rattle.fx_base.specs.Lists.{In};
ghost use Rattle.fx_base.specs.declared.fact.Fact.{Fact as FactData};
ghost use Rattle.std.specs.Prelude.{◌≡◌, List, [], true, false, Option, Some, option_map, IfOk, IsErrOf, OnOk};
ghost use Rattle.row_delta.specs.declared.delta.Delta.{Delta as DeltaData};
ghost use Rattle.row_delta.specs.declared.extra.Extra.{Extra as ExtraData};
ghost use Rattle.row_delta.specs.Rows.{has, InOrder};
ghost use Rattle.rule_model.specs.declared.program.Program.{Program as ProgramData};
ghost use Rattle.rule_model.specs.Lent.{lent};
ghost use Rattle.rule_model.specs.Rows.{pattern_of};
ghost use Rattle.beta_node.specs.Nodes.{condition_of};
ghost use Rattle.rete_net.specs.declared.fans.Seat.{Seat as SeatData};
ghost use Rattle.rete_net.specs.Fans.{half_at, half_of, member_at, member_of, seat_at, showing, IsHalf, IsLaidAs, IsLeft, IsOfSeat, Member};
ghost use Rattle.join_memory.specs.Joined.{has_name};
ghost use Rattle.rete_net.specs.Dropped.{TurnForgets};
ghost use Rattle.rete_net.specs.Indexes.{type_of};
ghost use Rattle.rete_net.specs.Loads.{is_fact_of_type, MayLoad, NodeLoad, TurnLoads};
ghost use Rattle.candidate_source.specs.declared.source.Source.{Source as SourceData};
ghost use Rattle.candidate_source.specs.Sources.{handed_come, handed_gone, source_at};
ghost use Rattle.rete_net.specs.Lending.{AreLentAs, MayForget, MayTurn};
ghost use Rattle.rete_net.specs.Steps.{NodeStep, TurnStep};

use crate::fans::{Fans, Seat};
use crate::load::LoadFault;
use crate::loading::Given;
use crate::node::NetNode;
use crate::pieces::have_rows;
use candidate_source::Sources;
use fx_base::{Fact, Facts, NoMemory, Seq};
use join_memory::names_alone;
use pattern_gate::PatternGate;
use row_change::changes_nothing;
use row_delta::{Delta, Named, Row};
use rule_model::{Moment, Program};
use std::alloc::Global;

/// What a step is given for all nodes: the facts that go, and the one that comes, if one does, and the moment.
#[derive(Clone, Copy)]
pub(crate) struct Happening<'h> {
    pub(crate) program: &'h Program,
    pub(crate) gone: &'h [&'h Fact],
    pub(crate) come: Option<&'h Fact>,
    pub(crate) moment: &'h Moment<'h>,
}

/// What all nodes forget: the candidates that are old.
#[derive(Clone, Copy)]
pub(crate) struct Loss<'h> {
    pub(crate) program: &'h Program,
    pub(crate) old: &'h [Named],
}

impl NetNode {
    /// Takes a step as the node in a place, which may keep what it keeps as a member of a fan, or take its candidates from a source. Where
    /// nothing has changed in the rows before it, or they change nothing here, and it is still, it takes no memory.
    pub(crate) fn advance_in<F: Facts>(
        &mut self,
        alloc: Global,
        fans: &mut Fans,
        sources: &mut Sources,
        place: usize,
        left: &Delta,
        happening: &Happening,
        facts: &F,
    ) -> Result<Delta, NoMemory>
        ensures parent { OnOk result (self.new.parent ≡ self.old.parent) }
        ensures condition { OnOk result (condition_of self.new.node ≡ condition_of self.old.node) }
        ensures laid { OnOk result (IsLaidAs fans.old fans.new) }
        ensures others { OnOk result ((seat : SeatData) → (seat_at fans.old.seats.items place ≡ Some seat → ⊥) → IsLeft fans.old fans.new seat) }
        ensures sources { OnOk result (AreLentAs place sources.old sources.new) }
        ensures step { IfOk result (λ delta. (was : Option Member) (of : Option SourceData) → IsOfSeat self.old fans.old.list.items (seat_at fans.old.seats.items place)
            → IsHalf (F.map facts.now) left.now.gone left.now.come was (member_at fans.old place) (half_of fans.old (seat_at fans.old.seats.items place))
            → ((s : SourceData) → of ≡ Some s → seat_at fans.old.seats.items place ≡ None)
            → MayTurn happening.now.program.now (lent happening.now.gone.now) (option_map (λ f. f.now) happening.now.come) happening.now.moment.now.clock (F.map facts.now)
            of (source_at sources.old place) place self.old (handed_gone sources.old place) (handed_come sources.old place)
            → TurnStep happening.now.program.now (F.map facts.now) (lent happening.now.gone.now) (option_map (λ f. f.now) happening.now.come) happening.now.moment.now
            of (source_at sources.new place) place (showing was self.old) (showing (member_at fans.new place) self.new) left.now delta) }
    {
        match fans.seat(place) {
            Some(seat) => {
                let half = fans.take_half(alloc, seat);
                let delta = self.advance_member(alloc, fans, seat, half, happening, facts)?;
                Ok(delta)
            }
            None => {
                let delta = self.advance_alone(alloc, sources, place, left, happening, facts)?;
                Ok(delta)
            }
        }
    }

    // Takes a step as a member, of whose rows this half has changed already.
    fn advance_member<F: Facts>(
        &mut self,
        alloc: Global,
        fans: &mut Fans,
        seat: Seat,
        half: Delta,
        happening: &Happening,
        facts: &F,
    ) -> Result<Delta, NoMemory>
        ensures parent { OnOk result (self.new.parent ≡ self.old.parent) }
        ensures condition { OnOk result (condition_of self.new.node ≡ condition_of self.old.node) }
        ensures laid { OnOk result (IsLaidAs fans.old fans.new) }
        ensures others { OnOk result ((other : SeatData) → (other ≡ seat → ⊥) → IsLeft fans.old fans.new other) }
        ensures step { IfOk result (λ delta. (was : Option Member) (left : DeltaData) → IsOfSeat self.old fans.old.list.items (Some seat)
            → IsHalf (F.map facts.now) left.gone left.come was (member_of fans.old.list.items (Some seat)) half
            → NodeStep happening.now.program.now (F.map facts.now) (lent happening.now.gone.now) (option_map (λ f. f.now) happening.now.come) happening.now.moment.now
            (showing was self.old) (showing (member_of fans.new.list.items (Some seat)) self.new) left delta) }
    {
        let pattern = self.node.pattern();
        let clock = happening.moment.clock;
        if changes_nothing(&half)
            && self
                .gate
                .is_still(pattern, happening.gone, happening.come, clock)
        {
            return Ok(half);
        }
        let right = self.gate.advance(
            alloc,
            happening.program,
            pattern,
            happening.gone,
            happening.come,
            clock,
        )?;
        let gone = names_alone(alloc, right.gone.as_slice())?;
        let come = names_alone(alloc, right.come.as_slice())?;
        let delta = fans.turn_names(alloc, seat, half, &gone, &come, facts)?;
        Ok(delta)
    }

    /// Forgets as the node in a place. The gates stand for the whole snapshot, and keep old candidates.
    pub(crate) fn forget_in<F: Facts>(
        &mut self,
        alloc: Global,
        fans: &mut Fans,
        sources: &mut Sources,
        place: usize,
        rows: &[Row],
        loss: &Loss,
        facts: &F,
    ) -> Result<Seq<Row>, NoMemory>
        ensures parent { OnOk result (self.new.parent ≡ self.old.parent) }
        ensures condition { OnOk result (condition_of self.new.node ≡ condition_of self.old.node) }
        ensures laid { OnOk result (IsLaidAs fans.old fans.new) }
        ensures others { OnOk result ((seat : SeatData) → (seat_at fans.old.seats.items place ≡ Some seat → ⊥) → IsLeft fans.old fans.new seat) }
        ensures sources { OnOk result (AreLentAs place sources.old sources.new) }
        ensures forgets { IfOk result (λ gone. (was : Option Member) (of : Option SourceData) → IsOfSeat self.old fans.old.list.items (seat_at fans.old.seats.items place)
            → IsHalf (F.map facts.now) rows.now [] was (member_at fans.old place) (half_of fans.old (seat_at fans.old.seats.items place))
            → ((s : SourceData) → of ≡ Some s → seat_at fans.old.seats.items place ≡ None)
            → MayForget loss.now.program.now (F.map facts.now) loss.now.old.now of (source_at sources.old place) place self.old (handed_gone sources.old place)
            → TurnForgets loss.now.program.now (F.map facts.now) (has_name loss.now.old.now) of (source_at sources.new place) place (showing was self.old) (showing (member_at fans.new place) self.new) rows.now gone) }
    {
        match fans.seat(place) {
            Some(seat) => {
                let half = fans.take_half(alloc, seat);
                let delta = fans.turn_names(alloc, seat, half, loss.old, &[], facts)?;
                Ok(delta.gone)
            }
            None => {
                let gone = self.forget_alone(
                    alloc,
                    loss.program,
                    sources,
                    place,
                    rows,
                    loss.old,
                    facts,
                )?;
                Ok(gone)
            }
        }
    }

    /// Is loaded as the node in a place, which keeps nothing. `NoRow`: exactly where the row of an extra is none of the rows before it.
    pub(crate) fn load_in<F: Facts>(
        &mut self,
        alloc: Global,
        program: &Program,
        fans: &mut Fans,
        sources: &mut Sources,
        place: usize,
        given: &Given,
        facts: &F,
    ) -> Result<Delta, LoadFault>
        ensures parent { OnOk result (self.new.parent ≡ self.old.parent) }
        ensures condition { OnOk result (condition_of self.new.node ≡ condition_of self.old.node) }
        ensures laid { OnOk result (IsLaidAs fans.old fans.new) }
        ensures others { OnOk result ((seat : SeatData) → (seat_at fans.old.seats.items place ≡ Some seat → ⊥) → IsLeft fans.old fans.new seat) }
        ensures sources { OnOk result (AreLentAs place sources.old sources.new) }
        ensures loads { IfOk result (λ delta. (was : Option Member) (of : Option SourceData) (kept : List FactData) → lent given.now.theirs.now ≡ filter (is_fact_of_type (type_of self.old)) kept
            → IsOfSeat self.old fans.old.list.items (seat_at fans.old.seats.items place) → IsHalf (F.map facts.now) [] given.now.rows.now was (member_at fans.old place) (half_of fans.old (seat_at fans.old.seats.items place))
            → ((s : SourceData) → of ≡ Some s → seat_at fans.old.seats.items place ≡ None)
            → MayLoad kept given.now.moment.now.clock (F.map facts.now) of (source_at sources.old place) (pattern_of (condition_of self.old.node))
            → TurnLoads program.now (F.map facts.now) kept given.now.extras.now given.now.moment.now of (source_at sources.new place) place (showing was self.old) (showing (member_at fans.new place) self.new) given.now.rows.now delta) }
        ensures there { OnOk result (InOrder given.now.rows.now → (e : ExtraData) → In e given.now.extras.now → has given.now.rows.now e.row ≡ true) }
        ensures no_row { IsErrOf result LoadFault.NoRow → InOrder given.now.rows.now → (e : ExtraData) × In e given.now.extras.now × (has given.now.rows.now e.row ≡ false) }
    {
        match fans.seat(place) {
            Some(seat) => {
                let half = fans.take_half(alloc, seat);
                let delta = self.load_member(alloc, fans, seat, half, given, facts)?;
                Ok(delta)
            }
            None => {
                let delta = self.load_alone(alloc, program, sources, place, given, facts)?;
                Ok(delta)
            }
        }
    }

    // Is loaded as a member, for which this half of the rows has come already.
    fn load_member<F: Facts>(
        &mut self,
        alloc: Global,
        fans: &mut Fans,
        seat: Seat,
        half: Delta,
        given: &Given,
        facts: &F,
    ) -> Result<Delta, LoadFault>
        ensures parent { OnOk result (self.new.parent ≡ self.old.parent) }
        ensures condition { OnOk result (condition_of self.new.node ≡ condition_of self.old.node) }
        ensures laid { OnOk result (IsLaidAs fans.old fans.new) }
        ensures others { OnOk result ((other : SeatData) → (other ≡ seat → ⊥) → IsLeft fans.old fans.new other) }
        ensures loads { IfOk result (λ delta. (p : ProgramData) (was : Option Member) (kept : List FactData) → lent given.now.theirs.now ≡ filter (is_fact_of_type (type_of self.old)) kept → IsOfSeat self.old fans.old.list.items (Some seat)
            → IsHalf (F.map facts.now) [] given.now.rows.now was (member_of fans.old.list.items (Some seat)) half
            → NodeLoad p (F.map facts.now) kept given.now.extras.now given.now.moment.now (showing was self.old) (showing (member_of fans.new.list.items (Some seat)) self.new) given.now.rows.now delta) }
        ensures there { OnOk result (InOrder given.now.rows.now → (e : ExtraData) → In e given.now.extras.now → has given.now.rows.now e.row ≡ true) }
        ensures no_row { IsErrOf result LoadFault.NoRow → InOrder given.now.rows.now → (e : ExtraData) × In e given.now.extras.now × (has given.now.rows.now e.row ≡ false) }
    {
        if !have_rows(given.extras, given.rows) {
            return Err(LoadFault::NoRow);
        }
        let (gate, come) = PatternGate::load(
            alloc,
            self.node.pattern(),
            given.theirs,
            given.moment.clock,
        )?;
        let candidates = names_alone(alloc, come.come.as_slice())?;
        let delta = fans.turn_names(alloc, seat, half, &[], &candidates, facts)?;
        self.gate = gate;
        Ok(delta)
    }
}
