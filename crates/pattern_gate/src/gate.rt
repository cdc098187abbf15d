ghost use Rattle.std.specs.Prelude.{◌≡◌, ◌↔◌, Bool, true, false, ℤ, ◌≤ℤ◌, ◌<ℤ◌, List, option_map, IfOk, OnOk, IfSome, IsTrue};
ghost use Rattle.std.specs.List.{list_any};
ghost use Rattle.fx_base.specs.Lists.{In};
ghost use Rattle.fx_base.specs.declared.fact.Fact.{Fact};
ghost use Rattle.row_change.specs.Changes.{IsDifference};
ghost use Rattle.row_delta.specs.declared.row.Named.{Named};
ghost use Rattle.row_delta.specs.declared.row.Row.{Row};
ghost use Rattle.row_delta.specs.Rows.{has};
ghost use Rattle.rule_model.specs.declared.condition.Pattern.{Pattern};
ghost use Rattle.rule_model.specs.declared.program.Program.{Program};
ghost use Rattle.rule_model.specs.Candidates.{candidates};
ghost use Rattle.rule_model.specs.Lent.{lent};
ghost use Rattle.rule_model.specs.Snapshots.{Snapshot};
ghost use Rattle.rule_model.specs.Tuples.{name_of};
ghost use Rattle.join_memory.specs.Inputs.{IsNameDifference};
ghost use Rattle.join_memory.specs.Standing.{no_names};
ghost use Rattle.condition_rows.specs.Sets.{candidates_of};
ghost use Rattle.condition_rows.specs.Looks.{empty_snapshot};
ghost use Rattle.window_gate.specs.declared.change.WindowKind.{WindowKind};
ghost use Rattle.window_gate.specs.Windows.{Arrival, after, rows_inside};
ghost use Rattle.window_gate.specs.Standing.{LeavesAt, StandsForArrivals, TakesChange, window_of};
ghost use Rattle.pattern_gate.specs.Moves.{IsOrderly, MovesSnapshot, at_clock};
ghost use Rattle.pattern_gate.specs.Gates.{GateStands, LeavesBy, arrival_of, has_good_window, window_kind_of};
ghost use Rattle.pattern_gate.specs.Turns.{is_meant, is_given_meant, is_one_meant, less_fact, less_facts, more_fact, more_facts, LetsGo, LetsAllGo, LetsCome, LetsAllCome, TakesStep, ReachesArrivals};

use fx_base::{Fact, Millis, NoMemory};
use row_change::Change;
use row_delta::{Delta, Named};
use rule_model::{Pattern, Program, WindowTag};
use std::alloc::Global;
use window_gate::{Gate, GateChange, WindowKind};

/// The window in front of the node of a pattern. It keeps what the window needs of the facts that fit the pattern: nothing
/// without a window. After a call that was refused memory it is to be given up.
#[derive(Drop)]
pub struct PatternGate {
    gate: Gate,
}

impl PatternGate {
    /// The gate of a pattern, to which no fact has come. Takes no memory.
    pub fn new(alloc: Global, pattern: &Pattern) -> PatternGate
        ensures { (p : Program) → GateStands p pattern.now result empty_snapshot }
    {
        PatternGate {
            gate: Gate::new(alloc, kind_of(pattern.window)),
        }
    }

    /// The gate of a pattern over these facts, in the order of their tags, at this clock in milliseconds, and the candidates of the pattern,
    /// each as a row of its own that comes. It costs the constant tests of each fact, and for those that fit the logarithm of their number.
    pub fn load(
        alloc: Global,
        pattern: &Pattern,
        facts: &[&Fact],
        clock: Millis,
    ) -> Result<(PatternGate, Delta), NoMemory>
        ensures stands { IfOk result (λ loaded. (p : Program) (s : Snapshot) → has_good_window p pattern.now ≡ true → IsOrderly p s → s.facts ≡ lent facts.now → s.clock ≡ clock
            → GateStands p pattern.now loaded.0 s) }
        ensures candidates { IfOk result (λ loaded. (p : Program) (s : Snapshot) → has_good_window p pattern.now ≡ true → IsOrderly p s → s.facts ≡ lent facts.now → s.clock ≡ clock
            → IsNameDifference no_names (candidates_of p pattern.now s) loaded.1) }
    {
        let mut gate = PatternGate {
            gate: Gate::new(alloc, kind_of(pattern.window)),
        };
        let mut change = Change::none(alloc);
        gate.facts_come(alloc, &mut change, pattern, facts, clock)?;
        let delta = change.delta(alloc)?;
        Ok((gate, delta))
    }

    /// The moment of the clock from which a candidate leaves the window: until then a move of the clock alone changes nothing.
    /// `None` where none ever does. Takes no memory.
    pub fn quiet_until(&self) -> Option<Millis>
        ensures stands { (p : Program) (pattern : Pattern) (s : Snapshot) (clock : ℤ) → GateStands p pattern self.now s → IsOrderly p s → IsOrderly p (at_clock s clock)
            → s.clock ≤ℤ clock → IfSome result (λ at. clock <ℤ at) → GateStands p pattern self.now (at_clock s clock) }
        ensures candidates { (p : Program) (pattern : Pattern) (s : Snapshot) (clock : ℤ) → GateStands p pattern self.now s → IsOrderly p s → IsOrderly p (at_clock s clock)
            → s.clock ≤ℤ clock → IfSome result (λ at. clock <ℤ at) → (who : Named) → candidates_of p pattern (at_clock s clock) who ≡ candidates_of p pattern s who }
        ensures leaves { (p : Program) (pattern : Pattern) (s : Snapshot) → GateStands p pattern self.now s → IsOrderly p s
            → IfSome result (λ at. (f : Fact) × In f (candidates p pattern s) × LeavesAt (window_kind_of pattern.window) (arrival_of f) at) }
    {
        self.gate.quiet_until()
    }

    /// Whether the gate stays as it is, and with it the candidates, at this clock in milliseconds, where these facts go and this
    /// one comes, if one does: none of them is meant, and no candidate leaves the window by the clock. It costs a look at the
    /// least moment due, and of each fact the constant tests. Takes no memory.
    pub fn is_still(
        &self,
        pattern: &Pattern,
        gone: &[&Fact],
        come: Option<&Fact>,
        clock: Millis,
    ) -> bool
        ensures meant { IsTrue result → is_one_meant pattern.now (lent gone.now) (option_map (λ f. f.now) come.entry) ≡ false }
        ensures stands { IsTrue result → (p : Program) (s next : Snapshot) → GateStands p pattern.now self.now s
            → MovesSnapshot p s next (lent gone.now) (option_map (λ f. f.now) come.entry) → next.clock ≡ clock → GateStands p pattern.now self.now next }
        ensures candidates { IsTrue result → (p : Program) (s next : Snapshot) → GateStands p pattern.now self.now s
            → MovesSnapshot p s next (lent gone.now) (option_map (λ f. f.now) come.entry) → next.clock ≡ clock → (who : Named) → candidates_of p pattern.now next who ≡ candidates_of p pattern.now s who }
        ensures leaves { result ≡ false → is_one_meant pattern.now (lent gone.now) (option_map (λ f. f.now) come.entry) ≡ false
            → (p : Program) (s : Snapshot) → GateStands p pattern.now self.now s → IsOrderly p s → LeavesBy p pattern.now s clock }
    {
        is_before(clock, self.gate.quiet_until()) && !is_one_meant(pattern, gone, come)
    }

    /// Takes the facts that go and the one that comes, if one does, and the clock in milliseconds, and answers what has changed
    /// in the candidates of the pattern, each named by a row of its own. For each of these facts it costs the constant tests,
    /// and for those that fit the logarithm of what a window keeps. Where no fact fits and no window has something due, it costs
    /// that alone and one look at the least moment due.
    pub fn advance(
        &mut self,
        alloc: Global,
        program: &Program,
        pattern: &Pattern,
        gone: &[&Fact],
        come: Option<&Fact>,
        clock: Millis,
    ) -> Result<Delta, NoMemory>
        ensures stands { OnOk result ((s next : Snapshot) → has_good_window program.now pattern.now ≡ true → GateStands program.now pattern.now self.old s
            → MovesSnapshot program.now s next (lent gone.now) (option_map (λ f. f.now) come.entry) → next.clock ≡ clock → GateStands program.now pattern.now self.new next) }
        ensures difference { IfOk result (λ delta. (s next : Snapshot) → has_good_window program.now pattern.now ≡ true → GateStands program.now pattern.now self.old s
            → MovesSnapshot program.now s next (lent gone.now) (option_map (λ f. f.now) come.entry) → next.clock ≡ clock
            → IsNameDifference (candidates_of program.now pattern.now s) (candidates_of program.now pattern.now next) delta) }
    {
        let delta = self.advanced(alloc, pattern, gone, come, clock)?;
        Ok(delta)
    }

    /// The same, of what the gate keeps: the clock moves, facts go, and one comes.
    fn advanced(
        &mut self,
        alloc: Global,
        pattern: &Pattern,
        gone: &[&Fact],
        come: Option<&Fact>,
        clock: Millis,
    ) -> Result<Delta, NoMemory>
        ensures window { OnOk result (window_of self.new.gate ≡ window_of self.old.gate) }
        ensures stands { OnOk result ((arrivals : List Arrival) (was : ℤ) → StandsForArrivals self.old.gate arrivals was
            → TakesStep (window_of self.old.gate) pattern.now arrivals was (lent gone.now) (option_map (λ f. f.now) come.entry) clock
            → StandsForArrivals self.new.gate (more_fact pattern.now (less_facts pattern.now arrivals (lent gone.now)) (option_map (λ f. f.now) come.entry)) clock) }
        ensures difference { IfOk result (λ delta. (arrivals : List Arrival) (was : ℤ) → StandsForArrivals self.old.gate arrivals was
            → TakesStep (window_of self.old.gate) pattern.now arrivals was (lent gone.now) (option_map (λ f. f.now) come.entry) clock
            → IsDifference (has (rows_inside (window_of self.old.gate) was arrivals))
            (has (rows_inside (window_of self.old.gate) clock (more_fact pattern.now (less_facts pattern.now arrivals (lent gone.now)) (option_map (λ f. f.now) come.entry)))) delta) }
    {
        let mut change = Change::none(alloc);
        self.turn(alloc, &mut change, &GateChange::Clock, clock)?;
        self.facts_go(alloc, &mut change, pattern, gone, clock)?;
        self.fact_comes(alloc, &mut change, pattern, come, clock)?;
        let delta = change.delta(alloc)?;
        Ok(delta)
    }

    fn facts_go(
        &mut self,
        alloc: Global,
        change: &mut Change,
        pattern: &Pattern,
        gone: &[&Fact],
        clock: Millis,
    ) -> Result<(), NoMemory>
        ensures window { OnOk result (window_of self.new.gate ≡ window_of self.old.gate) }
        ensures reaches { OnOk result ((old : Row → Bool) (window : WindowKind) (arrivals : List Arrival) → ReachesArrivals old window self.old change.old arrivals clock
            → LetsAllGo window pattern.now clock arrivals (lent gone.now) → ReachesArrivals old window self.new change.new (less_facts pattern.now arrivals (lent gone.now)) clock) }
    {
        for fact in gone {
            self.fact_goes(alloc, change, pattern, fact, clock)?;
        }
        Ok(())
    }

    fn fact_goes(
        &mut self,
        alloc: Global,
        change: &mut Change,
        pattern: &Pattern,
        fact: &Fact,
        clock: Millis,
    ) -> Result<(), NoMemory>
        ensures window { OnOk result (window_of self.new.gate ≡ window_of self.old.gate) }
        ensures reaches { OnOk result ((old : Row → Bool) (window : WindowKind) (arrivals : List Arrival) → ReachesArrivals old window self.old change.old arrivals clock
            → LetsGo window pattern.now clock arrivals fact.now → ReachesArrivals old window self.new change.new (less_fact pattern.now arrivals fact.now) clock) }
    {
        if !is_meant(pattern, fact) {
            return Ok(());
        }
        self.turn(alloc, change, &GateChange::Gone(name_of(fact)), clock)
    }

    fn facts_come(
        &mut self,
        alloc: Global,
        change: &mut Change,
        pattern: &Pattern,
        come: &[&Fact],
        clock: Millis,
    ) -> Result<(), NoMemory>
        ensures window { OnOk result (window_of self.new.gate ≡ window_of self.old.gate) }
        ensures reaches { OnOk result ((old : Row → Bool) (window : WindowKind) (arrivals : List Arrival) → ReachesArrivals old window self.old change.old arrivals clock
            → LetsAllCome window pattern.now clock arrivals (lent come.now) → ReachesArrivals old window self.new change.new (more_facts pattern.now arrivals (lent come.now)) clock) }
    {
        for fact in come {
            self.fact_comes(alloc, change, pattern, Some(fact), clock)?;
        }
        Ok(())
    }

    fn fact_comes(
        &mut self,
        alloc: Global,
        change: &mut Change,
        pattern: &Pattern,
        come: Option<&Fact>,
        clock: Millis,
    ) -> Result<(), NoMemory>
        ensures window { OnOk result (window_of self.new.gate ≡ window_of self.old.gate) }
        ensures reaches { OnOk result ((old : Row → Bool) (window : WindowKind) (arrivals : List Arrival) → ReachesArrivals old window self.old change.old arrivals clock
            → LetsCome window pattern.now clock arrivals (option_map (λ f. f.now) come.entry)
            → ReachesArrivals old window self.new change.new (more_fact pattern.now arrivals (option_map (λ f. f.now) come.entry)) clock) }
    {
        match come {
            Some(fact) => {
                if !is_meant(pattern, fact) {
                    return Ok(());
                }
                let event = GateChange::Come(name_of(fact), fact.times.start);
                self.turn(alloc, change, &event, clock)
            }
            None => Ok(()),
        }
    }

    /// What happens in front of the window changes the rows inside.
    fn turn(
        &mut self,
        alloc: Global,
        change: &mut Change,
        event: &GateChange,
        clock: Millis,
    ) -> Result<(), NoMemory>
        ensures window { OnOk result (window_of self.new.gate ≡ window_of self.old.gate) }
        ensures reaches { OnOk result ((old : Row → Bool) (window : WindowKind) (arrivals : List Arrival) (was : ℤ) → ReachesArrivals old window self.old change.old arrivals was
            → TakesChange window arrivals was event.now clock → ReachesArrivals old window self.new change.new (after arrivals event.now) clock) }
    {
        let delta = self.gate.turn(alloc, event, clock)?;
        let Delta { gone, come } = delta;
        change.leave(alloc, gone.into_vec())?;
        change.arrive(alloc, come.into_vec())?;
        Ok(())
    }
}

/// Whether the clock is before a moment, where there is one.
fn is_before(clock: Millis, moment: Option<Millis>) -> bool
    ensures { IsTrue result ↔ IfSome moment (λ at. clock <ℤ at) }
{
    match moment {
        Some(at) => clock < at,
        None => true,
    }
}

fn kind_of(window: WindowTag) -> WindowKind
    ensures { result ≡ window_kind_of window }
{
    match window {
        WindowTag::Whole => WindowKind::Whole,
        WindowTag::Time(span) => WindowKind::Time(span),
        WindowTag::Length(count) => WindowKind::Length(count),
    }
}

fn name_of(fact: &Fact) -> Named
    ensures { result ≡ name_of fact.now }
{
    Named {
        id: fact.id,
        tag: fact.tag,
    }
}

/// Whether the fact is of the pattern's type and entry point, and passes the constant tests.
fn is_meant(pattern: &Pattern, fact: &Fact) -> bool
    ensures { result ≡ is_meant pattern.now fact.now }
{
    fact.ty == pattern.ty && fact.entry == pattern.entry && pattern.passes_alone(fact)
}

/// Whether one of the facts that go, or the one that comes, is meant.
fn is_one_meant(pattern: &Pattern, gone: &[&Fact], come: Option<&Fact>) -> bool
    ensures { result ≡ is_one_meant pattern.now (lent gone.now) (option_map (λ f. f.now) come.entry) }
{
    is_any_meant(pattern, gone) || is_given_meant(pattern, come)
}

fn is_any_meant(pattern: &Pattern, facts: &[&Fact]) -> bool
    ensures { result ≡ list_any (λ f. is_meant pattern.now f.now) facts.now }
{
    facts.iter().any(|fact| is_meant(pattern, fact))
}

fn is_given_meant(pattern: &Pattern, fact: Option<&Fact>) -> bool
    ensures { result ≡ is_given_meant pattern.now (option_map (λ f. f.now) fact.entry) }
{
    match fact {
        Some(fact) => is_meant(pattern, fact),
        None => false,
    }
}
