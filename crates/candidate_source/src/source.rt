ghost use Rattle.std.specs.Prelude.{◌≡◌, ◌&&◌, ◌||◌, not, None, ℕ, ℤ, ◌≤ℤ◌, ◌<ℤ◌, true, false, List, option_map, IfSome, IfOk, OnOk, IsTrue};
ghost use Rattle.std.specs.Borrow.{sem};
ghost use Rattle.std.specs.Ordering.{eq_by_cmp, nat_cmp};
ghost use Rattle.fx_base.specs.declared.fact.Fact.{Fact as FactData};
ghost use Rattle.fx_base.specs.declared.value.Value.{Value as ValueData};
ghost use Rattle.fx_base.specs.Lists.{In};
ghost use Rattle.fx_base.specs.Values.{same_value};
ghost use Rattle.row_delta.specs.declared.row.Named.{Named as NamedData};
ghost use Rattle.row_delta.specs.NameOrder.{name_cmp};
ghost use Rattle.rule_model.specs.declared.condition.Pattern.{Pattern as PatternData};
ghost use Rattle.rule_model.specs.declared.program.Program.{Program as ProgramData};
ghost use Rattle.rule_model.specs.Candidates.{candidates};
ghost use Rattle.rule_model.specs.Lent.{lent};
ghost use Rattle.rule_model.specs.Snapshots.{Snapshot};
ghost use Rattle.alpha_memory.specs.JoinIndex.{at};
ghost use Rattle.join_memory.specs.Apart.{has_candidate};
ghost use Rattle.join_memory.specs.Joined.{has_name};
ghost use Rattle.join_memory.specs.Shared.{KeepsNames, NamesAgree};
ghost use Rattle.condition_rows.specs.Looks.{empty_snapshot};
ghost use Rattle.condition_rows.specs.Sets.{candidates_of};
ghost use Rattle.window_gate.specs.Standing.{LeavesAt};
ghost use Rattle.pattern_gate.specs.Gates.{GateStands, LeavesBy, arrival_of, has_good_window, window_kind_of};
ghost use Rattle.pattern_gate.specs.Moves.{IsOrderly, MovesSnapshot, at_clock};
ghost use Rattle.pattern_gate.specs.Turns.{is_one_meant};
ghost use Rattle.candidate_source.specs.Lending.{LendsCandidates};
ghost use Rattle.candidate_source.specs.Reached.{is_under, IsUnreached};
ghost use Rattle.candidate_source.specs.Turns.{HaveLeft, HaveCome, HasTurned, LeavesOthers};

use crate::handed::{Handed, Turned};
use crate::handing::hand;
use alpha_memory::JoinIndex;
use fx_base::{Fact, Facts, Millis, NoMemory, Value};
use join_memory::{Candidates, names_alone};
use pattern_gate::PatternGate;
use row_delta::Named;
use rule_model::{Pattern, Program};
use std::alloc::Global;
use std::collections::BTreeMap;

/// What several nodes take alike, and keep alike: one gate, and the candidates once, by the pattern of one of these nodes. Under each value
/// under which such a node keeps a left row, it is found by its place, so that a candidate is handed to those alone whose left rows it may
/// join. After a call that was refused memory it is to be given up.
#[derive(Drop)]
pub struct Source {
    gate: PatternGate,
    own: Candidates,
    reached: JoinIndex<Value, usize, ()>,
}

impl Source {
    /// The source of a pattern, to which no fact has come, and in which no node is found. Takes no memory.
    pub fn new(alloc: Global, pattern: Pattern) -> Source
        ensures pattern { result.own.pattern ≡ pattern }
        ensures gate { (p : ProgramData) → GateStands p pattern result.gate empty_snapshot }
        ensures names { (value : ValueData) (who : NamedData) → at same_value name_cmp result.own.names value who ≡ None }
        ensures reached { (k : ℕ) → IsUnreached result.reached k }
    {
        let gate = PatternGate::new(alloc, &pattern);
        Source {
            gate,
            own: Candidates::new(alloc, pattern),
            reached: JoinIndex::new(alloc),
        }
    }

    /// The source of a pattern over these facts, in the order of their tags, at this clock in milliseconds, in which no node is found. Their
    /// join values are those by the facts at hand. It costs the constant tests of each fact, and for those that fit a hash and the logarithm
    /// of their number.
    pub fn load<F: Facts>(
        alloc: Global,
        pattern: Pattern,
        given: &[&Fact],
        clock: Millis,
        facts: &F,
    ) -> Result<Source, NoMemory>
        ensures pattern { IfOk result (λ s. s.own.pattern ≡ pattern) }
        ensures gate { IfOk result (λ loaded. (p : ProgramData) (s : Snapshot) → has_good_window p pattern ≡ true → IsOrderly p s → s.facts ≡ lent given.now → s.clock ≡ clock
            → GateStands p pattern loaded.gate s) }
        ensures names { IfOk result (λ loaded. (p : ProgramData) (s : Snapshot) → has_good_window p pattern ≡ true → IsOrderly p s → s.facts ≡ lent given.now → s.clock ≡ clock
            → (who : NamedData) → has_candidate loaded.own (F.map facts.now) who ≡ candidates_of p pattern s who) }
        ensures listed { IfOk result (λ loaded. (names : List NamedData) × ((who : NamedData) → has_candidate loaded.own (F.map facts.now) who ≡ has_name names who)) }
        ensures agrees { IfOk result (λ loaded. NamesAgree loaded.own.pattern loaded.own.names (F.map facts.now)) }
        ensures reached { IfOk result (λ loaded. (k : ℕ) → IsUnreached loaded.reached k) }
    {
        let (gate, delta) = PatternGate::load(alloc, &pattern, given, clock)?;
        let names = names_alone(alloc, delta.come.as_slice())?;
        let mut own = Candidates::new(alloc, pattern);
        put_all(&mut own, alloc, names.as_slice(), facts)?;
        Ok(Source {
            gate,
            own,
            reached: JoinIndex::new(alloc),
        })
    }

    /// The pattern. Takes no memory.
    pub fn pattern(&self) -> &Pattern
        ensures { result.now ≡ self.now.own.pattern }
    {
        self.own.pattern()
    }

    /// The candidates. Takes no memory.
    pub fn own(&self) -> &Candidates
        ensures { result.now ≡ self.now.own }
    {
        &self.own
    }

    /// Lends the candidates to one of the nodes for its turn; the node gives them back as they were. Takes no memory.
    pub fn candidates(&mut self) -> &mut Candidates
        ensures* writes_back { sem 𝓛 (LendsCandidates self.entry result) }
        ensures value { result.now ≡ self.old.own }
    {
        &mut self.own
    }

    /// The moment of the clock from which a candidate leaves the window: until then a move of the clock alone changes nothing.
    /// `None` where none ever does. Takes no memory.
    pub fn quiet_until(&self) -> Option<Millis>
        ensures stands { (p : ProgramData) (pattern : PatternData) (s : Snapshot) (clock : ℤ) → GateStands p pattern self.now.gate s → IsOrderly p s → IsOrderly p (at_clock s clock)
            → s.clock ≤ℤ clock → IfSome result (λ at. clock <ℤ at) → GateStands p pattern self.now.gate (at_clock s clock) }
        ensures candidates { (p : ProgramData) (pattern : PatternData) (s : Snapshot) (clock : ℤ) → GateStands p pattern self.now.gate s → IsOrderly p s → IsOrderly p (at_clock s clock)
            → s.clock ≤ℤ clock → IfSome result (λ at. clock <ℤ at) → (who : NamedData) → candidates_of p pattern (at_clock s clock) who ≡ candidates_of p pattern s who }
        ensures leaves { (p : ProgramData) (pattern : PatternData) (s : Snapshot) → GateStands p pattern self.now.gate s → IsOrderly p s
            → IfSome result (λ at. (f : FactData) × In f (candidates p pattern s) × LeavesAt (window_kind_of pattern.window) (arrival_of f) at) }
    {
        self.gate.quiet_until()
    }

    /// Whether the gate stays as it is, and with it the candidates, at this clock in milliseconds, where these facts go and this one comes,
    /// if one does: none of them is meant, and no candidate leaves the window by the clock. It costs a look at the least moment due, and of
    /// each fact the constant tests. Takes no memory.
    pub fn is_still(&self, gone: &[&Fact], come: Option<&Fact>, clock: Millis) -> bool
        ensures meant { IsTrue result → is_one_meant self.now.own.pattern (lent gone.now) (option_map (λ f. f.now) come.entry) ≡ false }
        ensures stands { IsTrue result → (p : ProgramData) (s next : Snapshot) → GateStands p self.now.own.pattern self.now.gate s
            → MovesSnapshot p s next (lent gone.now) (option_map (λ f. f.now) come.entry) → next.clock ≡ clock → GateStands p self.now.own.pattern self.now.gate next }
        ensures candidates { IsTrue result → (p : ProgramData) (s next : Snapshot) → GateStands p self.now.own.pattern self.now.gate s
            → MovesSnapshot p s next (lent gone.now) (option_map (λ f. f.now) come.entry) → next.clock ≡ clock
            → (who : NamedData) → candidates_of p self.now.own.pattern next who ≡ candidates_of p self.now.own.pattern s who }
        ensures leaves { result ≡ false → is_one_meant self.now.own.pattern (lent gone.now) (option_map (λ f. f.now) come.entry) ≡ false
            → (p : ProgramData) (s : Snapshot) → GateStands p self.now.own.pattern self.now.gate s → IsOrderly p s → LeavesBy p self.now.own.pattern s clock }
    {
        self.gate.is_still(self.own.pattern(), gone, come, clock)
    }

    /// Takes the facts that go and the one that comes, if one does, and the clock in milliseconds. Each candidate that goes by it and was
    /// there, and each that comes and was not, is handed to the nodes that are found under the values of rows that are sought for it, behind
    /// what was handed to them before. A candidate costs a hash for each of these values and one of its own, and for each of these nodes the
    /// logarithm of those to which anything is handed; else it costs what the gate does.
    pub fn turn<F: Facts>(
        &mut self,
        alloc: Global,
        program: &Program,
        gone: &[&Fact],
        come: Option<&Fact>,
        clock: Millis,
        facts: &F,
        handed: &mut BTreeMap<usize, Handed>,
    ) -> Result<(), NoMemory>
        ensures pattern { OnOk result (self.new.own.pattern ≡ self.old.own.pattern) }
        ensures reached { OnOk result (self.new.reached ≡ self.old.reached) }
        ensures turned { OnOk result ((s next : Snapshot) → has_good_window program.now self.old.own.pattern ≡ true → GateStands program.now self.old.own.pattern self.old.gate s
            → MovesSnapshot program.now s next (lent gone.now) (option_map (λ f. f.now) come.entry) → next.clock ≡ clock
            → HasTurned program.now s next self.old self.new (F.map facts.now) handed.old handed.new) }
        ensures others { OnOk result (LeavesOthers self.old handed.old handed.new) }
    {
        let delta = self
            .gate
            .advance(alloc, program, self.own.pattern(), gone, come, clock)?;
        let went = names_alone(alloc, delta.gone.as_slice())?;
        let came = names_alone(alloc, delta.come.as_slice())?;
        self.leave(alloc, went.as_slice(), facts, handed)?;
        self.come(alloc, came.as_slice(), facts, handed)
    }

    /// Takes old candidates out, and hands those that were there to the nodes that are found under the values of rows that are sought for
    /// them. The gate is left as it is. It costs what these candidates cost in a turn.
    pub fn forget<F: Facts>(
        &mut self,
        alloc: Global,
        old: &[Named],
        facts: &F,
        handed: &mut BTreeMap<usize, Handed>,
    ) -> Result<(), NoMemory>
        ensures { OnOk result (HaveLeft self.old self.new (F.map facts.now) old.now handed.old handed.new) }
    {
        self.leave(alloc, old, facts, handed)
    }

    /// The node in a place is found under a value.
    pub fn put_reached(&mut self, value: Value, place: usize) -> Result<(), NoMemory>
        ensures gate { OnOk result (self.new.gate ≡ self.old.gate) }
        ensures own { OnOk result (self.new.own ≡ self.old.own) }
        ensures reached { OnOk result ((v : ValueData) (k : ℕ) → is_under self.new.reached v k ≡ (is_under self.old.reached v k || (same_value value v && eq_by_cmp nat_cmp place k))) }
    {
        self.reached.put(value, place, ())?;
        Ok(())
    }

    /// The node in a place is no more found under a value. Takes no memory.
    pub fn take_reached(&mut self, value: &Value, place: usize)
        ensures gate { self.new.gate ≡ self.old.gate }
        ensures own { self.new.own ≡ self.old.own }
        ensures reached { (v : ValueData) (k : ℕ) → is_under self.new.reached v k ≡ (is_under self.old.reached v k && not (same_value value.now v && eq_by_cmp nat_cmp place k)) }
    {
        self.reached.take(value, &place);
    }

    fn leave<F: Facts>(
        &mut self,
        alloc: Global,
        names: &[Named],
        facts: &F,
        handed: &mut BTreeMap<usize, Handed>,
    ) -> Result<(), NoMemory>
        ensures { OnOk result (HaveLeft self.old self.new (F.map facts.now) names.now handed.old handed.new) }
    {
        for who in names {
            let sight = self.own.take(*who, facts);
            hand(handed, alloc, &self.reached, Turned::Gone(*who), sight)?;
        }
        Ok(())
    }

    fn come<F: Facts>(
        &mut self,
        alloc: Global,
        names: &[Named],
        facts: &F,
        handed: &mut BTreeMap<usize, Handed>,
    ) -> Result<(), NoMemory>
        ensures { OnOk result (HaveCome self.old self.new (F.map facts.now) names.now handed.old handed.new) }
    {
        for who in names {
            let sight = self.own.put(alloc, *who, facts)?;
            hand(handed, alloc, &self.reached, Turned::Came(*who), sight)?;
        }
        Ok(())
    }
}

/// Puts candidates in.
fn put_all<F: Facts>(
    own: &mut Candidates,
    alloc: Global,
    names: &[Named],
    facts: &F,
) -> Result<(), NoMemory>
    ensures { OnOk result (KeepsNames own.old own.new (F.map facts.now) (λ who. has_candidate own.old (F.map facts.now) who || has_name names.now who)) }
{
    for who in names {
        own.put(alloc, *who, facts)?;
    }
    Ok(())
}
