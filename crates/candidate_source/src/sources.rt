//! The sources of the nodes of a network.
ghost use Rattle.std.specs.Prelude.{◌≡◌, ◌<◌, ◌++◌, ◌∷◌, ℕ, true, false, [], length, Some, None, slice_get, option_map, IfOk, IfSome, IsNone, OnOk};
ghost use Rattle.std.specs.Borrow.{sem};
ghost use Rattle.pattern_gate.specs.Gates.{has_good_window, GateStands};
ghost use Rattle.pattern_gate.specs.Moves.{MovesSnapshot};
ghost use Rattle.rule_model.specs.Lent.{lent};
ghost use Rattle.rule_model.specs.Snapshots.{Snapshot};
ghost use Rattle.candidate_source.specs.declared.source.Source.{Source as SourceData};
ghost use Rattle.candidate_source.specs.Lending.{LendsSource};
ghost use Rattle.std.specs.Ordering.{eq_by_cmp, nat_cmp};
ghost use Rattle.candidate_source.specs.Handed.{IsUnhanded};
ghost use Rattle.candidate_source.specs.Moving.{HaveMoved, TurnStep};
ghost use Rattle.candidate_source.specs.Reached.{has_place};
ghost use Rattle.candidate_source.specs.Sources.{source_place, source_at, lead_of, is_lead, is_led, handed_gone, handed_come, AreApart, AreLaidAs, AreLoadedWith, AreOthersAtRest, AreReachedAs, facts_of_type};
ghost use Rattle.candidate_source.specs.Sources.{HaveForgotten, HaveTurned, IsLoadedWith, IsNewSource, IsPassedOver};
ghost use Rattle.candidate_source.specs.Turns.{HaveLeft};

use crate::handed::Handed;
use crate::source::Source;
use fx_base::{Copies, Fact, Facts, Millis, NoMemory, TypeId};
use row_delta::Named;
use rule_model::{Pattern, Program};
use std::alloc::Global;
use std::collections::{BTreeMap, BTreeSet};

/// The sources of the nodes of a network, which are named by their places: of which source each node is, if it is of one, the first node of
/// each source, and, while a step goes on, what is handed to the nodes. After a call that was refused memory they are to be given up.
#[derive(Drop)]
pub struct Sources {
    list: Vec<Source>,
    of: Vec<Option<usize>>,
    leads: Vec<usize>,
    handed: BTreeMap<usize, Handed>,
}

impl Sources {
    /// The sources of no nodes. Takes no memory.
    pub fn new(alloc: Global) -> Sources
        ensures of { result.of.items ≡ [] }
        ensures list { result.list.items ≡ [] }
        ensures apart { AreApart result }
    {
        Sources {
            list: Vec::new(alloc),
            of: Vec::new(alloc),
            leads: Vec::new(alloc),
            handed: BTreeMap::new(alloc),
        }
    }

    /// How many sources there are. Takes no memory.
    pub fn count(&self) -> usize
        ensures { result ≡ length self.now.list.items }
    {
        self.list.len()
    }

    /// Puts a node behind the others, the first one of a new source of this pattern.
    pub fn put_lead(&mut self, alloc: Global, pattern: Pattern) -> Result<(), NoMemory>
        ensures of { OnOk result (self.new.of.items ≡ self.old.of.items ++ Some (length self.old.list.items) ∷ []) }
        ensures list { OnOk result ((s : SourceData) × IsNewSource pattern s × (self.new.list.items ≡ self.old.list.items ++ s ∷ [])) }
        ensures apart { AreApart self.old → OnOk result (AreApart self.new) }
    {
        let source = Source::new(alloc, pattern);
        let lead = self.of.len();
        self.of.push(Some(self.list.len()))?;
        self.leads.push(lead)?;
        self.list.push(source)?;
        Ok(())
    }

    /// Puts a node behind the others: of a source that is there, or of none.
    pub fn put_node(&mut self, source: Option<usize>) -> Result<(), NoMemory>
        ensures of { OnOk result (self.new.of.items ≡ self.old.of.items ++ source ∷ []) }
        ensures list { OnOk result (self.new.list ≡ self.old.list) }
        ensures apart { AreApart self.old → IfSome source (λ at. at < length self.old.list.items) → OnOk result (AreApart self.new) }
    {
        self.of.push(source)?;
        Ok(())
    }

    /// The first node of the source of the node in a place, if it is of one. Takes no memory.
    pub fn lead(&self, place: usize) -> Option<usize>
        ensures { result ≡ lead_of self.now place }
    {
        match self.place_of(place) {
            Some(at) => found(&self.leads, at),
            None => None,
        }
    }

    /// The source of the node in a place, if it is of one. Takes no memory.
    pub fn source(&self, place: usize) -> Option<&Source>
        ensures { option_map (λ s. s.now) result ≡ source_at self.now place }
    {
        match self.place_of(place) {
            Some(at) => self.list.get(at),
            None => None,
        }
    }

    /// The source in a place of their list. Takes no memory.
    pub fn listed(&self, source: usize) -> Option<&Source>
        ensures { option_map (λ s. s.now) result ≡ slice_get self.now.list.items source }
    {
        self.list.get(source)
    }

    /// Lends the source of the node in a place, if it is of one, for the turn of the node. Takes no memory.
    pub fn lend(&mut self, place: usize) -> Option<&mut Source>
        ensures* writes_back { sem 𝓛 (LendsSource self.entry place result) }
        ensures value { option_map (λ s. s.now) result ≡ source_at self.old place }
    {
        match self.place_of(place) {
            Some(at) => self.list.get_mut(at),
            None => None,
        }
    }

    /// Takes out what is handed to the node in a place. It costs the logarithm of the nodes to which something is handed. Takes no memory.
    pub fn take_handed(&mut self, alloc: Global, place: usize) -> Handed
        ensures gone { result.gone.items ≡ handed_gone self.old place }
        ensures come { result.come.items ≡ handed_come self.old place }
        ensures others { (k : ℕ) → (k ≡ place → ⊥) → (handed_gone self.new k ≡ handed_gone self.old k) × (handed_come self.new k ≡ handed_come self.old k) }
        ensures list { self.new.list ≡ self.old.list }
        ensures of { self.new.of ≡ self.old.of }
        ensures leads { self.new.leads ≡ self.old.leads }
    {
        match self.handed.remove(&place) {
            Some(handed) => handed,
            None => Handed::none(alloc),
        }
    }

    /// Lets the sources whose first nodes are due take the facts that go and the one that comes, if one does, and the clock in
    /// milliseconds. The nodes to which something of it is handed are due then. It costs what these sources cost, for each node that is due
    /// a look, and for each to which something is handed the logarithm of those that are due.
    pub fn turn<F: Facts>(
        &mut self,
        alloc: Global,
        program: &Program,
        gone: &[&Fact],
        come: Option<&Fact>,
        clock: Millis,
        facts: &F,
        due: &mut BTreeSet<usize, Global>,
    ) -> Result<(), NoMemory>
        ensures laid { OnOk result (AreLaidAs self.old self.new) }
        ensures reached { OnOk result (AreReachedAs self.old self.new) }
        ensures rest { OnOk result (AreApart self.old → (k : ℕ) → is_led (has_place due.old.keys) (lead_of self.old k) ≡ false → source_at self.new k ≡ source_at self.old k) }
        ensures kept { OnOk result ((k : ℕ) → has_place due.old.keys k ≡ true → has_place due.new.keys k ≡ true) }
        ensures passed { OnOk result ((k : ℕ) → has_place due.new.keys k ≡ false → IsPassedOver self.new k) }
        ensures turned { OnOk result (AreApart self.old → AreOthersAtRest self.old due.old.keys (lent gone.now) (option_map (λ f. f.now) come.entry) clock
            → HaveTurned program.now (lent gone.now) (option_map (λ f. f.now) come.entry) clock (F.map facts.now) self.old self.new) }
    {
        self.handed = BTreeMap::new(alloc);
        self.turn_led(alloc, program, gone, come, clock, facts, due)?;
        put_handed(due, &self.handed)
    }

    /// Takes old candidates out of the sources whose first nodes are due, and leaves their gates as they are. The nodes to which some of
    /// them are handed are due then. It costs what these candidates cost in a turn.
    pub fn forget<F: Facts>(
        &mut self,
        alloc: Global,
        old: &[Named],
        facts: &F,
        due: &mut BTreeSet<usize, Global>,
    ) -> Result<(), NoMemory>
        ensures laid { OnOk result (AreLaidAs self.old self.new) }
        ensures reached { OnOk result (AreReachedAs self.old self.new) }
        ensures rest { OnOk result (AreApart self.old → (k : ℕ) → is_led (has_place due.old.keys) (lead_of self.old k) ≡ false → source_at self.new k ≡ source_at self.old k) }
        ensures kept { OnOk result ((k : ℕ) → has_place due.old.keys k ≡ true → has_place due.new.keys k ≡ true) }
        ensures passed { OnOk result ((k : ℕ) → has_place due.new.keys k ≡ false → IsPassedOver self.new k) }
        ensures forgotten { OnOk result (AreApart self.old → HaveForgotten (F.map facts.now) old.now due.old.keys self.old self.new) }
    {
        self.handed = BTreeMap::new(alloc);
        self.forget_led(alloc, old, facts, due)?;
        put_handed(due, &self.handed)
    }

    /// Loads each source with the facts of its type, which are in the order of their tags, at this clock in milliseconds; no node is found
    /// in it then. It costs a copy of each pattern, the constant tests of each fact, and for those that fit a hash and the logarithm of their number.
    pub fn load<F: Facts>(
        &mut self,
        alloc: Global,
        groups: &[Vec<&Fact>],
        clock: Millis,
        facts: &F,
    ) -> Result<(), NoMemory>
        ensures laid { OnOk result (AreLaidAs self.old self.new) }
        ensures apart { OnOk result (AreApart self.old → AreApart self.new) }
        ensures loaded { OnOk result (AreLoadedWith groups.now clock (F.map facts.now) self.old self.new) }
    {
        let mut list = Vec::with_capacity(alloc, self.list.len())?;
        for source in self.list.as_slice() {
            let loaded = loaded(source, alloc, groups, clock, facts)?;
            list.push(loaded)?;
        }
        self.list = list;
        Ok(())
    }

    fn turn_led<F: Facts>(
        &mut self,
        alloc: Global,
        program: &Program,
        gone: &[&Fact],
        come: Option<&Fact>,
        clock: Millis,
        facts: &F,
        due: &BTreeSet<usize, Global>,
    ) -> Result<(), NoMemory>
        ensures laid { OnOk result (AreLaidAs self.old self.new) }
        ensures reached { OnOk result (AreReachedAs self.old self.new) }
        ensures moved { OnOk result (AreApart self.old → HaveMoved (TurnStep program.now (lent gone.now) (option_map (λ f. f.now) come.entry) clock (F.map facts.now)) (has_place due.now.keys) self.old self.new) }
    {
        if self.list.is_empty() {
            return Ok(());
        }
        for place in due.iter() {
            self.turn_if_led(alloc, program, gone, come, clock, facts, *place)?;
        }
        Ok(())
    }

    // Turns the source of which the node in a place is the first one, if it is that of one.
    fn turn_if_led<F: Facts>(
        &mut self,
        alloc: Global,
        program: &Program,
        gone: &[&Fact],
        come: Option<&Fact>,
        clock: Millis,
        facts: &F,
        place: usize,
    ) -> Result<(), NoMemory>
        ensures laid { OnOk result (AreLaidAs self.old self.new) }
        ensures reached { OnOk result (AreReachedAs self.old self.new) }
        ensures moved { OnOk result (AreApart self.old → HaveMoved (TurnStep program.now (lent gone.now) (option_map (λ f. f.now) come.entry) clock (F.map facts.now)) (eq_by_cmp nat_cmp place) self.old self.new) }
    {
        match self.led_by(place) {
            Some(at) => match self.list.get_mut(at) {
                Some(source) => source.turn(
                    alloc,
                    program,
                    gone,
                    come,
                    clock,
                    facts,
                    &mut self.handed,
                ),
                None => Ok(()),
            },
            None => Ok(()),
        }
    }

    fn forget_led<F: Facts>(
        &mut self,
        alloc: Global,
        old: &[Named],
        facts: &F,
        due: &BTreeSet<usize, Global>,
    ) -> Result<(), NoMemory>
        ensures laid { OnOk result (AreLaidAs self.old self.new) }
        ensures reached { OnOk result (AreReachedAs self.old self.new) }
        ensures moved { OnOk result (AreApart self.old → HaveMoved (λ a b. HaveLeft a b (F.map facts.now) old.now) (has_place due.now.keys) self.old self.new) }
    {
        if self.list.is_empty() {
            return Ok(());
        }
        for place in due.iter() {
            self.forget_if_led(alloc, old, facts, *place)?;
        }
        Ok(())
    }

    // Takes old candidates out of the source of which the node in a place is the first one, if it is that of one.
    fn forget_if_led<F: Facts>(
        &mut self,
        alloc: Global,
        old: &[Named],
        facts: &F,
        place: usize,
    ) -> Result<(), NoMemory>
        ensures laid { OnOk result (AreLaidAs self.old self.new) }
        ensures reached { OnOk result (AreReachedAs self.old self.new) }
        ensures moved { OnOk result (AreApart self.old → HaveMoved (λ a b. HaveLeft a b (F.map facts.now) old.now) (eq_by_cmp nat_cmp place) self.old self.new) }
    {
        match self.led_by(place) {
            Some(at) => match self.list.get_mut(at) {
                Some(source) => source.forget(alloc, old, facts, &mut self.handed),
                None => Ok(()),
            },
            None => Ok(()),
        }
    }

    // The source of which the node in a place is the first one, if it is that of one. Takes no memory.
    fn led_by(&self, place: usize) -> Option<usize>
        ensures some { IfSome result (λ at. (source_place self.now place ≡ Some at) × (is_lead self.now place ≡ true)) }
        ensures none { IsNone result → is_lead self.now place ≡ false }
    {
        match self.lead(place) {
            Some(lead) => {
                if lead == place {
                    self.place_of(place)
                } else {
                    None
                }
            }
            None => None,
        }
    }

    // The place of the source of the node in a place. Takes no memory.
    fn place_of(&self, place: usize) -> Option<usize>
        ensures { result ≡ source_place self.now place }
    {
        match self.of.get(place) {
            Some(at) => *at,
            None => None,
        }
    }
}

// What stands in a place of a list. Takes no memory.
fn found(list: &[usize], at: usize) -> Option<usize>
    ensures { result ≡ slice_get list.now at }
{
    match list.get(at) {
        Some(item) => Some(*item),
        None => None,
    }
}

// The nodes to which something is handed are due.
fn put_handed(
    due: &mut BTreeSet<usize, Global>,
    handed: &BTreeMap<usize, Handed>,
) -> Result<(), NoMemory>
    ensures kept { OnOk result ((k : ℕ) → has_place due.old.keys k ≡ true → has_place due.new.keys k ≡ true) }
    ensures put { OnOk result ((k : ℕ) → has_place due.new.keys k ≡ false → IsUnhanded handed.now k) }
{
    for place in handed.keys() {
        due.insert(*place)?;
    }
    Ok(())
}

// A source of the pattern of another, loaded with the facts of its type.
fn loaded<F: Facts>(
    source: &Source,
    alloc: Global,
    groups: &[Vec<&Fact>],
    clock: Millis,
    facts: &F,
) -> Result<Source, NoMemory>
    ensures { IfOk result (λ loaded. IsLoadedWith source.now.own.pattern (facts_of_type groups.now source.now.own.pattern.ty.0) clock (F.map facts.now) loaded) }
{
    let none = Vec::new(alloc);
    let pattern = source.pattern().copy(alloc)?;
    let given = of_type(groups, &none, pattern.ty);
    let loaded = Source::load(alloc, pattern, given, clock, facts)?;
    Ok(loaded)
}

// The facts of a type, of those by types, or these where it has none. Takes no memory.
fn of_type<'g, 'f>(groups: &'g [Vec<&'f Fact>], none: &'g [&'f Fact], ty: TypeId) -> &'g [&'f Fact]
    ensures { none.now ≡ [] → lent result.now ≡ facts_of_type groups.now ty.0 }
{
    match groups.get(usize::from(ty.0)) {
        Some(facts) => facts.as_slice(),
        None => none,
    }
}
