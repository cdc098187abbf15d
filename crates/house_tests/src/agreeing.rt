ghost use Rattle.rule_world.specs.Programs.{IsRunnable};

use crate::programs::program;
use fact_store::FactStore;
use fx_base::limits::MOST_MILLIS;
use fx_base::{
    Copies, EntryId, Fact, FactId, Facts, Millis, NoMemory, Seq, Tag, Text, Times, TypeId, Value,
};
use rete_net::{Rete, RuleChange};
use row_change::changes_nothing;
use row_delta::{Delta, Row};
use rule_eval::rows_of_rules;
use rule_model::{Moment, Program};
use rule_world::{floor, new_times};
use std::alloc::Global;
use std::mem::replace;

/// A value of a field.
#[derive(Clone, Copy, Debug)]
pub(crate) enum Cell<'a> {
    Int(i64),
    Bool(bool),
    Text(&'a str),
}

/// What happens next to the facts and the clock.
#[derive(Clone, Copy, Debug)]
pub(crate) enum Step<'a> {
    /// A fact of this type comes by the default entry point, with values for its fields in their order. Its id is the next one,
    /// from 1.
    Come(&'a str, &'a [Cell<'a>]),
    /// The same by this entry point.
    ComeBy(&'a str, &'a str, &'a [Cell<'a>]),
    /// The fact of this id gets another value in the field of this place.
    Change(u64, usize, Cell<'a>),
    /// The fact of this id goes; here an observed event may, too.
    Go(u64),
    /// The clock goes to this moment, in milliseconds.
    At(Millis),
    /// No event of this entry point starts before this moment any more.
    Promise(&'a str, Millis),
}

/// The rows of a rule by all differences so far.
#[derive(Drop)]
struct RuleRows {
    rows: Vec<Row>,
    /// Whether some have come, and whether some have gone.
    came: bool,
    went: bool,
}

impl RuleRows {
    fn none(alloc: Global) -> RuleRows {
        RuleRows {
            rows: Vec::new(alloc),
            came: false,
            went: false,
        }
    }

    /// The rows behind a difference; `None` where it has a row on both sides, one that goes and was not there, or one that comes and was.
    fn behind(self, alloc: Global, delta: &Delta) -> Result<Option<RuleRows>, NoMemory> {
        if !is_possible(&self.rows, delta.gone.as_slice(), delta.come.as_slice()) {
            return Ok(None);
        }
        Ok(Some(RuleRows {
            rows: delta.applied(alloc, &self.rows)?,
            came: self.came || !delta.come.as_slice().is_empty(),
            went: self.went || !delta.gone.as_slice().is_empty(),
        }))
    }

    /// Whether these are all rows, in whichever order.
    fn are(&self, alloc: Global, rows: &[Row]) -> Result<bool, NoMemory> {
        let sorted = Delta::between(alloc, &[], rows)?;
        Ok(self.rows.as_slice() == sorted.come.as_slice())
    }
}

/// Whether these rows can go from the first ones, and these come to them.
fn is_possible(rows: &[Row], gone: &[Row], come: &[Row]) -> bool {
    gone.iter().all(|row| rows.contains(row))
        && !come
            .iter()
            .any(|row| rows.contains(row) || gone.contains(row))
}

/// The rows of the rules behind what the network answers for those that change, by their places; `None` where it cannot be so: an
/// answer for no rule, or not in the order of the rules, or one without a row.
fn behind_answers(
    alloc: Global,
    rules: Vec<RuleRows>,
    changes: Vec<RuleChange>,
) -> Result<Option<Vec<RuleRows>>, NoMemory> {
    let mut next = Vec::with_capacity(alloc, rules.len())?;
    let mut rest = changes.into_iter();
    let mut change = rest.next();
    for (place, rule) in rules.into_iter().enumerate() {
        match change {
            Some(found) if usize::from(found.rule.0) == place => {
                if changes_nothing(&found.delta) {
                    return Ok(None);
                }
                let Some(rule) = rule.behind(alloc, &found.delta)? else {
                    return Ok(None);
                };
                next.push(rule)?;
                change = rest.next();
            }
            other => {
                next.push(rule)?;
                change = other;
            }
        }
    }
    Ok(if change.is_none() { Some(next) } else { None })
}

/// No rows of these rules.
fn no_rows(alloc: Global, program: &Program) -> Result<Vec<RuleRows>, NoMemory> {
    let mut rules = Vec::new(alloc);
    for _ in program.rules.as_slice() {
        rules.push(RuleRows::none(alloc))?;
    }
    Ok(rules)
}

/// The type of this name.
fn type_named(program: &Program, name: &str) -> Option<TypeId> {
    for (place, info) in program.types.as_slice().iter().enumerate() {
        if info.name.as_str() == name {
            return u16::try_from(place).ok().map(TypeId);
        }
    }
    None
}

/// The entry point of this name.
fn entry_named(program: &Program, name: &str) -> Option<EntryId> {
    for (place, info) in program.entries.as_slice().iter().enumerate() {
        if info.name.as_str() == name {
            return u16::try_from(place).ok().map(EntryId);
        }
    }
    None
}

fn value_of(alloc: Global, cell: Cell) -> Result<Value, NoMemory> {
    match cell {
        Cell::Int(number) => Ok(Value::Int(number)),
        Cell::Bool(flag) => Ok(Value::Bool(flag)),
        Cell::Text(text) => Ok(Value::Text(Text::new(alloc, text)?)),
    }
}

fn values_of(alloc: Global, cells: &[Cell]) -> Result<Vec<Value>, NoMemory> {
    let mut values = Vec::with_capacity(alloc, cells.len())?;
    for cell in cells {
        values.push(value_of(alloc, *cell)?)?;
    }
    Ok(values)
}

/// What stands at the place of an entry point.
fn moment_at(moments: &[Millis], entry: EntryId) -> Millis {
    moments.get(usize::from(entry.0)).copied().unwrap_or(0)
}

/// 0 for each entry point.
fn zeros(alloc: Global, program: &Program) -> Result<Vec<Millis>, NoMemory> {
    let mut moments = Vec::new(alloc);
    for _ in program.entries.as_slice() {
        moments.push(0)?;
    }
    Ok(moments)
}

/// Holds a fact, whose tag is new.
fn holds(facts: &mut FactStore, fact: Fact) -> bool {
    match facts.fact(fact.tag) {
        Some(_) => false,
        None => facts.put(fact).is_ok(),
    }
}

/// The facts of these tags.
fn facts_at<'f>(
    alloc: Global,
    facts: &'f FactStore,
    tags: &[Tag],
) -> Result<Vec<&'f Fact>, NoMemory> {
    let mut found = Vec::new(alloc);
    for tag in tags {
        if let Some(fact) = facts.fact(*tag) {
            found.push(fact)?;
        }
    }
    Ok(found)
}

/// The tags of the facts that are present at a clock, and at a later one are not.
fn expired(
    alloc: Global,
    program: &Program,
    facts: &FactStore,
    from: Millis,
    to: Millis,
) -> Result<Vec<Tag>, NoMemory> {
    let all = facts.facts(alloc)?;
    let mut tags = Vec::new(alloc);
    for fact in all {
        if program.is_present(from, fact) && !program.is_present(to, fact) {
            tags.push(fact.tag)?;
        }
    }
    Ok(tags)
}

/// A network, the facts that were inserted and did not go, present or not, the clock, and the rows of the rules by all that the network
/// has answered.
#[derive(Drop)]
struct Run {
    net: Rete,
    facts: FactStore,
    clock: Millis,
    /// By the places of the entry points.
    last_starts: Vec<Millis>,
    promises: Vec<Millis>,
    next_id: u64,
    next_tag: u64,
    rules: Vec<RuleRows>,
}

impl Run {
    fn start(alloc: Global, program: &Program) -> Result<Option<Run>, NoMemory> {
        let (net, deltas) = Rete::build(alloc, program)?;
        let Some(rules) = behind_answers(alloc, no_rows(alloc, program)?, deltas)? else {
            return Ok(None);
        };
        Ok(Some(Run {
            net,
            facts: FactStore::new(alloc),
            clock: 0,
            last_starts: zeros(alloc, program)?,
            promises: zeros(alloc, program)?,
            next_id: 1,
            next_tag: 1,
            rules,
        }))
    }

    /// Lets the network take the facts of these tags that go, the one that comes, if one does, and the clock. Whether its answers can be
    /// so.
    fn advance(
        &mut self,
        alloc: Global,
        program: &Program,
        gone: &[Tag],
        come: Option<Tag>,
        clock: Millis,
    ) -> Result<bool, NoMemory> {
        let gone = facts_at(alloc, &self.facts, gone)?;
        let come = match come {
            Some(tag) => self.facts.fact(tag),
            None => None,
        };
        self.clock = clock;
        let moment = Moment {
            clock,
            last_starts: &self.last_starts,
            promises: &self.promises,
        };
        let deltas = self.net.advance(alloc, program, gone.as_slice(), come, &moment, &self.facts)?;
        let rules = replace(&mut self.rules, Vec::new(alloc));
        match behind_answers(alloc, rules, deltas)? {
            Some(rules) => {
                self.rules = rules;
                Ok(true)
            }
            None => Ok(false),
        }
    }

    /// The next fact, if the type and the entry point are there and it may come so late.
    fn new_fact(
        &self,
        alloc: Global,
        program: &Program,
        ty: &str,
        entry: &str,
        cells: &[Cell],
    ) -> Result<Option<Fact>, NoMemory>
        requires { IsRunnable program.now }
    {
        let Some(ty) = type_named(program, ty) else {
            return Ok(None);
        };
        let Some(entry) = entry_named(program, entry) else {
            return Ok(None);
        };
        let fields = values_of(alloc, cells)?;
        match self.times_of(program, ty, entry, &fields) {
            Some(times) => Ok(Some(Fact {
                id: FactId(self.next_id),
                ty,
                entry,
                fields: Seq::from_vec(fields),
                tag: Tag(self.next_tag),
                times,
            })),
            None => Ok(None),
        }
    }

    /// The times of a new fact, if it may come so late.
    #[tactic(auto, unfolding(rule_world::specs::Events::most_millis))]
    fn times_of(
        &self,
        program: &Program,
        ty: TypeId,
        entry: EntryId,
        fields: &[Value],
    ) -> Option<Times>
        requires { IsRunnable program.now }
    {
        let clock = self.clock;
        if clock < 0 || MOST_MILLIS < clock {
            return None;
        }
        let last_start = moment_at(&self.last_starts, entry);
        let promise = moment_at(&self.promises, entry);
        let floor = floor(program, last_start, promise, clock, entry);
        new_times(program, ty, floor, clock, fields).ok()
    }

    /// A fact comes. Of an event that is not present any more the network is told the moment alone.
    fn come(
        &mut self,
        alloc: Global,
        program: &Program,
        ty: &str,
        entry: &str,
        cells: &[Cell],
    ) -> Result<bool, NoMemory>
        requires { IsRunnable program.now }
    {
        let Some(fact) = self.new_fact(alloc, program, ty, entry, cells)? else {
            return Ok(false);
        };
        let (tag, clock) = (fact.tag, self.clock);
        let is_present = program.is_present(clock, &fact);
        let place = usize::from(fact.entry.0);
        if program.is_event(fact.ty) && place < self.last_starts.len() {
            self.last_starts[place] = fact.times.start;
        }
        self.next_id = self.next_id.saturating_add(1);
        self.next_tag = self.next_tag.saturating_add(1);
        if !holds(&mut self.facts, fact) {
            return Ok(false);
        }
        let come = if is_present { Some(tag) } else { None };
        self.advance(alloc, program, &[], come, clock)
    }

    /// An entry point makes a promise.
    fn promise(
        &mut self,
        alloc: Global,
        program: &Program,
        entry: &str,
        from: Millis,
    ) -> Result<bool, NoMemory> {
        let Some(entry) = entry_named(program, entry) else {
            return Ok(false);
        };
        let place = usize::from(entry.0);
        if self.promises.len() <= place || from < self.promises[place] {
            return Ok(false);
        }
        self.promises[place] = from;
        let clock = self.clock;
        self.advance(alloc, program, &[], None, clock)
    }

    /// A fact is exchanged for its next version.
    fn change(
        &mut self,
        alloc: Global,
        program: &Program,
        id: u64,
        place: usize,
        cell: Cell,
    ) -> Result<bool, NoMemory> {
        let Some(fact) = self.facts.get(FactId(id)) else {
            return Ok(false);
        };
        let (old, new, clock) = (fact.tag, Tag(self.next_tag), self.clock);
        let fact = revised(alloc, fact, place, cell, new)?;
        self.next_tag = self.next_tag.saturating_add(1);
        if !holds(&mut self.facts, fact) {
            return Ok(false);
        }
        let can_be = self.advance(alloc, program, &[old], Some(new), clock)?;
        Ok(can_be && self.facts.take(old).is_some())
    }

    /// A fact goes.
    fn go(&mut self, alloc: Global, program: &Program, id: u64) -> Result<bool, NoMemory> {
        let clock = self.clock;
        let tag = match self.facts.get(FactId(id)) {
            Some(fact) if program.is_present(clock, fact) => fact.tag,
            _ => return Ok(false),
        };
        let can_be = self.advance(alloc, program, &[tag], None, clock)?;
        Ok(can_be && self.facts.take(tag).is_some())
    }

    /// The clock goes on. Where it is to be skipped, the network is not told of a move in which nothing expires and for which it is quiet.
    fn at(
        &mut self,
        alloc: Global,
        program: &Program,
        clock: Millis,
        skips: bool,
    ) -> Result<bool, NoMemory> {
        if clock < self.clock {
            return Ok(false);
        }
        let gone = expired(alloc, program, &self.facts, self.clock, clock)?;
        if skips && gone.is_empty() && self.net.is_quiet(clock) {
            self.clock = clock;
            return Ok(true);
        }
        self.advance(alloc, program, gone.as_slice(), None, clock)
    }

    /// Whether the step can be, and what the network answers.
    fn step(
        &mut self,
        alloc: Global,
        program: &Program,
        step: &Step,
        skips: bool,
    ) -> Result<bool, NoMemory>
        requires { IsRunnable program.now }
    {
        match *step {
            Step::Come(ty, cells) => self.come(alloc, program, ty, "DEFAULT", cells),
            Step::ComeBy(entry, ty, cells) => self.come(alloc, program, ty, entry, cells),
            Step::Change(id, place, cell) => self.change(alloc, program, id, place, cell),
            Step::Go(id) => self.go(alloc, program, id),
            Step::At(clock) => self.at(alloc, program, clock, skips),
            Step::Promise(entry, from) => self.promise(alloc, program, entry, from),
        }
    }

    /// Whether each rule has the rows that are found anew.
    fn agrees(&self, alloc: Global, program: &Program) -> Result<bool, NoMemory>
        requires { IsRunnable program.now }
    {
        let facts = self.facts.facts(alloc)?;
        let moment = Moment {
            clock: self.clock,
            last_starts: &self.last_starts,
            promises: &self.promises,
        };
        let found = rows_of_rules(alloc, program, &moment, facts.as_slice())?;
        for (rule, rows) in self.rules.iter().zip(found.iter()) {
            if !rule.are(alloc, rows.as_slice())? {
                return Ok(false);
            }
        }
        Ok(self.rules.len() == found.len())
    }

    /// Whether rows of each rule have come and gone.
    fn has_moved(&self) -> bool {
        self.rules.iter().all(|rule| rule.came && rule.went)
    }
}

/// The next version of a fact, with another value in the field of this place.
fn revised(
    alloc: Global,
    fact: &Fact,
    place: usize,
    cell: Cell,
    tag: Tag,
) -> Result<Fact, NoMemory> {
    let mut fields = fact.fields.copy(alloc)?.into_vec();
    if place < fields.len() {
        fields[place] = value_of(alloc, cell)?;
    }
    Ok(Fact {
        id: fact.id,
        ty: fact.ty,
        entry: fact.entry,
        fields: Seq::from_vec(fields),
        tag,
        times: fact.times,
    })
}

/// Whether the steps can be, and before and behind each of them every rule of the program has by all differences of the network the
/// rows that are found anew.
fn follow(alloc: Global, program: &Program, steps: &[Step], skips: bool) -> Result<bool, NoMemory>
    requires { IsRunnable program.now }
{
    let Some(mut run) = Run::start(alloc, program)? else {
        return Ok(false);
    };
    if !run.agrees(alloc, program)? {
        return Ok(false);
    }
    for step in steps {
        if !run.step(alloc, program, step, skips)? || !run.agrees(alloc, program)? {
            return Ok(false);
        }
    }
    Ok(run.has_moved())
}

/// Whether a rule file is accepted, and before and behind each step every rule has by all differences of the network the rows that are
/// found anew; whether no difference has a row on both sides, one that goes and was not there, or one that comes and was; and whether
/// of each rule a row came and one went. With `skips` the network is not told of moves of the clock for which it is quiet.
pub(crate) fn agree(
    alloc: Global,
    rules: &str,
    steps: &[Step],
    skips: bool,
) -> Result<bool, NoMemory> {
    match program(alloc, rules) {
        Some(program) => follow(alloc, &program, steps, skips),
        None => Ok(false),
    }
}
