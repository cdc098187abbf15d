ghost use Rattle.std.specs.Prelude.{◌≡◌, ◌+◌, ◌<◌, ◌^◌, ◌≤ℤ◌, ◌+ℤ◌, ◌-ℤ◌, ◌==◌, ◌&&◌, ◌++◌, not, ℕ, pos, true, false, None, Some, length, nat_lt, slice_get, is_some, cond, IfOk, OnOk, OnErr};
ghost use Rattle.rule_model.specs.Lives.{AreShort, IsShortLife};
ghost use Rattle.rule_model.specs.declared.step.Step.TheVariants.{Insert, Modify, Retract, At, Promise, Begin};
ghost use Rattle.rule_model.specs.Candidates.{is_present};
ghost use Rattle.rule_world.specs.Events.{end_of_presence, most_millis, times_of};
ghost use Rattle.rule_world.specs.Programs.{IsRunnable};
ghost use Rattle.rule_world.specs.Worlds.{with_values, is_of_type, modify_fault, revised as revised_fact};
ghost use Rattle.retention.specs.Retentions.{lingers};
ghost use Rattle.forgetting_laws.specs.Sights.{end_of_life, ends_by};
ghost use Rattle.session_model.specs.Gives.{modified_lines, revision};
ghost use Rattle.session_model.specs.Leading.{MovesSession};
ghost use Rattle.session_model.specs.Places.{IsNewestTag, newest};
ghost use Rattle.session_model.specs.Standing.{Runs, StaysSound};
ghost use Rattle.session_model.specs.Waiting.{with_timer, without_timer};
ghost use Rattle.std.specs.FinMap as map;

use crate::copying::copy_of;
use crate::refreshing::{follow, take_all, take_fact};
use crate::state::State;
use due_queue::DueQueue;
use engine::{Detail, OutLine};
use fact_store::FactStore;
use fx_base::{Copies, EntryId, Fact, FactId, Facts, Millis, NoMemory, Seq, Tag, TypeId, Value};
use retention::Retention;
use rule_model::{Life, LifeTable, Program};
use rule_world::presence_end;
use session_model::{Memory, Setting};
use std::alloc::Global;

// The fields with these values in these places.
fn values_with(fields: Vec<Value>, sets: Vec<(usize, Value)>) -> Vec<Value>
    ensures { result.items ≡ with_values sets.items fields.items }
{
    let mut fields = fields;
    for (place, value) in sets {
        if place < fields.len() {
            fields[place] = value;
        }
    }
    fields
}

// The next version of a fact.
fn revised(
    alloc: Global,
    fact: &Fact,
    sets: Seq<(usize, Value)>,
    tag: Tag,
) -> Result<Fact, NoMemory>
    ensures { IfOk result (λ f. f ≡ revised_fact tag.0 sets fact.now) }
{
    let fields = fact.fields.copy(alloc)?;
    Ok(Fact {
        id: fact.id,
        ty: fact.ty,
        entry: fact.entry,
        fields: Seq::from_vec(values_with(fields.into_vec(), sets.into_vec())),
        tag,
        times: fact.times,
    })
}

// Tells the version that a modification made, of which in brief nothing is said.
fn tell_modified(
    alloc: Global,
    detail: Detail,
    fact: &Fact,
    lines: &mut Vec<OutLine>,
) -> Result<(), NoMemory>
    ensures { OnOk result (lines.new.items ≡ lines.old.items ++ modified_lines detail (Some fact.now)) }
{
    match detail {
        Detail::Brief => Ok(()),
        Detail::Full => {
            lines.push(OutLine::Modified(copy_of(alloc, fact)?))?;
            Ok(())
        }
    }
}

/// Holds one fact more, whose tag is new. Where memory is refused, nothing changes.
pub(crate) fn put_fact(facts: &mut FactStore, fact: Fact) -> Result<(), NoMemory>
    requires { map.get facts.old fact.tag.0 ≡ None }
    ensures ok { OnOk result (facts.new ≡ map.insert facts.old fact.tag.0 fact) }
    ensures err { OnErr result (facts.new ≡ facts.old) }
{
    match facts.put(fact) {
        Ok(()) => Ok(()),
        Err((_, refused)) => Err(refused),
    }
}

/// Lets a fact wait for its end, if it expires; its tag is new. Where memory is refused, nothing changes.
pub(crate) fn put_timer(
    expiries: &mut DueQueue,
    program: &Program,
    fact: &Fact,
) -> Result<(), NoMemory>
    requires runnable { IsRunnable program.now }
    requires low { (pos 0 -ℤ most_millis) ≤ℤ fact.now.times.start }
    requires high { fact.now.times.start ≤ℤ most_millis }
    requires fresh { map.get expiries.old fact.now.tag.0 ≡ None }
    ensures ok { OnOk result (expiries.new ≡ with_timer expiries.old fact.now.tag.0 (end_of_presence program.now fact.now.ty.0 fact.now.times.start)) }
    ensures err { OnErr result (expiries.new ≡ expiries.old) }
{
    match presence_end(program, fact.ty, fact.times.start) {
        Some(moment) => expiries.put(moment, fact.tag.0),
        None => Ok(()),
    }
}

// Takes out the timer of a tag, if it has one.
fn take_timer(expiries: &mut DueQueue, tag: Tag)
    ensures { (other : ℕ) → map.get expiries.new other ≡ without_timer expiries.old tag.0 other }
{
    expiries.cancel(tag.0);
}

// The first moment at which an event of this end is past a finite life.
#[tactic(auto, unfolding(rule_world::specs::Events::most_millis))]
fn past_finite(end: Millis, life: Millis) -> Millis
    requires low { (pos 0 -ℤ most_millis) ≤ℤ end }
    requires high { end ≤ℤ (most_millis +ℤ most_millis) }
    requires forward { pos 0 ≤ℤ life }
    requires short { life ≤ℤ pos (2 ^ 62) }
    ensures { result ≡ (end +ℤ life) +ℤ pos 1 }
{
    end + life + 1
}

// The first moment at which an event is past a life, where that ends.
fn past_from(life: &Life, fact: &Fact) -> Option<Millis>
    requires short { IsShortLife life.now }
    requires low { (pos 0 -ℤ most_millis) ≤ℤ fact.now.times.end }
    requires high { fact.now.times.end ≤ℤ (most_millis +ℤ most_millis) }
    ensures { result ≡ end_of_life (Some life.now) fact.now }
{
    match life {
        Life::Finite(life) => Some(past_finite(fact.times.end, *life)),
        Life::Plain => None,
        Life::Explicit(_) => None,
        Life::Infinite => None,
    }
}

/// The first moment at which an event is past its life, where that ends.
pub(crate) fn life_end(lives: &LifeTable, fact: &Fact) -> Option<Millis>
    requires short { AreShort lives.now }
    requires low { (pos 0 -ℤ most_millis) ≤ℤ fact.now.times.end }
    requires high { fact.now.times.end ≤ℤ (most_millis +ℤ most_millis) }
    ensures { result ≡ ends_by lives.now fact.now }
{
    match lives.lives.as_slice().get(fact.ty.0 as usize) {
        Some(life) => past_from(life, fact),
        None => None,
    }
}

/// Holds a new event whose life ends until this moment.
pub(crate) fn hold(
    retention: &mut Retention,
    tag: Tag,
    past_from: Option<Millis>,
) -> Result<(), NoMemory>
    ensures due { OnOk result ((other : ℕ) → map.get retention.new.due other ≡ cond (other == tag.0 && is_some past_from) past_from (map.get retention.old.due other)) }
    ensures lingering { OnOk result ((other : ℕ) → lingers retention.new other ≡ (lingers retention.old other && not (other == tag.0 && is_some past_from))) }
{
    match past_from {
        Some(moment) => {
            retention.release(tag);
            retention.hold(tag, moment)
        }
        None => Ok(()),
    }
}

// What steps without a fault move, and then what is old is forgotten.
impl State {
    /// Takes in a fact, which has the next numbers. Of an event that is not present any more the numbers and the start stay alone.
    pub(crate) fn take_new(
        &mut self,
        alloc: Global,
        setting: &Setting,
        memory: &mut Memory,
        fact: Fact,
    ) -> Result<(), NoMemory>
        requires runs { Runs setting.now }
        requires low { self.old.next_tag < 2 ^ 63 }
        requires id { fact.id.0 ≡ self.old.next_id }
        requires tag { fact.tag.0 ≡ self.old.next_tag }
        requires times { fact.times ≡ times_of (slice_get setting.now.program.types fact.ty.0) self.old.clock fact.fields }
        requires start_low { (pos 0 -ℤ most_millis) ≤ℤ fact.times.start }
        requires start_high { fact.times.start ≤ℤ most_millis }
        requires end_low { (pos 0 -ℤ most_millis) ≤ℤ fact.times.end }
        requires end_high { fact.times.end ≤ℤ (most_millis +ℤ most_millis) }
        ensures stands { OnOk result (MovesSession setting.now memory.old self.old (Insert fact.ty fact.entry fact.fields) memory.new self.new) }
        ensures tags { OnOk result (self.new.next_tag ≡ self.old.next_tag + 1) }
        ensures sound { nat_lt fact.entry.0 (length setting.now.program.entries) ≡ true → OnOk result (StaysSound setting.now.program memory.old self.old memory.new self.new) }
    {
        if setting.program.is_present(self.clock, &fact) {
            self.take_present(alloc, setting, memory, fact)
        } else {
            self.take_numbers(alloc, setting, memory, &fact)
        }
    }

    // The same with a fact that is present.
    fn take_present(
        &mut self,
        alloc: Global,
        setting: &Setting,
        memory: &mut Memory,
        fact: Fact,
    ) -> Result<(), NoMemory>
        requires runs { Runs setting.now }
        requires low { self.old.next_tag < 2 ^ 63 }
        requires id { fact.id.0 ≡ self.old.next_id }
        requires tag { fact.tag.0 ≡ self.old.next_tag }
        requires times { fact.times ≡ times_of (slice_get setting.now.program.types fact.ty.0) self.old.clock fact.fields }
        requires start_low { (pos 0 -ℤ most_millis) ≤ℤ fact.times.start }
        requires start_high { fact.times.start ≤ℤ most_millis }
        requires end_low { (pos 0 -ℤ most_millis) ≤ℤ fact.times.end }
        requires end_high { fact.times.end ≤ℤ (most_millis +ℤ most_millis) }
        requires present { is_present setting.now.program self.old.clock fact ≡ true }
        ensures stands { OnOk result (MovesSession setting.now memory.old self.old (Insert fact.ty fact.entry fact.fields) memory.new self.new) }
        ensures tags { OnOk result (self.new.next_tag ≡ self.old.next_tag + 1) }
        ensures sound { nat_lt fact.entry.0 (length setting.now.program.entries) ≡ true → OnOk result (StaysSound setting.now.program memory.old self.old memory.new self.new) }
    {
        let tag = fact.tag;
        let program = &setting.program;
        self.next_id += 1;
        self.next_tag += 1;
        self.course.take_new(program, &fact)?;
        hold(&mut memory.retention, tag, life_end(&setting.lives, &fact))?;
        put_timer(&mut self.expiries, program, &fact)?;
        put_fact(&mut self.facts, fact)?;
        let moment = self.course.moment(self.clock);
        let left = follow(
            alloc,
            program,
            &mut memory.net,
            &mut self.agenda,
            &self.facts,
            &[],
            self.facts.fact(tag),
            &moment,
        )?;
        self.settle(alloc, setting, memory, left.as_slice())
    }

    // The same with an event that is not present any more. Its start may end the waiting of a `not`.
    fn take_numbers(
        &mut self,
        alloc: Global,
        setting: &Setting,
        memory: &mut Memory,
        fact: &Fact,
    ) -> Result<(), NoMemory>
        requires runs { Runs setting.now }
        requires low { self.old.next_tag < 2 ^ 63 }
        requires id { fact.now.id.0 ≡ self.old.next_id }
        requires tag { fact.now.tag.0 ≡ self.old.next_tag }
        requires times { fact.now.times ≡ times_of (slice_get setting.now.program.types fact.now.ty.0) self.old.clock fact.now.fields }
        requires absent { is_present setting.now.program self.old.clock fact.now ≡ false }
        ensures stands { OnOk result (MovesSession setting.now memory.old self.old (Insert fact.now.ty fact.now.entry fact.now.fields) memory.new self.new) }
        ensures tags { OnOk result (self.new.next_tag ≡ self.old.next_tag + 1) }
        ensures sound { nat_lt fact.now.entry.0 (length setting.now.program.entries) ≡ true → OnOk result (StaysSound setting.now.program memory.old self.old memory.new self.new) }
    {
        self.next_id += 1;
        self.next_tag += 1;
        self.course.take_new(&setting.program, fact)?;
        let moment = self.course.moment(self.clock);
        let left = follow(
            alloc,
            &setting.program,
            &mut memory.net,
            &mut self.agenda,
            &self.facts,
            &[],
            None,
            &moment,
        )?;
        self.settle(alloc, setting, memory, left.as_slice())
    }

    /// Modifies the plain fact of the id, which has this tag and is there, and adds the line of that.
    pub(crate) fn take_sets(
        &mut self,
        alloc: Global,
        setting: &Setting,
        memory: &mut Memory,
        id: FactId,
        tag: Tag,
        sets: Seq<(usize, Value)>,
        lines: &mut Vec<OutLine>,
    ) -> Result<(), NoMemory>
        requires runs { Runs setting.now }
        requires low { self.old.next_tag < 2 ^ 63 }
        requires tag { IsNewestTag self.old.facts id.0 tag }
        requires plain { modify_fault setting.now.program (newest self.old id.0) ≡ None }
        ensures stands { OnOk result (MovesSession setting.now memory.old self.old (Modify id sets) memory.new self.new) }
        ensures lines { OnOk result (lines.new.items ≡ lines.old.items ++ modified_lines setting.now.detail (revision self.old.next_tag sets (map.get self.old.facts tag.0))) }
        ensures tags { OnOk result (self.new.next_tag ≡ self.old.next_tag + 1) }
        ensures sound { OnOk result (StaysSound setting.now.program memory.old self.old memory.new self.new) }
    {
        let next = Tag(self.next_tag);
        let before = self.facts.fact(tag).unwrap();
        let after = revised(alloc, before, sets, next)?;
        tell_modified(alloc, setting.detail, &after, lines)?;
        self.next_tag += 1;
        put_fact(&mut self.facts, after)?;
        let moment = self.course.moment(self.clock);
        let left = follow(
            alloc,
            &setting.program,
            &mut memory.net,
            &mut self.agenda,
            &self.facts,
            &[tag.0],
            self.facts.fact(next),
            &moment,
        )?;
        take_fact(&mut self.facts, tag);
        self.settle(alloc, setting, memory, left.as_slice())
    }

    /// Takes away the fact of the type and the id, which has this tag and is there.
    pub(crate) fn take_away(
        &mut self,
        alloc: Global,
        setting: &Setting,
        memory: &mut Memory,
        ty: TypeId,
        id: FactId,
        tag: Tag,
    ) -> Result<(), NoMemory>
        requires runs { Runs setting.now }
        requires tag { IsNewestTag self.old.facts id.0 tag }
        requires of_type { is_of_type ty.0 (newest self.old id.0) ≡ true }
        ensures stands { OnOk result (MovesSession setting.now memory.old self.old (Retract ty id) memory.new self.new) }
        ensures tags { OnOk result (self.new.next_tag ≡ self.old.next_tag) }
        ensures sound { OnOk result (StaysSound setting.now.program memory.old self.old memory.new self.new) }
    {
        let moment = self.course.moment(self.clock);
        let left = follow(
            alloc,
            &setting.program,
            &mut memory.net,
            &mut self.agenda,
            &self.facts,
            &[tag.0],
            None,
            &moment,
        )?;
        take_fact(&mut self.facts, tag);
        take_timer(&mut self.expiries, tag);
        memory.retention.release(tag);
        self.settle(alloc, setting, memory, left.as_slice())
    }

    /// Takes away the event of the type and the id, which is not held: none is there, or it is forgotten.
    pub(crate) fn take_away_forgotten(
        &mut self,
        alloc: Global,
        setting: &Setting,
        memory: &mut Memory,
        ty: TypeId,
        id: FactId,
    ) -> Result<(), NoMemory>
        requires runs { Runs setting.now }
        requires absent { is_of_type ty.0 (newest self.old id.0) ≡ false }
        ensures stands { OnOk result (MovesSession setting.now memory.old self.old (Retract ty id) memory.new self.new) }
        ensures tags { OnOk result (self.new.next_tag ≡ self.old.next_tag) }
        ensures sound { OnOk result (StaysSound setting.now.program memory.old self.old memory.new self.new) }
    {
        self.settle(alloc, setting, memory, &[])
    }

    /// An entry point promises a moment. It costs a look at each node, and of a row that waits no longer what the network says.
    pub(crate) fn take_promise(
        &mut self,
        alloc: Global,
        setting: &Setting,
        memory: &mut Memory,
        entry: EntryId,
        from: Millis,
    ) -> Result<(), NoMemory>
        requires runs { Runs setting.now }
        ensures stands { OnOk result (MovesSession setting.now memory.old self.old (Promise entry from) memory.new self.new) }
        ensures tags { OnOk result (self.new.next_tag ≡ self.old.next_tag) }
        ensures sound { nat_lt entry.0 (length setting.now.program.entries) ≡ true → OnOk result (StaysSound setting.now.program memory.old self.old memory.new self.new) }
    {
        self.course.take_promise(entry, from)?;
        let moment = self.course.moment(self.clock);
        let left = follow(
            alloc,
            &setting.program,
            &mut memory.net,
            &mut self.agenda,
            &self.facts,
            &[],
            None,
            &moment,
        )?;
        self.settle(alloc, setting, memory, left.as_slice())
    }

    /// The world begins. No row asks for that, so the network is not asked.
    pub(crate) fn take_begin(
        &mut self,
        alloc: Global,
        setting: &Setting,
        memory: &mut Memory,
    ) -> Result<(), NoMemory>
        requires runs { Runs setting.now }
        ensures stands { OnOk result (MovesSession setting.now memory.old self.old Begin memory.new self.new) }
        ensures tags { OnOk result (self.new.next_tag ≡ self.old.next_tag) }
        ensures sound { OnOk result (StaysSound setting.now.program memory.old self.old memory.new self.new) }
    {
        self.course.take_begin();
        self.settle(alloc, setting, memory, &[])
    }

    /// Moves the clock, and takes away the events that are not present any more. Where nothing is due it costs a look at the queue of
    /// expiries, one at the network's least moment and one at the ends of lives.
    pub(crate) fn take_clock(
        &mut self,
        alloc: Global,
        setting: &Setting,
        memory: &mut Memory,
        clock: Millis,
    ) -> Result<(), NoMemory>
        requires runs { Runs setting.now }
        requires low { pos 0 ≤ℤ clock }
        requires high { clock ≤ℤ most_millis }
        requires later { self.old.clock ≤ℤ clock }
        ensures stands { OnOk result (MovesSession setting.now memory.old self.old (At clock) memory.new self.new) }
        ensures tags { OnOk result (self.new.next_tag ≡ self.old.next_tag) }
        ensures sound { OnOk result (StaysSound setting.now.program memory.old self.old memory.new self.new) }
    {
        let due = self.expiries.take_due(clock)?;
        if due.is_empty() && memory.net.is_quiet(clock) {
            self.clock = clock;
            return self.settle(alloc, setting, memory, &[]);
        }
        let moment = self.course.moment(clock);
        let left = follow(
            alloc,
            &setting.program,
            &mut memory.net,
            &mut self.agenda,
            &self.facts,
            due.as_slice(),
            None,
            &moment,
        )?;
        take_all(&mut self.facts, due);
        self.clock = clock;
        self.settle(alloc, setting, memory, left.as_slice())
    }
}
