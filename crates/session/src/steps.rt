ghost use Rattle.std.specs.Prelude.{◌≡◌, ◌+◌, ◌<◌, ◌≤◌, ◌≤ℤ◌, ◌+ℤ◌, ◌-ℤ◌, ◌&&◌, ◌^◌, pos, true, List, [], ◌∷◌, ◌++◌, length, None, Some, slice_get, IfOk, IfErr, OnOk};
ghost use Rattle.rule_model.specs.declared.program.Program.{Program as ProgramData};
ghost use Rattle.rule_model.specs.declared.step.Step.TheVariants.{Insert, Modify, Retract, Advance, At, Promise, Begin};
ghost use Rattle.rule_model.specs.Types.{is_event, is_observed, is_reference};
ghost use Rattle.rule_world.specs.Events.{most_millis, times_of};
ghost use Rattle.rule_world.specs.Programs.{IsRunnable};
ghost use Rattle.answer_lines.specs.declared.lines.OutLine.{OutLine as OutLineData};
ghost use Rattle.answer_lines.specs.declared.lines.OutLine.TheVariants.{Fault};
ghost use Rattle.session_model.specs.Gives.{new_line, retracted_lines};
ghost use Rattle.session_model.specs.Leading.{AllWantKnown, has_known_places, StandsAfter, StandsAfterAll, StayKnown, Tries, WantsKnown, Writes, WritesAll, WritesFor};
ghost use Rattle.session_model.specs.Standing.{Runs, StaysSound};
ghost use Rattle.session_model.specs.Places.{insert_fault_in};

use crate::copying::copy_of;
use crate::state::State;
use engine::{Detail, OutLine};
use fx_base::{EntryId, Fact, FactId, Millis, NoMemory, Seq, Tag, Times, TypeId, Value};
use rule_model::{Program, Step};
use rule_world::{Code, clock_after, clock_at, floor, new_times, promise_at};
use session_model::{Memory, Setting};
use std::alloc::Global;

/// What the actions of a firing are to do, in their order: a step, or the fault for which an action is refused.
pub(crate) type Plan = Vec<Result<Step, Code>>;

// Whether the facts of a type are events that stay, since some rule observes them.
fn are_observed(program: &Program, ty: TypeId) -> bool
    ensures { result ≡ (is_event program.now ty.0 && is_observed program.now ty.0) }
{
    program.is_event(ty) && program.is_observed(ty)
}

// Whether a fact of a type is not to come any more, once the world has begun.
fn is_fixed(program: &Program, ty: TypeId, begun: bool) -> bool
    ensures { result ≡ (is_reference program.now ty.0 && begun) }
{
    program.is_reference(ty) && begun
}

// The fault changes nothing.
fn refuse(code: Code, lines: &mut Vec<OutLine>) -> Result<(), NoMemory>
    ensures lines { OnOk result (lines.new.items ≡ lines.old.items ++ Fault code ∷ []) }
    ensures known { (p : ProgramData) → OnOk result (StayKnown p lines.old.items lines.new.items) }
{
    lines.push(OutLine::Fault(code))?;
    Ok(())
}

// The line of a new fact, which in full is copied.
fn line_of_new(alloc: Global, detail: Detail, fact: &Fact) -> Result<OutLine, NoMemory>
    ensures { IfOk result (λ line. line ≡ new_line detail fact.now) }
{
    match detail {
        Detail::Brief => Ok(OutLine::New {
            id: fact.id,
            ty: fact.ty,
        }),
        Detail::Full => Ok(OutLine::Inserted(copy_of(alloc, fact)?)),
    }
}

// Tells a retraction, of which in brief nothing is said.
fn tell_retracted(
    detail: Detail,
    ty: TypeId,
    id: FactId,
    lines: &mut Vec<OutLine>,
) -> Result<(), NoMemory>
    ensures { OnOk result (lines.new.items ≡ lines.old.items ++ retracted_lines detail ty id) }
{
    match detail {
        Detail::Brief => Ok(()),
        Detail::Full => {
            lines.push(OutLine::Retracted { id, ty })?;
            Ok(())
        }
    }
}

// Steps and their faults.
impl State {
    // The times of a new fact with these values, or its fault.
    fn times_for(
        &self,
        program: &Program,
        ty: TypeId,
        entry: EntryId,
        fields: &[Value],
    ) -> Result<Times, Code>
        requires { IsRunnable program.now }
        ensures times { IfOk result (λ times. times ≡ times_of (slice_get program.now.types ty.0) self.now.clock fields.now) }
        ensures low { IfOk result (λ times. (pos 0 -ℤ most_millis) ≤ℤ times.start) }
        ensures high { IfOk result (λ times. times.start ≤ℤ most_millis) }
        ensures end_low { IfOk result (λ times. (pos 0 -ℤ most_millis) ≤ℤ times.end) }
        ensures end_high { IfOk result (λ times. times.end ≤ℤ (most_millis +ℤ most_millis)) }
        ensures none { IfOk result (λ _. insert_fault_in program.now self.now ty.0 entry.0 fields.now ≡ None) }
        ensures fault { IfErr result (λ code. insert_fault_in program.now self.now ty.0 entry.0 fields.now ≡ Some code) }
    {
        if is_fixed(program, ty, self.course.begun()) {
            return Err(Code::ReferenceFixed);
        }
        let floor = floor(
            program,
            self.course.last_start(entry),
            self.course.promise(entry),
            self.clock,
            entry,
        );
        new_times(program, ty, floor, self.clock, fields)
    }

    // A new fact with the next numbers.
    fn insert(
        &mut self,
        alloc: Global,
        setting: &Setting,
        memory: &mut Memory,
        ty: TypeId,
        entry: EntryId,
        fields: Seq<Value>,
        lines: &mut Vec<OutLine>,
    ) -> Result<(), NoMemory>
        requires runs { Runs setting.now }
        requires low { self.old.next_tag < 2 ^ 63 }
        ensures stands { OnOk result (Tries setting.now memory.old self.old (Insert ty entry fields) memory.new self.new) }
        ensures lines { OnOk result (Writes setting.now memory.old self.old (Insert ty entry fields) lines.old.items lines.new.items) }
        ensures tags { OnOk result (self.new.next_tag ≤ self.old.next_tag + 1) }
        ensures sound { has_known_places setting.now.program (Insert ty entry fields) ≡ true → OnOk result (StaysSound setting.now.program memory.old self.old memory.new self.new) }
        ensures known { has_known_places setting.now.program (Insert ty entry fields) ≡ true → OnOk result (StayKnown setting.now.program lines.old.items lines.new.items) }
    {
        match self.times_for(&setting.program, ty, entry, fields.as_slice()) {
            Ok(times) => {
                let fact = Fact {
                    id: FactId(self.next_id),
                    ty,
                    entry,
                    fields,
                    tag: Tag(self.next_tag),
                    times,
                };
                lines.push(line_of_new(alloc, setting.detail, &fact)?)?;
                self.take_new(alloc, setting, memory, fact)
            }
            Err(code) => refuse(code, lines),
        }
    }

    // Other values in some fields of the fact of the id.
    fn modify(
        &mut self,
        alloc: Global,
        setting: &Setting,
        memory: &mut Memory,
        id: FactId,
        sets: Seq<(usize, Value)>,
        lines: &mut Vec<OutLine>,
    ) -> Result<(), NoMemory>
        requires runs { Runs setting.now }
        requires low { self.old.next_tag < 2 ^ 63 }
        ensures stands { OnOk result (Tries setting.now memory.old self.old (Modify id sets) memory.new self.new) }
        ensures lines { OnOk result (Writes setting.now memory.old self.old (Modify id sets) lines.old.items lines.new.items) }
        ensures tags { OnOk result (self.new.next_tag ≤ self.old.next_tag + 1) }
        ensures sound { OnOk result (StaysSound setting.now.program memory.old self.old memory.new self.new) }
        ensures known { has_known_places setting.now.program (Modify id sets) ≡ true → OnOk result (StayKnown setting.now.program lines.old.items lines.new.items) }
    {
        match self.modifiable(&setting.program, id) {
            Ok(tag) => self.take_sets(alloc, setting, memory, id, tag, sets, lines),
            Err(code) => refuse(code, lines),
        }
    }

    // The fact of the type and the id taken away. An event that is not there is none to take away.
    fn retract(
        &mut self,
        alloc: Global,
        setting: &Setting,
        memory: &mut Memory,
        ty: TypeId,
        id: FactId,
        lines: &mut Vec<OutLine>,
    ) -> Result<(), NoMemory>
        requires runs { Runs setting.now }
        ensures stands { OnOk result (Tries setting.now memory.old self.old (Retract ty id) memory.new self.new) }
        ensures lines { OnOk result (Writes setting.now memory.old self.old (Retract ty id) lines.old.items lines.new.items) }
        ensures tags { OnOk result (self.new.next_tag ≡ self.old.next_tag) }
        ensures sound { OnOk result (StaysSound setting.now.program memory.old self.old memory.new self.new) }
        ensures known { has_known_places setting.now.program (Retract ty id) ≡ true → OnOk result (StayKnown setting.now.program lines.old.items lines.new.items) }
    {
        if are_observed(&setting.program, ty) {
            return refuse(Code::EventObserved, lines);
        }
        if setting.program.is_reference(ty) {
            return refuse(Code::ReferenceFixed, lines);
        }
        match self.tag_of(ty, id) {
            Some(tag) => {
                tell_retracted(setting.detail, ty, id, lines)?;
                self.take_away(alloc, setting, memory, ty, id, tag)
            }
            None if setting.program.is_event(ty) => {
                tell_retracted(setting.detail, ty, id, lines)?;
                self.take_away_forgotten(alloc, setting, memory, ty, id)
            }
            None => refuse(Code::Absent, lines),
        }
    }

    // The clock so many milliseconds later.
    fn advance(
        &mut self,
        alloc: Global,
        setting: &Setting,
        memory: &mut Memory,
        by: Millis,
        lines: &mut Vec<OutLine>,
    ) -> Result<(), NoMemory>
        requires runs { Runs setting.now }
        ensures stands { OnOk result (Tries setting.now memory.old self.old (Advance by) memory.new self.new) }
        ensures lines { OnOk result (Writes setting.now memory.old self.old (Advance by) lines.old.items lines.new.items) }
        ensures tags { OnOk result (self.new.next_tag ≡ self.old.next_tag) }
        ensures sound { OnOk result (StaysSound setting.now.program memory.old self.old memory.new self.new) }
        ensures known { has_known_places setting.now.program (Advance by) ≡ true → OnOk result (StayKnown setting.now.program lines.old.items lines.new.items) }
    {
        match clock_after(self.clock, by) {
            Ok(clock) => self.take_clock(alloc, setting, memory, clock),
            Err(code) => refuse(code, lines),
        }
    }

    // The clock at this moment.
    fn go_to(
        &mut self,
        alloc: Global,
        setting: &Setting,
        memory: &mut Memory,
        moment: Millis,
        lines: &mut Vec<OutLine>,
    ) -> Result<(), NoMemory>
        requires runs { Runs setting.now }
        ensures stands { OnOk result (Tries setting.now memory.old self.old (At moment) memory.new self.new) }
        ensures lines { OnOk result (Writes setting.now memory.old self.old (At moment) lines.old.items lines.new.items) }
        ensures tags { OnOk result (self.new.next_tag ≡ self.old.next_tag) }
        ensures sound { OnOk result (StaysSound setting.now.program memory.old self.old memory.new self.new) }
        ensures known { has_known_places setting.now.program (At moment) ≡ true → OnOk result (StayKnown setting.now.program lines.old.items lines.new.items) }
    {
        match clock_at(self.clock, moment) {
            Ok(clock) => self.take_clock(alloc, setting, memory, clock),
            Err(code) => refuse(code, lines),
        }
    }

    // The entry point's promise at this moment.
    fn promise_from(
        &mut self,
        alloc: Global,
        setting: &Setting,
        memory: &mut Memory,
        entry: EntryId,
        from: Millis,
        lines: &mut Vec<OutLine>,
    ) -> Result<(), NoMemory>
        requires runs { Runs setting.now }
        ensures stands { OnOk result (Tries setting.now memory.old self.old (Promise entry from) memory.new self.new) }
        ensures lines { OnOk result (Writes setting.now memory.old self.old (Promise entry from) lines.old.items lines.new.items) }
        ensures tags { OnOk result (self.new.next_tag ≡ self.old.next_tag) }
        ensures sound { has_known_places setting.now.program (Promise entry from) ≡ true → OnOk result (StaysSound setting.now.program memory.old self.old memory.new self.new) }
        ensures known { has_known_places setting.now.program (Promise entry from) ≡ true → OnOk result (StayKnown setting.now.program lines.old.items lines.new.items) }
    {
        match promise_at(self.course.promise(entry), from) {
            Ok(from) => self.take_promise(alloc, setting, memory, entry, from),
            Err(code) => refuse(code, lines),
        }
    }

    // The world has begun, which has no fault and no line.
    fn begin(
        &mut self,
        alloc: Global,
        setting: &Setting,
        memory: &mut Memory,
    ) -> Result<(), NoMemory>
        requires runs { Runs setting.now }
        ensures stands { OnOk result (Tries setting.now memory.old self.old Begin memory.new self.new) }
        ensures lines { (lines : List OutLineData) → Writes setting.now memory.old self.old Begin lines lines }
        ensures tags { OnOk result (self.new.next_tag ≡ self.old.next_tag) }
        ensures sound { OnOk result (StaysSound setting.now.program memory.old self.old memory.new self.new) }
    {
        self.take_begin(alloc, setting, memory)
    }

    // A step, whose line is added to these, or its fault.
    fn step(
        &mut self,
        alloc: Global,
        setting: &Setting,
        memory: &mut Memory,
        step: Step,
        lines: &mut Vec<OutLine>,
    ) -> Result<(), NoMemory>
        requires runs { Runs setting.now }
        requires low { self.old.next_tag < 2 ^ 63 }
        ensures stands { OnOk result (Tries setting.now memory.old self.old step memory.new self.new) }
        ensures lines { OnOk result (Writes setting.now memory.old self.old step lines.old.items lines.new.items) }
        ensures tags { OnOk result (self.new.next_tag ≤ self.old.next_tag + 1) }
        ensures sound { has_known_places setting.now.program step ≡ true → OnOk result (StaysSound setting.now.program memory.old self.old memory.new self.new) }
        ensures known { has_known_places setting.now.program step ≡ true → OnOk result (StayKnown setting.now.program lines.old.items lines.new.items) }
    {
        match step {
            Step::Insert { ty, entry, fields } => {
                self.insert(alloc, setting, memory, ty, entry, fields, lines)
            }
            Step::Modify { id, sets } => self.modify(alloc, setting, memory, id, sets, lines),
            Step::Retract { ty, id } => self.retract(alloc, setting, memory, ty, id, lines),
            Step::Advance(by) => self.advance(alloc, setting, memory, by, lines),
            Step::At(moment) => self.go_to(alloc, setting, memory, moment, lines),
            Step::Begin => self.begin(alloc, setting, memory),
            Step::Promise { entry, from } => {
                self.promise_from(alloc, setting, memory, entry, from, lines)
            }
        }
    }

    /// Does a step, or refuses it for its fault, and adds the line of either.
    pub(crate) fn apply(
        &mut self,
        alloc: Global,
        setting: &Setting,
        memory: &mut Memory,
        wanted: Result<Step, Code>,
        lines: &mut Vec<OutLine>,
    ) -> Result<(), NoMemory>
        requires runs { Runs setting.now }
        requires low { self.old.next_tag < 2 ^ 63 }
        ensures stands { OnOk result (StandsAfter setting.now memory.old self.old wanted memory.new self.new) }
        ensures lines { OnOk result (WritesFor setting.now memory.old self.old wanted lines.old.items lines.new.items) }
        ensures tags { OnOk result (self.new.next_tag ≤ self.old.next_tag + 1) }
        ensures sound { WantsKnown setting.now.program wanted → OnOk result (StaysSound setting.now.program memory.old self.old memory.new self.new) }
        ensures known { WantsKnown setting.now.program wanted → OnOk result (StayKnown setting.now.program lines.old.items lines.new.items) }
    {
        match wanted {
            Ok(step) => self.step(alloc, setting, memory, step, lines),
            Err(code) => refuse(code, lines),
        }
    }

    /// The same for steps and faults one after the other: one that is refused stops none of the later ones.
    pub(crate) fn apply_all(
        &mut self,
        alloc: Global,
        setting: &Setting,
        memory: &mut Memory,
        plan: Plan,
        lines: &mut Vec<OutLine>,
    ) -> Result<(), NoMemory>
        requires runs { Runs setting.now }
        requires low { self.old.next_tag + length plan.items ≤ 2 ^ 63 }
        ensures stands { OnOk result (StandsAfterAll setting.now memory.old self.old plan.items memory.new self.new) }
        ensures lines { OnOk result (WritesAll setting.now memory.old self.old plan.items lines.old.items lines.new.items) }
        ensures tags { OnOk result (self.new.next_tag ≤ self.old.next_tag + length plan.items) }
        ensures sound { AllWantKnown setting.now.program plan.items → OnOk result (StaysSound setting.now.program memory.old self.old memory.new self.new) }
        ensures known { AllWantKnown setting.now.program plan.items → OnOk result (StayKnown setting.now.program lines.old.items lines.new.items) }
    {
        for wanted in plan {
            self.apply(alloc, setting, memory, wanted, lines)?;
        }
        Ok(())
    }
}
