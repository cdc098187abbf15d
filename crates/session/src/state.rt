ghost use Rattle.std.specs.Prelude.{◌≡◌, ◌-◌, [], pos, IfOk, option_map, false, true, IsSome, IsNone, IfSome, IfErr, None, Some};
ghost use Rattle.rule_model.specs.Matches.{fire_cmp};
ghost use Rattle.rule_model.specs.First.{first};
ghost use Rattle.rule_world.specs.Worlds.{modify_fault, is_of_type};
ghost use Rattle.session_model.specs.Places.{IsNewestTag, newest};
ghost use Rattle.std.specs.FinMap as map;

use crate::course::Course;
use agenda::Agenda;
use change_resolve::Present;
use due_queue::DueQueue;
use fact_store::FactStore;
use fx_base::{Fact, FactId, Millis, Tag, TypeId};
use rule_model::{Match, Program};
use rule_world::Code;
use std::alloc::Global;
use std::marker::Model;

/// What a session keeps of its world: the facts that are present by their tags, the moments at which they expire, the clock, the course
/// so far, the agenda and the next numbers.
#[derive(Drop)]
pub(crate) struct State {
    pub(crate) facts: FactStore,
    /// The tags of the events that expire, with the moments from which they are not present.
    pub(crate) expiries: DueQueue,
    /// In milliseconds, from 0 to 2^53.
    pub(crate) clock: Millis,
    pub(crate) course: Course,
    pub(crate) agenda: Agenda,
    pub(crate) next_id: u64,
    pub(crate) next_tag: u64,
}

impl Model for State {
    ghost use Rattle.std.specs.Coded.{codes};
    ghost use Rattle.session.specs.Codes.{held_code, timers_code};
    ghost use Rattle.session_model.specs.Places.{IsSafe};
    ghost use Rattle.session_model.specs.Standing.{Contents};

    ghost Value = { Contents };

    ghost coded = { Prim.hlevel (codes, held_code, timers_code) };

    ghost view = { λ s. record { facts = s.facts; expiries = s.expiries; clock = s.clock; course = s.course; agenda = s.agenda; next_id = s.next_id; next_tag = s.next_tag } };

    ghost invariant = { λ s. IsSafe s.facts s.expiries s.clock s.next_id s.next_tag };
}

impl State {
    /// No facts, the clock at 0, and this agenda. Takes no memory.
    pub(crate) fn new(alloc: Global, agenda: Agenda) -> State
        ensures facts { result.facts ≡ map.empty }
        ensures expiries { result.expiries ≡ map.empty }
        ensures clock { result.clock ≡ pos 0 }
        ensures course { result.course ≡ record { last_starts = []; promises = []; begun = false } }
        ensures agenda { result.agenda ≡ agenda }
        ensures next_id { result.next_id ≡ 1 }
        ensures next_tag { result.next_tag ≡ 1 }
    {
        let facts = FactStore::new(alloc);
        let expiries = DueQueue::new(alloc);
        State {
            facts,
            expiries,
            clock: 0,
            course: Course::new(alloc),
            agenda,
            next_id: 1,
            next_tag: 1,
        }
    }

    /// The match that fires first among the pending ones. Takes no memory.
    pub(crate) fn top(&self) -> Option<&Match>
        ensures { option_map (λ m. m.now) result ≡ first (fire_cmp self.now.agenda.saliences) self.now.agenda.pending }
    {
        self.agenda.top()
    }

    /// How many tags were given. Takes no memory.
    pub(crate) fn tags_given(&self) -> u64
        ensures { result ≡ self.now.next_tag - 1 }
    {
        self.next_tag.saturating_sub(1)
    }

    /// The clock, in milliseconds. Takes no memory.
    pub(crate) fn clock(&self) -> Millis
        ensures { result ≡ self.now.clock }
    {
        self.clock
    }

    /// The tag of the fact that is to be modified, or why it is not to be. Takes no memory.
    pub(crate) fn modifiable(&self, program: &Program, id: FactId) -> Result<Tag, Code>
        ensures tag { IfOk result (IsNewestTag self.now.facts id.0) }
        ensures none { IfOk result (λ _. modify_fault program.now (newest self.now id.0) ≡ None) }
        ensures fault { IfErr result (λ code. modify_fault program.now (newest self.now id.0) ≡ Some code) }
    {
        match self.facts.get(id) {
            Some(fact) if program.is_event(fact.ty) => Err(Code::EventFixed),
            Some(fact) if program.is_reference(fact.ty) => Err(Code::ReferenceFixed),
            Some(fact) => Ok(fact.tag),
            None => Err(Code::Absent),
        }
    }

    /// The tag of the fact of the type that has the id. Takes no memory.
    pub(crate) fn tag_of(&self, ty: TypeId, id: FactId) -> Option<Tag>
        ensures tag { IfSome result (IsNewestTag self.now.facts id.0) }
        ensures some { IsSome result → is_of_type ty.0 (newest self.now id.0) ≡ true }
        ensures none { IsNone result → is_of_type ty.0 (newest self.now id.0) ≡ false }
    {
        match self.facts.get(id) {
            Some(fact) if fact.ty == ty => Some(fact.tag),
            _ => None,
        }
    }
}

impl Present for State {
    ghost use Rattle.session_model.specs.Places.{newest};

    ghost present = { newest };

    ghost has_begun = { λ k. k.course.begun };

    fn fact_with(&self, id: FactId) -> Option<&Fact> {
        self.facts.get(id)
    }

    fn begun(&self) -> bool {
        self.course.begun()
    }
}
