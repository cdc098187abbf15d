ghost use Rattle.std.specs.Prelude.{◌≡◌, ◌<◌, ◌||◌, ◌^◌, ℕ, pos, true, false, [], length, slice_index_or, IfOk, OnOk};
ghost use Rattle.rule_model.specs.Moments.{moment_in};
ghost use Rattle.rule_model.specs.Types.{is_event};
ghost use Rattle.rule_world.specs.Worlds.{last_start_with, promise_with};
ghost use Rattle.session_model.specs.Saving.{ArePadded};

use fx_base::{EntryId, Fact, Millis, NoMemory};
use rule_model::{Moment, Program};
use std::alloc::Global;
use std::marker::Model;

/// The course of a world so far: what its entry points have reached, and whether it has begun.
#[derive(Drop)]
pub(crate) struct Course {
    /// In milliseconds, by the places of the entry points; 0 for those beyond the end.
    last_starts: Vec<Millis>,
    /// The same of the promises.
    promises: Vec<Millis>,
    begun: bool,
}

impl Model for Course {
    ghost use Rattle.std.specs.Coded.{codes};
    ghost use Rattle.session_model.specs.Standing.{Course as CourseData};

    ghost Value = { CourseData };

    ghost coded = { Prim.hlevel codes };

    ghost view = { λ c. record { last_starts = c.last_starts.items; promises = c.promises.items; begun = c.begun } };
}

impl Course {
    /// No entry point has reached anything, and nothing has begun.
    pub(crate) fn new(alloc: Global) -> Course
        ensures { result ≡ record { last_starts = []; promises = []; begun = false } }
    {
        Course {
            last_starts: Vec::new(alloc),
            promises: Vec::new(alloc),
            begun: false,
        }
    }

    /// The course with these last starts and promises, in milliseconds, by the places of the entry points.
    pub(crate) fn at(
        alloc: Global,
        last_starts: &[Millis],
        promises: &[Millis],
        begun: bool,
    ) -> Result<Course, NoMemory>
        ensures { IfOk result (λ c. c ≡ record { last_starts = last_starts.now; promises = promises.now; begun = begun }) }
    {
        let mut starts = Vec::with_capacity(alloc, last_starts.len())?;
        starts.extend_from_slice(last_starts)?;
        let mut promised = Vec::with_capacity(alloc, promises.len())?;
        promised.extend_from_slice(promises)?;
        Ok(Course {
            last_starts: starts,
            promises: promised,
            begun,
        })
    }

    /// The last starts of so many entry points, in milliseconds, by their places.
    pub(crate) fn first_last_starts(
        &self,
        alloc: Global,
        many: usize,
    ) -> Result<Vec<Millis>, NoMemory>
        ensures { IfOk result (λ first. ArePadded self.now.last_starts many first.items) }
    {
        padded(alloc, self.last_starts.as_slice(), many)
    }

    /// The promises of so many entry points, in milliseconds, by their places.
    pub(crate) fn first_promises(&self, alloc: Global, many: usize) -> Result<Vec<Millis>, NoMemory>
        ensures { IfOk result (λ first. ArePadded self.now.promises many first.items) }
    {
        padded(alloc, self.promises.as_slice(), many)
    }

    /// The moment at this clock. Takes no memory.
    pub(crate) fn moment<'c>(&'c self, clock: Millis) -> Moment<'c>
        ensures clock { result.clock ≡ clock }
        ensures last_starts { result.last_starts.now ≡ self.now.last_starts }
        ensures promises { result.promises.now ≡ self.now.promises }
    {
        Moment {
            clock,
            last_starts: self.last_starts.as_slice(),
            promises: self.promises.as_slice(),
        }
    }

    /// The start of the event that was inserted last in an entry point, in milliseconds, or 0. Takes no memory.
    pub(crate) fn last_start(&self, entry: EntryId) -> Millis
        ensures { result ≡ moment_in self.now.last_starts entry.0 }
    {
        self.moment(0).last_start(entry)
    }

    /// What an entry point has promised, in milliseconds, or 0: no event of it starts before this moment any more. Takes no memory.
    pub(crate) fn promise(&self, entry: EntryId) -> Millis
        ensures { result ≡ moment_in self.now.promises entry.0 }
    {
        self.moment(0).promise(entry)
    }

    /// Whether the world has begun. Takes no memory.
    pub(crate) fn begun(&self) -> bool
        ensures { result ≡ self.now.begun }
    {
        self.begun
    }

    /// Goes on behind a new fact: an event moves the last start of its entry point, and begins the world.
    pub(crate) fn take_new(&mut self, program: &Program, fact: &Fact) -> Result<(), NoMemory>
        ensures last_starts { OnOk result ((entry : ℕ) → moment_in self.new.last_starts entry ≡ last_start_with program.now fact.now (moment_in self.old.last_starts) entry) }
        ensures promises { OnOk result (self.new.promises ≡ self.old.promises) }
        ensures begun { OnOk result (self.new.begun ≡ (self.old.begun || is_event program.now fact.now.ty.0)) }
    {
        if !program.is_event(fact.ty) {
            return Ok(());
        }
        set_moment(&mut self.last_starts, fact.entry, fact.times.start)?;
        self.begun = true;
        Ok(())
    }

    /// Goes on behind the promise of an entry point.
    pub(crate) fn take_promise(&mut self, entry: EntryId, from: Millis) -> Result<(), NoMemory>
        ensures promises { OnOk result ((other : ℕ) → moment_in self.new.promises other ≡ promise_with entry.0 from (moment_in self.old.promises) other) }
        ensures last_starts { OnOk result (self.new.last_starts ≡ self.old.last_starts) }
        ensures begun { OnOk result (self.new.begun ≡ self.old.begun) }
    {
        set_moment(&mut self.promises, entry, from)
    }

    /// The world has begun. Takes no memory.
    pub(crate) fn take_begin(&mut self)
        ensures { self.new ≡ record self.old { begun = true } }
    {
        self.begun = true;
    }
}

// The first so many of these moments, and 0 for those beyond the end.
fn padded(alloc: Global, moments: &[Millis], many: usize) -> Result<Vec<Millis>, NoMemory>
    ensures many { IfOk result (λ first. length first.items ≡ many) }
    ensures each { IfOk result (λ first. (entry : ℕ) → entry < many → moment_in first.items entry ≡ moment_in moments.now entry) }
{
    let mut first = Vec::with_capacity(alloc, moments.len())?;
    first.extend_from_slice(moments)?;
    first.resize(many, 0)?;
    Ok(first)
}

// Puts a moment at an entry point.
fn set_moment(moments: &mut Vec<Millis>, entry: EntryId, moment: Millis) -> Result<(), NoMemory>
    ensures { OnOk result ((other : ℕ) → moment_in moments.new.items other ≡ promise_with entry.0 moment (moment_in moments.old.items) other) }
{
    let place = entry.0 as usize;
    reach(moments, place)?;
    moments[place] = moment;
    Ok(())
}

// Lengthens moments by zeros until one stands at this place.
fn reach(moments: &mut Vec<Millis>, place: usize) -> Result<(), NoMemory>
    requires { place < 2 ^ 16 }
    ensures reached { OnOk result (place < length moments.new.items) }
    ensures kept { (k : ℕ) → slice_index_or moments.new.items k (pos 0) ≡ slice_index_or moments.old.items k (pos 0) }
{
    if moments.len() <= place {
        moments.resize(place + 1, 0)?;
    }
    Ok(())
}
