ghost use Rattle.std.specs.Prelude.{◌≡◌, ◌≤◌, ◌^◌, length, IfOk};
ghost use Rattle.rule_world.specs.Programs.{IsRunnable};
ghost use Rattle.session.specs.Inspected.{IsCounted, all_floors, all_types as types_of_all};

use crate::detailed::DetailedSession;
use crate::session::Session;
use crate::state::State;
use engine::{Inspect, WorldCounts};
use fx_base::{EntryId, Fact, Millis, NoMemory, Seq, TypeId};
use rule_model::{Program, TypeInfo};
use rule_world::floor;
use std::alloc::Global;

// The places of these types.
fn all_types(alloc: Global, types: &[TypeInfo]) -> Result<Vec<TypeId>, NoMemory>
    requires { length types.now ≤ 2 ^ 16 }
    ensures { IfOk result (λ found. found.items ≡ types_of_all (length types.now)) }
{
    let mut found = Vec::with_capacity(alloc, types.len())?;
    for place in 0..types.len() {
        found.push(TypeId(place as u16))?;
    }
    Ok(found)
}

impl State {
    // The floor of each entry point of a program, in milliseconds, by their places.
    fn floors(&self, alloc: Global, program: &Program) -> Result<Vec<Millis>, NoMemory>
        requires { IsRunnable program.now }
        ensures { IfOk result (λ floors. floors.items ≡ all_floors program.now self.now (length program.now.entries)) }
    {
        let entries = program.entries.as_slice().len();
        let mut floors = Vec::with_capacity(alloc, entries)?;
        for place in 0..entries {
            let entry = EntryId(place as u16);
            floors.push(floor(
                program,
                self.course.last_start(entry),
                self.course.promise(entry),
                self.clock,
                entry,
            ))?;
        }
        Ok(floors)
    }

    // The clock, and counts by the types and the entry points of a program.
    fn counted(&self, alloc: Global, program: &Program) -> Result<WorldCounts, NoMemory>
        requires { IsRunnable program.now }
        ensures { IfOk result (IsCounted program.now self.now) }
    {
        let types = all_types(alloc, program.types.as_slice())?;
        let facts = self.counts(alloc, types.as_slice())?;
        let floors = self.floors(alloc, program)?;
        Ok(WorldCounts {
            clock: self.clock,
            facts: Seq::from_vec(facts),
            floors: Seq::from_vec(floors),
            pending: self.agenda.pending_count() as u64,
        })
    }
}

impl Session {
    ghost use Rattle.rule_model.specs.Lent.{lent};
    ghost use Rattle.rule_world.specs.Worlds.{World};
    ghost use Rattle.engine.specs.WorldCounts.{world_counts as counts_of_world};
    ghost use Rattle.engine.specs.KeptFacts.{kept_by_tag};
    ghost use Rattle.session.specs.Sessions.{SessionStands};

    /// The facts that are kept, in the order of their tags. Time grows with them, and memory by a reference each.
    pub fn kept(&self, alloc: Global) -> Result<Vec<&Fact>, NoMemory>
        ensures { IfOk result (λ facts. (w : World) → SessionStands self.now w
            → lent facts.items ≡ kept_by_tag self.now.setting.program self.now.setting.lives w) }
    {
        // (that its table of lives is safe is known from this call)
        let _inside = self.setting.setting();
        self.state.facts.facts(alloc)
    }

    /// The clock, and counts. It goes over the types and the entry points, not over the facts, and takes memory for their numbers alone.
    pub fn world_counts(&self, alloc: Global) -> Result<WorldCounts, NoMemory>
        ensures { IfOk result (λ counts. (w : World) → SessionStands self.now w
            → counts ≡ counts_of_world self.now.setting.program self.now.setting.lives w) }
    {
        self.state.counted(alloc, &self.setting.setting().program)
    }
}

impl Inspect for Session {
    fn kept(&self, alloc: Global) -> Result<Vec<&Fact>, NoMemory> {
        Session::kept(self, alloc)
    }

    fn world_counts(&self, alloc: Global) -> Result<WorldCounts, NoMemory> {
        Session::world_counts(self, alloc)
    }
}

impl Inspect for DetailedSession {
    fn kept(&self, alloc: Global) -> Result<Vec<&Fact>, NoMemory> {
        Session::kept(&self.inside, alloc)
    }

    fn world_counts(&self, alloc: Global) -> Result<WorldCounts, NoMemory> {
        Session::world_counts(&self.inside, alloc)
    }
}
