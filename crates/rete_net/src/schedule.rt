ghost use Rattle.std.specs.Prelude.{◌≡◌, ◌+ℤ◌, pos, ℕ, ℤ, Option, Some, false, true, slice_get, IfOk, IfSome, OnOk};
ghost use Rattle.rule_model.specs.declared.program.Program.{Program as ProgramData};
ghost use Rattle.rule_model.specs.Moments.{snapshot_at};
ghost use Rattle.rule_model.specs.Snapshots.{floor};
ghost use Rattle.rete_net.specs.Indexes.{is_changed_by_clock};
ghost use Rattle.fan_join.specs.Reaching.{has_place};
ghost use Rattle.candidate_source.specs.declared.sources.Sources.{Sources as SourcesData};
ghost use Rattle.beta_node.specs.Quiet.{IsBefore};
ghost use Rattle.rete_net.specs.Schedules.{AreScheduled, IsScheduled, IsUndue};
ghost use Rattle.rete_net.specs.Timers.{IsFrom, IsSet};
ghost use Rattle.rete_net.specs.declared.node.NetNode.{NetNode as NetNodeData};
ghost use Rattle.rete_net.specs.declared.schedule.EntryTimers.{EntryTimers as EntryTimersData};

use crate::due::put_all;
use crate::node::NetNode;
use crate::quiet::earlier;
use crate::sourcing::gate_until;
use crate::timers::Timers;
use candidate_source::Sources;
use fx_base::{EntryId, NoMemory};
use rule_model::{Moment, Program};
use std::alloc::Global;
use std::collections::BTreeSet;

/// The nodes of an entry point by the least moments for which a row of theirs waits: it may come where the floor is above.
#[derive(Drop)]
pub(crate) struct EntryTimers {
    entry: EntryId,
    timers: Timers,
}

impl EntryTimers {
    // Puts the nodes for which the floor of a moment lets a row come.
    fn put_due(
        &self,
        due: &mut BTreeSet<usize, Global>,
        alloc: Global,
        program: &Program,
        moment: &Moment,
    ) -> Result<(), NoMemory>
        ensures kept { OnOk result ((k : ℕ) → has_place due.old.keys k ≡ true → has_place due.new.keys k ≡ true) }
        ensures put { OnOk result ((k : ℕ) (up_to : Option ℤ) → IsSet self.now.timers k up_to → has_place due.new.keys k ≡ false → IsFrom (floor program.now (snapshot_at moment.now) self.now.entry.0) up_to) }
    {
        let places = self.timers.below(alloc, moment.floor(program, self.entry))?;
        put_all(due, &places)
    }
}

/// The nodes that time alone may change, those of a `not` and those with a window, by the moments at which something is due in them: by
/// moments of the clock, and for each entry point by moments that its floor passes. There are a few entry points.
#[derive(Drop)]
pub(crate) struct Schedule {
    clock: Timers,
    floors: Vec<EntryTimers>,
}

// The place of the timers of an entry point. Takes no memory.
fn line_of(floors: &[EntryTimers], entry: EntryId) -> Option<usize>
    ensures { IfSome result (λ line. (timers : EntryTimersData) × (slice_get floors.now line ≡ Some timers) × (timers.entry.0 ≡ entry.0)) }
{
    for line in 0..floors.len() {
        if floors[line].entry == entry {
            return Some(line);
        }
    }
    None
}

impl Schedule {
    /// The moments of these nodes. For each that time alone may change it costs what `put` costs.
    pub(crate) fn of(
        alloc: Global,
        program: &Program,
        nodes: &[NetNode],
        sources: &Sources,
    ) -> Result<Schedule, NoMemory>
        ensures { IfOk result (λ schedule. AreScheduled program.now sources.now nodes.now schedule) }
    {
        let mut schedule = Schedule {
            clock: Timers::new(alloc),
            floors: Vec::new(alloc),
        };
        for (place, node) in nodes.iter().enumerate() {
            schedule.put(alloc, program, place, node, sources)?;
        }
        Ok(schedule)
    }

    /// Puts the node in a place under its moments, in place of those that it had. It costs the logarithm of the nodes that stand here, and
    /// a look at what is due first in the node and its gate; where time alone changes nothing in the node, nothing.
    pub(crate) fn put(
        &mut self,
        alloc: Global,
        program: &Program,
        place: usize,
        node: &NetNode,
        sources: &Sources,
    ) -> Result<(), NoMemory>
        ensures put { OnOk result (is_changed_by_clock node.now ≡ true → IsScheduled program.now sources.now self.new place node.now) }
        ensures others { OnOk result ((p : ProgramData) (of : SourcesData) (k : ℕ) (n : NetNodeData) → (k ≡ place → ⊥) → IsScheduled p of self.old k n → IsScheduled p of self.new k n) }
    {
        if !node.is_timed() {
            return Ok(());
        }
        let line = self.line(alloc, node.entry())?;
        let until = earlier(gate_until(sources, place, node), node.quiet_until(program));
        self.clock.put(place, until)?;
        self.floors[line].timers.put(place, node.waits_up_to())?;
        Ok(())
    }

    // The place of the timers of an entry point, which are put there if they are not.
    fn line(&mut self, alloc: Global, entry: EntryId) -> Result<usize, NoMemory>
        ensures line { IfOk result (λ line. (timers : EntryTimersData) × (slice_get self.new.floors.items line ≡ Some timers) × (timers.entry.0 ≡ entry.0)) }
        ensures clock { OnOk result (self.new.clock ≡ self.old.clock) }
        ensures kept { OnOk result ((line : ℕ) (timers : EntryTimersData) → slice_get self.old.floors.items line ≡ Some timers → slice_get self.new.floors.items line ≡ Some timers) }
    {
        match line_of(&self.floors, entry) {
            Some(line) => Ok(line),
            None => {
                let line = self.floors.len();
                let timers = Timers::new(alloc);
                self.floors.push(EntryTimers { entry, timers })?;
                Ok(line)
            }
        }
    }

    // Puts the nodes whose moment of the clock has come.
    fn put_past(
        &self,
        due: &mut BTreeSet<usize, Global>,
        alloc: Global,
        moment: &Moment,
    ) -> Result<(), NoMemory>
        ensures { OnOk result ((k : ℕ) (until : Option ℤ) → IsSet self.now.clock k until → has_place due.new.keys k ≡ false → IsFrom (moment.now.clock +ℤ pos 1) until) }
    {
        let places = self.clock.below(alloc, i128::from(moment.clock) + 1)?;
        put_all(due, &places)
    }

    /// The nodes in which something is due at a moment. It costs the logarithm of the nodes that stand here for each of them, and a look
    /// at each entry point.
    pub(crate) fn due(
        &self,
        alloc: Global,
        program: &Program,
        moment: &Moment,
    ) -> Result<BTreeSet<usize, Global>, NoMemory>
        ensures { IfOk result (λ due. (of : SourcesData) (k : ℕ) (n : NetNodeData) → IsScheduled program.now of self.now k n → has_place due.keys k ≡ false → IsUndue program.now of k n moment.now) }
    {
        let mut due = BTreeSet::new(alloc);
        self.put_past(&mut due, alloc, moment)?;
        for line in self.floors.as_slice() {
            line.put_due(&mut due, alloc, program, moment)?;
        }
        Ok(due)
    }

    /// The least moment of the clock at which something is due in a node that stands here. Takes no memory.
    pub(crate) fn first(&self) -> Option<i128>
        ensures { (k : ℕ) (until : Option ℤ) → IsSet self.now.clock k until → (clock : ℤ) → IsBefore result clock → IsBefore until clock }
    {
        self.clock.first()
    }
}
