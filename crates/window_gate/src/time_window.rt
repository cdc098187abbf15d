ghost use Rattle.std.specs.Prelude.{◌≡◌, ℕ, ℤ, ◌+ℤ◌, ◌≤ℤ◌, ◌<ℤ◌, ◌<◌, ◌==◌, List, [], ◌∷◌, true, false, length, IfOk, IfSome, IfNone, OnOk, map, option_to_list};
ghost use Rattle.std.specs.List.Sorted.{IsStrictlySortedBy};
ghost use Rattle.fx_base.specs.Lists.{In};
ghost use Rattle.row_delta.specs.Differences.{IsBetween};
ghost use Rattle.row_delta.specs.NameOrder.{name_cmp};
ghost use Rattle.row_delta.specs.Rows.{has};
ghost use Rattle.row_delta.specs.declared.row.Named.{Named};
ghost use Rattle.row_delta.specs.declared.row.Row.{Row};
ghost use Rattle.window_gate.specs.declared.change.GateChange.TheVariants.{Come};
ghost use Rattle.window_gate.specs.declared.change.WindowKind.TheVariants.{Time};
ghost use Rattle.window_gate.specs.Windows.{Arrival, named_of, after, inside, rows_inside};
ghost use Rattle.window_gate.specs.Standing.{HeldArrivals, HoldsArrivals, TagsDiffer, KeepsTime, MayPass, MayStart, MayChange, LeavesAt, has_version, most};
ghost use Rattle.window_gate.specs.Pieces.{Leave, Enter, has_time_come, takes_out, leaves, brings};

use crate::change::GateChange;
use crate::rows::difference;
use due_queue::RisingMap;
use fx_base::{FactId, Millis, NoMemory, Tag};
use row_delta::{Delta, Named};
use std::alloc::Global;
use std::collections::BTreeSet;
use std::ops::Bound;

/// The facts whose start is less than `millis` milliseconds ago: their tags, which wait for the moment when each leaves, with the ids.
#[derive(Drop)]
pub(crate) struct TimeWindow {
    pub(crate) millis: Millis,
    leaving: RisingMap<Millis, u64, FactId>,
}

impl TimeWindow {
    pub(crate) fn new(alloc: Global, millis: Millis) -> TimeWindow
        ensures millis { result.millis ≡ millis }
        ensures keeps { (now : ℤ) → KeepsTime result [] now }
    {
        TimeWindow {
            millis,
            leaving: RisingMap::new(alloc),
        }
    }

    /// The least moment at which a fact that is inside leaves; `None` where none is inside. Takes no memory.
    pub(crate) fn first_leaving(&self) -> Option<Millis>
        ensures keeps { (arrivals : List Arrival) (was now : ℤ) → KeepsTime self.now arrivals was
            → TagsDiffer (map named_of arrivals) → was ≤ℤ now → IfSome result (λ at. now <ℤ at)
            → KeepsTime self.now arrivals now }
        ensures leaves { (arrivals : List Arrival) (was : ℤ) → KeepsTime self.now arrivals was
            → IfSome result (λ at. (arrival : Arrival) × In arrival (inside (Time self.now.millis) was arrivals) × LeavesAt (Time self.now.millis) arrival at) }
        ensures inside { (arrivals : List Arrival) (was now : ℤ) → KeepsTime self.now arrivals was
            → TagsDiffer (map named_of arrivals) → was ≤ℤ now → IfSome result (λ at. now <ℤ at)
            → (row : Row) → has (rows_inside (Time self.now.millis) now arrivals) row ≡ has (rows_inside (Time self.now.millis) was arrivals) row }
    {
        match self.leaving.first() {
            Some(first) => Some(first.0),
            None => None,
        }
    }

    /// What is due leaves, and what comes enters where it is inside at this moment. Over many calls, it costs the logarithm of what
    /// is inside, for each that enters or leaves; where none does, it takes no memory.
    pub(crate) fn step(
        mut self,
        alloc: Global,
        change: &GateChange,
        now: Millis,
    ) -> Result<(TimeWindow, Delta), NoMemory>
        ensures millis { IfOk result (λ r. r.0.millis ≡ self.millis) }
        ensures keeps { (arrivals : List Arrival) (was : ℤ) → KeepsTime self arrivals was
            → TagsDiffer (map named_of arrivals) → MayPass (Time self.millis) was now → MayChange (Time self.millis) (map named_of arrivals) change.now
            → IfOk result (λ r. KeepsTime r.0 (after arrivals change.now) now) }
        ensures difference { (arrivals : List Arrival) (was : ℤ) → KeepsTime self arrivals was
            → TagsDiffer (map named_of arrivals) → MayPass (Time self.millis) was now → MayChange (Time self.millis) (map named_of arrivals) change.now
            → IfOk result (λ r. IsBetween (rows_inside (Time self.millis) was arrivals) (rows_inside (Time self.millis) now (after arrivals change.now)) r.1) }
    {
        let left = self.leave(alloc, change, now)?;
        let come = self.come(change, now)?;
        let delta = difference(alloc, &left, come.as_slice())?;
        Ok((self, delta))
    }

    /// Takes out what is due and what goes, and answers it in the order of names.
    fn leave(
        &mut self,
        alloc: Global,
        change: &GateChange,
        now: Millis,
    ) -> Result<Vec<Named>, NoMemory>
        ensures in_order { IfOk result (λ left. IsStrictlySortedBy name_cmp left.items) }
        ensures leave { IfOk result (λ left. Leave self.old self.new (leaves self.old.millis now change.now) left.items) }
    {
        let mut left = self.leave_by_time(alloc, now)?;
        if let Some(gone) = self.go(change) {
            left.push(gone)?;
        }
        let ordered = in_order(alloc, left)?;
        Ok(ordered)
    }

    /// Takes out what is due, and answers it in the order in which it leaves.
    fn leave_by_time(&mut self, alloc: Global, now: Millis) -> Result<Vec<Named>, NoMemory>
        ensures { IfOk result (λ left. Leave self.old self.new (λ _ one. has_time_come self.old.millis now one) left.items) }
    {
        let mut left = Vec::new(alloc);
        'due: while let Some(named) = self.take_due(now) {
            left.push(named)?;
        }
        Ok(left)
    }

    /// Takes out the first that leaves, where its moment has come.
    fn take_due(&mut self, now: Millis) -> Option<Named>
        ensures due { IfSome result (λ named. (held : HeldArrivals) → HoldsArrivals self.old held → has_time_come self.old.millis now (held named.tag.0) ≡ true) }
        ensures leave { IfSome result (λ named. Leave self.old self.new (λ tag _. tag == named.tag.0) (named ∷ [])) }
        ensures smaller { IfSome result (λ named. length self.new.leaving < length self.old.leaving) }
        ensures none { IfNone result ((held : HeldArrivals) → HoldsArrivals self.old held → (tag : ℕ) → has_time_come self.old.millis now (held tag) ≡ false) }
        ensures unchanged { IfNone result (self.new ≡ self.old) }
    {
        let (_, tag, id) = self.leaving.take_due(Bound::Included(now))?;
        Some(Named { id, tag: Tag(tag) })
    }

    /// Takes out the one that goes, where it is inside.
    fn go(&mut self, change: &GateChange) -> Option<Named>
        ensures { Leave self.old self.new (λ tag _. takes_out change.now tag) (option_to_list result) }
    {
        match change {
            GateChange::Gone(named) => self.take_out(named.tag),
            _ => None,
        }
    }

    /// Takes out the one with this tag, where it is inside.
    fn take_out(&mut self, tag: Tag) -> Option<Named>
        ensures { Leave self.old self.new (λ other _. other == tag.0) (option_to_list result) }
    {
        let (_, id) = self.leaving.cancel(tag.0)?;
        Some(Named { id, tag })
    }

    /// Lets what comes enter, and answers it, where the moment when it leaves is still to come.
    fn come(&mut self, change: &GateChange, now: Millis) -> Result<Option<Named>, NoMemory>
        ensures millis { OnOk result (self.new.millis ≡ self.old.millis) }
        ensures enter { (names : List Named) → MayChange (Time self.old.millis) names change.now → self.old.millis ≤ℤ most
            → IfOk result (Enter self.old self.new (brings self.old.millis now change.now)) }
    {
        match change {
            GateChange::Come(named, start) => {
                let moment = start.saturating_add(self.millis);
                let entered = self.enter(*named, moment, now)?;
                Ok(entered)
            }
            _ => Ok(None),
        }
    }

    /// Lets a version enter until this moment, in place of one with its tag, and answers it, where the moment is still to come.
    fn enter(
        &mut self,
        named: Named,
        moment: Millis,
        now: Millis,
    ) -> Result<Option<Named>, NoMemory>
        ensures millis { OnOk result (self.new.millis ≡ self.old.millis) }
        ensures enter { (start : ℤ) → moment ≡ start +ℤ self.old.millis → IfOk result (Enter self.old self.new (brings self.old.millis now (Come named start))) }
    {
        if moment <= now {
            return Ok(None);
        }
        self.leaving.put(moment, named.tag.0, named.id)?;
        Ok(Some(named))
    }
}

/// These versions in the order of names. One or none stays as it is, and takes no memory.
fn in_order(alloc: Global, versions: Vec<Named>) -> Result<Vec<Named>, NoMemory>
    ensures in_order { IfOk result (λ ordered. IsStrictlySortedBy name_cmp ordered.items) }
    ensures same { IfOk result (λ ordered. (named : Named) → has_version ordered.items named ≡ has_version versions.items named) }
{
    if versions.len() < 2 {
        return Ok(versions);
    }
    let mut ordered = BTreeSet::new(alloc);
    for named in &versions {
        ordered.insert(*named)?;
    }
    Ok(ordered.into_iter().collect(alloc)?)
}
