ghost use Rattle.std.specs.Prelude.{◌≡◌, ℤ, ℕ, List, [], ◌∷◌, ◌++◌, false, IfOk, map, option_to_list, filter, not};
ghost use Rattle.std.specs.List.{list_any};
ghost use Rattle.std.specs.Map.{values_of};
ghost use Rattle.row_delta.specs.Differences.{IsBetween};
ghost use Rattle.row_delta.specs.declared.row.Named.{Named};
ghost use Rattle.window_gate.specs.declared.change.WindowKind.TheVariants.{Length};
ghost use Rattle.window_gate.specs.declared.change.GateChange.TheVariants.{Come, Gone};
ghost use Rattle.window_gate.specs.Windows.{Arrival, named_of, has_tag, after, rows_inside};
ghost use Rattle.window_gate.specs.Standing.{TagsDiffer, KeepsLength, MayChange};
ghost use Rattle.window_gate.specs.Pieces.{MakesRoom, BringsBack, Removes};

use crate::change::GateChange;
use crate::rows::difference;
use fx_base::NoMemory;
use row_delta::{Delta, Named};
use std::alloc::Global;
use std::collections::BTreeMap;

/// The present facts in their order, under running numbers: the latest `size` of them apart from the older ones.
#[derive(Drop)]
pub(crate) struct LengthWindow {
    pub(crate) size: u64,
    next: u64,
    older: BTreeMap<u64, Named>,
    newer: BTreeMap<u64, Named>,
    numbers: BTreeMap<u64, u64>,
}

impl LengthWindow {
    pub(crate) fn new(alloc: Global, size: u64) -> LengthWindow
        ensures size { result.size ≡ size }
        ensures keeps { (now : ℤ) → KeepsLength result [] now }
    {
        LengthWindow {
            size,
            next: 0,
            older: BTreeMap::new(alloc),
            newer: BTreeMap::new(alloc),
            numbers: BTreeMap::new(alloc),
        }
    }

    /// A fact comes as the latest, or goes.
    pub(crate) fn step(
        self,
        alloc: Global,
        change: &GateChange,
    ) -> Result<(LengthWindow, Delta), NoMemory>
        ensures size { IfOk result (λ r. r.0.size ≡ self.size) }
        ensures keeps { (arrivals : List Arrival) (was now : ℤ) → KeepsLength self arrivals was
            → TagsDiffer (map named_of arrivals) → MayChange (Length self.size) (map named_of arrivals) change.now
            → IfOk result (λ r. KeepsLength r.0 (after arrivals change.now) now) }
        ensures difference { (arrivals : List Arrival) (was now : ℤ) → KeepsLength self arrivals was
            → TagsDiffer (map named_of arrivals) → MayChange (Length self.size) (map named_of arrivals) change.now
            → IfOk result (λ r. IsBetween (rows_inside (Length self.size) was arrivals) (rows_inside (Length self.size) now (after arrivals change.now)) r.1) }
    {
        match change {
            GateChange::Come(named, _) => self.come(alloc, *named),
            GateChange::Gone(named) => self.go(alloc, *named),
            GateChange::Clock => {
                let delta = difference(alloc, &[], &[])?;
                Ok((self, delta))
            }
        }
    }

    /// A fact comes, and is the latest.
    fn come(self, alloc: Global, named: Named) -> Result<(LengthWindow, Delta), NoMemory>
        ensures size { IfOk result (λ r. r.0.size ≡ self.size) }
        ensures keeps { (arrivals : List Arrival) (start was now : ℤ) → KeepsLength self arrivals was
            → list_any (has_tag named.tag.0) (map named_of arrivals) ≡ false
            → IfOk result (λ r. KeepsLength r.0 (after arrivals (Come named start)) now) }
        ensures difference { (arrivals : List Arrival) (start was now : ℤ) → KeepsLength self arrivals was
            → TagsDiffer (map named_of arrivals) → list_any (has_tag named.tag.0) (map named_of arrivals) ≡ false
            → IfOk result (λ r. IsBetween (rows_inside (Length self.size) was arrivals) (rows_inside (Length self.size) now (after arrivals (Come named start))) r.1) }
    {
        let LengthWindow {
            size,
            next,
            mut older,
            mut newer,
            mut numbers,
        } = self;
        let following = next.checked_add(1).ok_or(NoMemory)?;
        numbers.insert(named.tag.0, next)?;
        let left = make_room(size, &mut older, &mut newer)?;
        let delta = if size == 0 {
            older.insert(next, named)?;
            difference(alloc, &[], &[])?
        } else {
            newer.insert(next, named)?;
            difference(alloc, left.as_slice(), &[named])?
        };
        let window = LengthWindow {
            size,
            next: following,
            older,
            newer,
            numbers,
        };
        Ok((window, delta))
    }

    /// The fact with this tag goes, if there is one. Where it was inside, the latest of the older ones comes back.
    fn go(self, alloc: Global, gone: Named) -> Result<(LengthWindow, Delta), NoMemory>
        ensures size { IfOk result (λ r. r.0.size ≡ self.size) }
        ensures keeps { (arrivals : List Arrival) (was now : ℤ) → KeepsLength self arrivals was
            → TagsDiffer (map named_of arrivals)
            → IfOk result (λ r. KeepsLength r.0 (after arrivals (Gone gone)) now) }
        ensures difference { (arrivals : List Arrival) (was now : ℤ) → KeepsLength self arrivals was
            → TagsDiffer (map named_of arrivals)
            → IfOk result (λ r. IsBetween (rows_inside (Length self.size) was arrivals) (rows_inside (Length self.size) now (after arrivals (Gone gone))) r.1) }
    {
        let LengthWindow {
            size,
            next,
            mut older,
            mut newer,
            mut numbers,
        } = self;
        let (left, back) = match numbers.remove(&gone.tag.0) {
            Some(number) => take(number, &mut older, &mut newer)?,
            None => (None, None),
        };
        let delta = difference(alloc, left.as_slice(), back.as_slice())?;
        let window = LengthWindow {
            size,
            next,
            older,
            newer,
            numbers,
        };
        Ok((window, delta))
    }
}

/// Moves the oldest inside to the older ones, where as many are inside as may be, and answers it.
fn make_room(
    size: u64,
    older: &mut BTreeMap<u64, Named>,
    newer: &mut BTreeMap<u64, Named>,
) -> Result<Option<Named>, NoMemory>
    ensures { IfOk result (MakesRoom size older.old.entries newer.old.entries older.new.entries newer.new.entries) }
{
    if (newer.len() as u64) < size {
        return Ok(None);
    }
    match newer.pop_first() {
        Some((number, named)) => {
            older.insert(number, named)?;
            Ok(Some(named))
        }
        None => Ok(None),
    }
}

/// Takes out the fact with this number, and answers it where it was inside, with the older one that comes back for it.
fn take(
    number: u64,
    older: &mut BTreeMap<u64, Named>,
    newer: &mut BTreeMap<u64, Named>,
) -> Result<(Option<Named>, Option<Named>), NoMemory>
    ensures { IfOk result (λ r. Removes number older.old.entries newer.old.entries older.new.entries newer.new.entries r.0 r.1) }
{
    match newer.remove(&number) {
        Some(named) => {
            let back = bring_back(older, newer)?;
            Ok((Some(named), back))
        }
        None => {
            older.remove(&number);
            Ok((None, None))
        }
    }
}

/// Moves the latest of the older ones inside, if there is one, and answers it.
fn bring_back(
    older: &mut BTreeMap<u64, Named>,
    newer: &mut BTreeMap<u64, Named>,
) -> Result<Option<Named>, NoMemory>
    ensures { IfOk result (BringsBack older.old.entries newer.old.entries older.new.entries newer.new.entries) }
{
    match older.pop_last() {
        Some((number, named)) => {
            newer.insert(number, named)?;
            Ok(Some(named))
        }
        None => Ok(None),
    }
}
