ghost use Rattle.std.specs.Prelude.{◌≡◌, ℤ, ◌≤ℤ◌, ◌<ℤ◌, List, [], IfOk, IfSome, IsTrue, OnOk, map};
ghost use Rattle.fx_base.specs.Lists.{In};
ghost use Rattle.row_delta.specs.Differences.{IsBetween, IsDisjoint};
ghost use Rattle.row_delta.specs.Rows.{has};
ghost use Rattle.row_delta.specs.declared.row.Row.{Row};
ghost use Rattle.window_gate.specs.declared.change.WindowKind.TheVariants.{Whole};
ghost use Rattle.window_gate.specs.declared.gate.Kept.TheVariants as kept;
ghost use Rattle.window_gate.specs.Windows.{Arrival, named_of, after, inside, rows_inside};
ghost use Rattle.window_gate.specs.Standing.{StandsForArrivals, TakesChange, TagsDiffer, MayChange, LeavesAt, window_of};

use crate::change::{GateChange, WindowKind};
use crate::length_window::LengthWindow;
use crate::rows::difference;
use crate::time_window::TimeWindow;
use fx_base::{Millis, NoMemory};
use row_delta::Delta;
use std::alloc::Global;
use std::mem::replace;

/// What a window keeps of the facts that came.
#[derive(Drop)]
enum Kept {
    Whole,
    Time(TimeWindow),
    Length(LengthWindow),
}

/// A window, and what it keeps of the facts that came: nothing where it is whole, those inside where it is of
/// time, the present ones where it is of a length.
#[derive(Drop)]
pub struct Gate {
    kept: Kept,
}

impl Gate {
    /// A gate to which no fact has come. Takes no memory.
    pub fn new(alloc: Global, window: WindowKind) -> Gate
        ensures window { window_of result ≡ window }
        ensures stands { (now : ℤ) → StandsForArrivals result [] now }
    {
        let kept = match window {
            WindowKind::Whole => Kept::Whole,
            WindowKind::Time(millis) => Kept::Time(TimeWindow::new(alloc, millis)),
            WindowKind::Length(size) => Kept::Length(LengthWindow::new(alloc, size)),
        };
        Gate { kept }
    }

    /// Its window. Takes no memory.
    pub fn window(&self) -> WindowKind
        ensures { result ≡ window_of self.now }
    {
        match &self.kept {
            Kept::Whole => WindowKind::Whole,
            Kept::Time(window) => WindowKind::Time(window.millis),
            Kept::Length(window) => WindowKind::Length(window.size),
        }
    }

    /// The moment of the clock from which a fact that is inside leaves by the clock alone; `None` where none ever does. Until then
    /// a move of the clock changes nothing. Takes no memory.
    pub fn quiet_until(&self) -> Option<Millis>
        ensures stands { (arrivals : List Arrival) (was now : ℤ) → StandsForArrivals self.now arrivals was → was ≤ℤ now → IfSome result (λ at. now <ℤ at)
            → StandsForArrivals self.now arrivals now }
        ensures leaves { (arrivals : List Arrival) (was : ℤ) → StandsForArrivals self.now arrivals was
            → IfSome result (λ at. (arrival : Arrival) × In arrival (inside (window_of self.now) was arrivals) × LeavesAt (window_of self.now) arrival at) }
        ensures inside { (arrivals : List Arrival) (was now : ℤ) → StandsForArrivals self.now arrivals was → was ≤ℤ now → IfSome result (λ at. now <ℤ at)
            → (row : Row) → has (rows_inside (window_of self.now) now arrivals) row ≡ has (rows_inside (window_of self.now) was arrivals) row }
    {
        match &self.kept {
            Kept::Whole | Kept::Length(_) => None,
            Kept::Time(window) => window.first_leaving(),
        }
    }

    /// The gate after a change at this moment of the clock, in milliseconds, and the difference of the facts inside
    /// as rows of one fact and no values. It costs the logarithm of what is kept and what it answers; where the
    /// clock alone moves and nothing is due, it looks at the least moment due and takes no memory. `NoMemory`
    /// comes where memory is refused, and from a length window to which 2^64 facts have come.
    pub fn step(
        self,
        alloc: Global,
        change: &GateChange,
        now: Millis,
    ) -> Result<(Gate, Delta), NoMemory>
        ensures window { IfOk result (λ r. window_of r.0 ≡ window_of self) }
        ensures stands { (arrivals : List Arrival) (was : ℤ) → StandsForArrivals self arrivals was → TakesChange (window_of self) arrivals was change.now now
            → IfOk result (λ r. StandsForArrivals r.0 (after arrivals change.now) now) }
        ensures between { (arrivals : List Arrival) (was : ℤ) → StandsForArrivals self arrivals was → TakesChange (window_of self) arrivals was change.now now
            → IfOk result (λ r. IsBetween (rows_inside (window_of self) was arrivals) (rows_inside (window_of self) now (after arrivals change.now)) r.1) }
        ensures disjoint { (arrivals : List Arrival) (was : ℤ) → StandsForArrivals self arrivals was → TakesChange (window_of self) arrivals was change.now now
            → IfOk result (λ r. IsDisjoint r.1) }
    {
        match self.kept {
            Kept::Whole => {
                let delta = whole_difference(alloc, change)?;
                Ok((Gate { kept: Kept::Whole }, delta))
            }
            Kept::Time(window) => {
                let (window, delta) = window.step(alloc, change, now)?;
                Ok((
                    Gate {
                        kept: Kept::Time(window),
                    },
                    delta,
                ))
            }
            Kept::Length(window) => {
                let (window, delta) = window.step(alloc, change)?;
                Ok((
                    Gate {
                        kept: Kept::Length(window),
                    },
                    delta,
                ))
            }
        }
    }

    /// `step` in place. A whole window, which keeps nothing, stays where it is. After a call that was refused memory it is to be given up.
    pub fn turn(
        &mut self,
        alloc: Global,
        change: &GateChange,
        now: Millis,
    ) -> Result<Delta, NoMemory>
        ensures window { OnOk result (window_of self.new ≡ window_of self.old) }
        ensures stands { (arrivals : List Arrival) (was : ℤ) → StandsForArrivals self.old arrivals was → TakesChange (window_of self.old) arrivals was change.now now
            → OnOk result (StandsForArrivals self.new (after arrivals change.now) now) }
        ensures between { (arrivals : List Arrival) (was : ℤ) → StandsForArrivals self.old arrivals was → TakesChange (window_of self.old) arrivals was change.now now
            → IfOk result (IsBetween (rows_inside (window_of self.old) was arrivals) (rows_inside (window_of self.old) now (after arrivals change.now))) }
        ensures disjoint { (arrivals : List Arrival) (was : ℤ) → StandsForArrivals self.old arrivals was → TakesChange (window_of self.old) arrivals was change.now now
            → IfOk result IsDisjoint }
    {
        if self.is_whole() {
            let delta = whole_difference(alloc, change)?;
            return Ok(delta);
        }
        let gate = replace(self, Gate { kept: Kept::Whole });
        let (gate, delta) = gate.step(alloc, change, now)?;
        *self = gate;
        Ok(delta)
    }

    /// Whether the window is whole.
    fn is_whole(&self) -> bool
        ensures { IsTrue result → self.now.kept ≡ kept.Whole }
    {
        match &self.kept {
            Kept::Whole => true,
            Kept::Time(_) | Kept::Length(_) => false,
        }
    }
}

/// The difference where all facts are inside: the change itself.
fn whole_difference(alloc: Global, change: &GateChange) -> Result<Delta, NoMemory>
    ensures { (arrivals : List Arrival) (was now : ℤ) → TagsDiffer (map named_of arrivals) → MayChange Whole (map named_of arrivals) change.now
        → IfOk result (IsBetween (rows_inside Whole was arrivals) (rows_inside Whole now (after arrivals change.now))) }
{
    match change {
        GateChange::Come(named, _) => difference(alloc, &[], &[*named]),
        GateChange::Gone(named) => difference(alloc, &[*named], &[]),
        GateChange::Clock => difference(alloc, &[], &[]),
    }
}
