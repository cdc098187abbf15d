ghost use Rattle.std.specs.Prelude.{◌≡◌, ◌&&◌, ◌||◌, not, true, false, Bool, Option, Some, ℤ, int_lt, IfOk, OnOk, IsTrue, IfSome, IfNone, length, ◌+◌};
ghost use Rattle.std.specs.Ordering.{eq_by_cmp};
ghost use Rattle.row_delta.specs.declared.row.Row.{Row};
ghost use Rattle.row_delta.specs.Rows.{has, row_cmp};
ghost use Rattle.row_change.specs.Changes.{LeadsRows, IsDifference};
ghost use Rattle.not_node.specs.Moments.{moment_at};
ghost use Rattle.not_node.specs.Waiting.{waits, waits_at, is_that_moment, mature, ripe, AwaitsMoments, IsMomentFrom, later};

use crate::moments::moment_of;
use due_queue::take_first_due;
use fx_base::{Copies, Facts, NoMemory};
use row_change::Change;
use row_delta::{Delta, Row};
use rule_model::{Pattern, Program};
use std::alloc::Global;
use std::collections::BTreeSet;
use std::ops::Bound;

/// The gate behind a node, which lets its rows through once their moments have passed: the moment from which on all is known, and
/// the rows that wait for theirs. Moments are in milliseconds; they may leave 64 bits.
#[derive(Drop)]
pub struct Ripening {
    floor: i128,
    waiting: BTreeSet<(i128, Row), Global>,
}

/// Puts a copy of the row to the others, where it is wanted.
fn keep(alloc: Global, found: &mut Vec<Row>, row: &Row, wanted: bool) -> Result<(), NoMemory>
    ensures { OnOk result ((r : Row) → has found.new.items r ≡ (has found.old.items r || (wanted && eq_by_cmp row_cmp row.now r))) }
{
    if wanted {
        let copy = row.copy(alloc)?;
        found.push(copy)?;
        return Ok(());
    }
    Ok(())
}

/// The rows that are mature.
fn ripe_of<F: Facts>(
    alloc: Global,
    rows: &[Row],
    floor: i128,
    program: &Program,
    pattern: &Pattern,
    facts: &F,
) -> Result<Vec<Row>, NoMemory>
    ensures { IfOk result (λ found. (r : Row) → has found.items r ≡ (has rows.now r && mature floor (moment_at program.now pattern.now (F.map facts.now) r))) }
{
    let mut found = Vec::new(alloc);
    for row in rows {
        let at = moment_of(alloc, program, pattern, row, facts)?;
        keep(alloc, &mut found, row, is_mature(floor, at))?;
    }
    Ok(found)
}

/// The later of two moments.
fn later(a: i128, b: i128) -> i128
    ensures { result ≡ later a b }
{
    if a < b { b } else { a }
}

/// Whether there is no moment, or it is below the floor.
fn is_mature(floor: i128, at: Option<i128>) -> bool
    ensures { result ≡ mature floor at }
{
    match at {
        Some(at) => at < floor,
        None => true,
    }
}

impl Ripening {
    /// Nothing waits. Takes no memory.
    pub fn new(alloc: Global, floor: i128) -> Ripening
        ensures floor { result.floor ≡ floor }
        ensures none { (at : ℤ) (r : Row) → waits result.waiting.keys at r ≡ false }
    {
        Ripening {
            floor,
            waiting: BTreeSet::new(alloc),
        }
    }

    /// The moment from which on all is known. Takes no memory.
    pub fn floor(&self) -> i128
        ensures { result ≡ self.now.floor }
    {
        self.floor
    }

    /// The least moment for which a row waits. Takes no memory.
    pub fn next_moment(&self) -> Option<i128>
        ensures waits { IfSome result (λ at. (r : Row) × (waits self.now.waiting.keys at r ≡ true)) }
        ensures least { (at : ℤ) (r : Row) → waits self.now.waiting.keys at r ≡ true → IsMomentFrom result at }
    {
        match self.waiting.first() {
            Some(pair) => Some(pair.0),
            None => None,
        }
    }

    /// Whether a row waits.
    fn waits<F: Facts>(
        &self,
        alloc: Global,
        row: &Row,
        program: &Program,
        pattern: &Pattern,
        facts: &F,
    ) -> Result<bool, NoMemory>
        ensures { IfOk result (λ b. b ≡ waits_at self.now.waiting.keys (moment_at program.now pattern.now (F.map facts.now) row.now) row.now) }
    {
        match moment_of(alloc, program, pattern, row, facts)? {
            Some(at) => {
                let pair = (at, row.copy(alloc)?);
                Ok(self.waiting.contains(&pair))
            }
            None => Ok(false),
        }
    }

    /// The rows that do not wait.
    fn passed_of<F: Facts>(
        &self,
        alloc: Global,
        rows: &[Row],
        program: &Program,
        pattern: &Pattern,
        facts: &F,
    ) -> Result<Vec<Row>, NoMemory>
        ensures { IfOk result (λ found. (r : Row) → has found.items r ≡ (has rows.now r && not (waits_at self.now.waiting.keys (moment_at program.now pattern.now (F.map facts.now) r) r))) }
    {
        let mut found = Vec::new(alloc);
        for row in rows {
            let waiting = self.waits(alloc, row, program, pattern, facts)?;
            keep(alloc, &mut found, row, !waiting)?;
        }
        Ok(found)
    }

    /// A row waits no longer.
    fn drop_row<F: Facts>(
        &mut self,
        alloc: Global,
        row: &Row,
        program: &Program,
        pattern: &Pattern,
        facts: &F,
    ) -> Result<(), NoMemory>
        ensures { OnOk result ((at : ℤ) (r : Row) → waits self.new.waiting.keys at r ≡ (waits self.old.waiting.keys at r && not (eq_by_cmp row_cmp row.now r && is_that_moment (moment_at program.now pattern.now (F.map facts.now) r) at))) }
    {
        match moment_of(alloc, program, pattern, row, facts)? {
            Some(at) => {
                let pair = (at, row.copy(alloc)?);
                self.waiting.remove(&pair);
                Ok(())
            }
            None => Ok(()),
        }
    }

    /// Rows wait no longer.
    fn drop_rows<F: Facts>(
        &mut self,
        alloc: Global,
        rows: &[Row],
        program: &Program,
        pattern: &Pattern,
        facts: &F,
    ) -> Result<(), NoMemory>
        ensures { OnOk result ((at : ℤ) (r : Row) → waits self.new.waiting.keys at r ≡ (waits self.old.waiting.keys at r && not (has rows.now r && is_that_moment (moment_at program.now pattern.now (F.map facts.now) r) at))) }
    {
        for row in rows {
            self.drop_row(alloc, row, program, pattern, facts)?;
        }
        Ok(())
    }

    /// A row waits, unless it is mature.
    fn add_row<F: Facts>(
        &mut self,
        alloc: Global,
        row: &Row,
        floor: i128,
        program: &Program,
        pattern: &Pattern,
        facts: &F,
    ) -> Result<(), NoMemory>
        ensures { OnOk result ((at : ℤ) (r : Row) → waits self.new.waiting.keys at r ≡ (waits self.old.waiting.keys at r || ((eq_by_cmp row_cmp row.now r && is_that_moment (moment_at program.now pattern.now (F.map facts.now) r) at) && not (int_lt at floor)))) }
    {
        let at = moment_of(alloc, program, pattern, row, facts)?;
        if is_mature(floor, at) {
            return Ok(());
        }
        match at {
            Some(at) => {
                let pair = (at, row.copy(alloc)?);
                self.waiting.insert(pair)?;
                Ok(())
            }
            None => Ok(()),
        }
    }

    /// Rows wait, unless they are mature.
    fn add_rows<F: Facts>(
        &mut self,
        alloc: Global,
        rows: &[Row],
        floor: i128,
        program: &Program,
        pattern: &Pattern,
        facts: &F,
    ) -> Result<(), NoMemory>
        ensures { OnOk result ((at : ℤ) (r : Row) → waits self.new.waiting.keys at r ≡ (waits self.old.waiting.keys at r || ((has rows.now r && is_that_moment (moment_at program.now pattern.now (F.map facts.now) r) at) && not (int_lt at floor)))) }
    {
        for row in rows {
            self.add_row(alloc, row, floor, program, pattern, facts)?;
        }
        Ok(())
    }

    /// The first row that waits, with its moment, where that is below the floor. It costs one look where none is.
    fn take_due(&mut self, floor: i128) -> Option<(i128, Row)>
        ensures due { IfSome result (λ k. (int_lt k.0 floor ≡ true) × (waits self.old.waiting.keys k.0 k.1 ≡ true)) }
        ensures taken { IfSome result (λ k. (at : ℤ) (r : Row) → waits self.new.waiting.keys at r ≡ (waits self.old.waiting.keys at r && not (eq_by_cmp row_cmp k.1 r && is_that_moment (Some k.0) at))) }
        ensures smaller { IfSome result (λ k. length self.old.waiting.keys ≡ length self.new.waiting.keys + 1) }
        ensures above { IfNone result ((at : ℤ) (r : Row) → waits self.old.waiting.keys at r ≡ true → int_lt at floor ≡ false) }
        ensures unchanged { IfNone result (self.new.waiting.keys ≡ self.old.waiting.keys) }
    {
        let pair = take_first_due(&mut self.waiting, &Bound::Excluded(floor))?;
        Some(pair)
    }

    /// Takes out the rows whose moments are below the floor.
    fn ripen(&mut self, alloc: Global, floor: i128) -> Result<Vec<Row>, NoMemory>
        ensures waits { OnOk result ((at : ℤ) (r : Row) → waits self.new.waiting.keys at r ≡ (waits self.old.waiting.keys at r && not (int_lt at floor))) }
        ensures found { IfOk result (λ found. (moment : Row → Option ℤ) → ((at : ℤ) (r : Row) → waits self.old.waiting.keys at r ≡ true → moment r ≡ Some at)
            → (r : Row) → has found.items r ≡ (waits_at self.old.waiting.keys (moment r) r && mature floor (moment r))) }
    {
        let mut found = Vec::new(alloc);
        'due: while let Some(pair) = self.take_due(floor) {
            let (_, row) = pair;
            found.push(row)?;
        }
        Ok(found)
    }

    /// Takes what has changed in the rows and a new floor, and answers what has changed in the mature ones. A floor below
    /// that of the last call is not taken. Where nothing changes but the floor, it costs one look at the least moment, and
    /// the logarithm of what waits for each row that ripens.
    pub fn advance<F: Facts>(
        &mut self,
        alloc: Global,
        delta: &Delta,
        floor: i128,
        program: &Program,
        pattern: &Pattern,
        facts: &F,
    ) -> Result<Delta, NoMemory>
        ensures floor { OnOk result (self.new.floor ≡ later self.old.floor floor) }
        ensures awaits { OnOk result ((rows rows_now : Row → Bool) → AwaitsMoments (moment_at program.now pattern.now (F.map facts.now)) self.old.floor rows self.old.waiting.keys → LeadsRows rows rows_now delta.now.gone delta.now.come
            → AwaitsMoments (moment_at program.now pattern.now (F.map facts.now)) self.new.floor rows_now self.new.waiting.keys) }
        ensures difference { IfOk result (λ d. (rows rows_now : Row → Bool) → AwaitsMoments (moment_at program.now pattern.now (F.map facts.now)) self.old.floor rows self.old.waiting.keys → LeadsRows rows rows_now delta.now.gone delta.now.come
            → IsDifference (ripe (moment_at program.now pattern.now (F.map facts.now)) self.old.floor rows) (ripe (moment_at program.now pattern.now (F.map facts.now)) self.new.floor rows_now) d) }
    {
        let next = later(self.floor, floor);
        let leave = self.passed_of(alloc, delta.gone.as_slice(), program, pattern, facts)?;
        let come = ripe_of(alloc, delta.come.as_slice(), next, program, pattern, facts)?;
        self.drop_rows(alloc, delta.gone.as_slice(), program, pattern, facts)?;
        self.add_rows(alloc, delta.come.as_slice(), next, program, pattern, facts)?;
        let ripened = self.ripen(alloc, next)?;
        self.floor = next;
        let mut change = Change::none(alloc);
        change.leave(alloc, leave)?;
        change.arrive(alloc, come)?;
        change.arrive(alloc, ripened)?;
        let changed = change.delta(alloc)?;
        Ok(changed)
    }
}
