ghost use Rattle.std.specs.Prelude.{◌≡◌, ◌&&◌, ◌||◌, not, true, false, Bool, IfOk, OnOk};
ghost use Rattle.row_delta.specs.Rows.{has};
ghost use Rattle.row_delta.specs.declared.row.Row.{Row};
ghost use Rattle.row_change.specs.Changes.{LeadsRows, IsDifference, without, along, changes_nothing};

use crate::row_set::RowSet;
use fx_base::NoMemory;
use row_delta::{Delta, Row};
use std::alloc::Global;

/// What has changed in a set of rows so far: those that went, and those that came. A row that goes and comes back is in
/// neither.
#[derive(Drop)]
pub struct Change {
    gone: RowSet,
    come: RowSet,
}

impl Change {
    /// Nothing has changed. Takes no memory.
    pub fn none(alloc: Global) -> Change
        ensures { (rows : Row → Bool) → LeadsRows rows rows result.gone.keys result.come.keys }
    {
        Change {
            gone: RowSet::new(alloc),
            come: RowSet::new(alloc),
        }
    }

    /// Rows go that are there. It costs the logarithm of what has changed for each.
    pub fn leave(&mut self, alloc: Global, rows: Vec<Row>) -> Result<(), NoMemory>
        ensures { OnOk result ((old now : Row → Bool) → LeadsRows old now self.old.gone.keys self.old.come.keys
            → ((row : Row) → has rows.items row ≡ true → now row ≡ true)
            → LeadsRows old (without now rows.items) self.new.gone.keys self.new.come.keys) }
    {
        cross(alloc, &mut self.come, &mut self.gone, rows)
    }

    /// Rows come that are not there. It costs the logarithm of what has changed for each.
    pub fn arrive(&mut self, alloc: Global, rows: Vec<Row>) -> Result<(), NoMemory>
        ensures { OnOk result ((old now : Row → Bool) → LeadsRows old now self.old.gone.keys self.old.come.keys
            → ((row : Row) → has rows.items row ≡ true → now row ≡ false)
            → LeadsRows old (along now rows.items) self.new.gone.keys self.new.come.keys) }
    {
        cross(alloc, &mut self.gone, &mut self.come, rows)
    }

    /// What has changed, in order.
    pub fn delta(self, alloc: Global) -> Result<Delta, NoMemory>
        ensures { IfOk result (λ delta. (old now : Row → Bool) → LeadsRows old now self.gone.keys self.come.keys → IsDifference old now delta) }
    {
        Ok(Delta {
            gone: self.gone.into_seq(alloc)?,
            come: self.come.into_seq(alloc)?,
        })
    }
}

/// Takes the rows out of the one set, and puts those that it does not have into the other.
fn cross(alloc: Global, from: &mut RowSet, to: &mut RowSet, rows: Vec<Row>) -> Result<(), NoMemory>
    ensures from { OnOk result ((row : Row) → has from.new.keys row ≡ (has from.old.keys row && not (has rows.items row))) }
    ensures to { OnOk result ((row : Row) → has to.new.keys row ≡ (has to.old.keys row || (has rows.items row && not (has from.old.keys row)))) }
{
    if rows.is_empty() {
        return Ok(());
    }
    if from.is_empty() {
        to.insert_all(rows)?;
        return Ok(());
    }
    let both = parted(alloc, from, to, rows)?;
    from.spread(both.len())?;
    remove_all(from, both.as_slice());
    Ok(())
}

/// Puts those of the rows that the one set does not have into the other, and answers those that it has.
fn parted(
    alloc: Global,
    from: &RowSet,
    to: &mut RowSet,
    rows: Vec<Row>,
) -> Result<Vec<Row>, NoMemory>
    ensures to { OnOk result ((row : Row) → has to.new.keys row ≡ (has to.old.keys row || (has rows.items row && not (has from.now.keys row)))) }
    ensures both { IfOk result (λ both. (row : Row) → has both.items row ≡ (has rows.items row && has from.now.keys row)) }
{
    let mut both = Vec::new(alloc);
    for row in rows {
        if from.contains(&row) {
            both.push(row)?;
        } else {
            to.insert(row)?;
        }
    }
    Ok(both)
}

fn remove_all(set: &mut RowSet, rows: &[Row])
    ensures { (row : Row) → has set.new.keys row ≡ (has set.old.keys row && not (has rows.now row)) }
{
    for row in rows {
        set.remove(row);
    }
}

/// Whether nothing goes and nothing comes. Takes no memory.
pub fn changes_nothing(delta: &Delta) -> bool
    ensures { result ≡ changes_nothing delta.now }
{
    match (delta.gone.as_slice(), delta.come.as_slice()) {
        ([], []) => true,
        _ => false,
    }
}
