ghost use Rattle.std.specs.Prelude.{◌≡◌, ◌&&◌, ◌||◌, not, None, IfOk, OnOk};
ghost use Rattle.std.specs.Ordering.{eq_by_cmp};
ghost use Rattle.fx_base.specs.declared.value.Value.{Value};
ghost use Rattle.fx_base.specs.Values.{same_value};
ghost use Rattle.row_delta.specs.declared.row.Row.{Row};
ghost use Rattle.row_delta.specs.Rows.{has, row_cmp};
ghost use Rattle.alpha_memory.specs.JoinIndex.{at};
ghost use Rattle.join_tests.specs.Joins.{Look};
ghost use Rattle.join_memory.specs.declared.candidates.Candidates.{Candidates};
ghost use Rattle.join_memory.specs.Memories.{has_left, has_right, KeepsMemories};
ghost use Rattle.join_memory.specs.Apart.{has_row, beside, LooksWhereKept, RowsLeave, RowsCome};

use crate::partners::add_passed;
use alpha_memory::JoinIndex;
use fx_base::{Copies, Facts, NoMemory, Value};
use join_tests::RowKey;
use row_delta::Row;
use std::alloc::Global;

/// The left rows of nodes that look for them under the same values, kept once for all of them. A row is looked up under the join value
/// that it has by the facts of the call. A call costs for each row a hash and the logarithm of what has the same join value. After a
/// call that was refused memory the rows are to be given up.
#[derive(Drop)]
pub struct LeftRows {
    key: RowKey,
    rows: JoinIndex<Value, Row, ()>,
}

impl LeftRows {
    /// No rows, which are kept by this key. Takes no memory.
    pub fn new(alloc: Global, key: RowKey) -> LeftRows
        ensures key { result.key ≡ key }
        ensures nothing { (value : Value) (row : Row) → at same_value row_cmp result.rows value row ≡ None }
    {
        LeftRows {
            key,
            rows: JoinIndex::new(alloc),
        }
    }

    /// By what rows are kept. Takes no memory.
    pub fn key(&self) -> &RowKey
        ensures { result.now ≡ self.now.key }
    {
        &self.key
    }

    /// The index of the rows. Takes no memory.
    pub(crate) fn rows(&self) -> &JoinIndex<Value, Row, ()>
        ensures { result.now ≡ self.now.rows }
    {
        &self.rows
    }

    /// Takes rows out, and answers copies of those that were there.
    pub fn leave<F: Facts>(
        &mut self,
        alloc: Global,
        rows: &[Row],
        facts: &F,
    ) -> Result<Vec<Row>, NoMemory>
        ensures key { OnOk result (self.new.key ≡ self.old.key) }
        ensures keeps { OnOk result (RowsLeave self.old self.new (F.map facts.now) rows.now) }
        ensures went { IfOk result (λ went. (row : Row) → has went.items row ≡ (has rows.now row && has_row self.old (F.map facts.now) row)) }
    {
        let mut went = Vec::new(alloc);
        for row in rows {
            let was = self.take(row, facts);
            add_passed(&mut went, alloc, row, was)?;
        }
        Ok(went)
    }

    /// Puts copies of rows in, and answers copies of those that were not there.
    pub fn come<F: Facts>(
        &mut self,
        alloc: Global,
        rows: &[Row],
        facts: &F,
    ) -> Result<Vec<Row>, NoMemory>
        ensures key { OnOk result (self.new.key ≡ self.old.key) }
        ensures keeps { OnOk result (RowsCome self.old self.new (F.map facts.now) rows.now) }
        ensures came { IfOk result (λ came. (row : Row) → has came.items row ≡ (has rows.now row && not (has_row self.old (F.map facts.now) row))) }
    {
        let mut came = Vec::new(alloc);
        for row in rows {
            let is_new = self.put(alloc, row, facts)?;
            add_passed(&mut came, alloc, row, is_new)?;
        }
        Ok(came)
    }

    // Takes a row out, and answers whether it was there. Takes no memory.
    fn take<F: Facts>(&mut self, row: &Row, facts: &F) -> bool
        ensures key { self.new.key ≡ self.old.key }
        ensures keeps { (c : Candidates) → LooksWhereKept self.old c → KeepsMemories (beside self.old c) (beside self.new c) (F.map facts.now)
            (λ r. has_left (beside self.old c) (F.map facts.now) r && not (eq_by_cmp row_cmp row.now r)) (has_right (beside self.old c) (F.map facts.now)) }
        ensures was { result ≡ has_row self.old (F.map facts.now) row.now }
        ensures rows { (r : Row) → has_row self.new (F.map facts.now) r ≡ (has_row self.old (F.map facts.now) r && not (eq_by_cmp row_cmp row.now r)) }
    {
        let value = self.key.row_value(row, facts);
        self.rows.take(value.value(), row).is_some()
    }

    // Puts a copy of a row in, and answers whether it was not there.
    fn put<F: Facts>(&mut self, alloc: Global, row: &Row, facts: &F) -> Result<bool, NoMemory>
        ensures key { OnOk result (self.new.key ≡ self.old.key) }
        ensures keeps { OnOk result ((c : Candidates) → LooksWhereKept self.old c → KeepsMemories (beside self.old c) (beside self.new c) (F.map facts.now)
            (λ r. has_left (beside self.old c) (F.map facts.now) r || eq_by_cmp row_cmp row.now r) (has_right (beside self.old c) (F.map facts.now))) }
        ensures is_new { IfOk result (λ is_new. is_new ≡ not (has_row self.old (F.map facts.now) row.now)) }
        ensures rows { OnOk result ((r : Row) → has_row self.new (F.map facts.now) r ≡ (has_row self.old (F.map facts.now) r || eq_by_cmp row_cmp row.now r)) }
    {
        let value = self.key.row_value(row, facts).into_value(alloc)?;
        let copy = row.copy(alloc)?;
        let before = self.rows.put(value, copy, ())?;
        Ok(before.is_none())
    }
}
