ghost use Rattle.std.specs.Prelude.{◌≡◌, ◌&&◌, ◌||◌, ◌↔◌, not, is_ok, [], length, IfOk, IfErr, OnOk, IsTrue};
ghost use Rattle.std.specs.Ordering.{eq_by_cmp};
ghost use Rattle.row_delta.specs.Rows.{row_cmp, has, InOrder};
ghost use Rattle.row_delta.specs.declared.row.Row.{Row};
ghost use Rattle.row_change.specs.Gaps.{IsGap, StandsAt};

use fx_base::{NoMemory, Seq};
use row_delta::Row;
use std::alloc::Global;
use std::collections::BTreeSet;
use std::marker::Model;
use std::mem;

/// Up to so many rows a list moves them for a row that goes in or out between them.
const SMALL: usize = 32;

/// Rows in order: a list, or a tree where they are many and come or go out of order.
#[derive(Drop)]
enum Form {
    Listed(Vec<Row>),
    Tree(BTreeSet<Row, Global>),
}

/// A set of rows, seen as its rows in order. Rows that come in order stand in a list; where many rows come out of order, or
/// `spread` is called, they stand in a tree from then on.
#[derive(Drop)]
pub struct RowSet {
    form: Form,
}

impl Model for RowSet {
    ghost use Rattle.row_change.specs.RowSets.{Kept};

    ghost Value = { Kept };

    ghost use Rattle.row_change.specs.RowSets.{form_rows, IsFormKept};

    ghost view = { λ s. record { keys = form_rows s.form } };

    ghost invariant = { λ s. IsFormKept s.form };
}

impl RowSet {
    /// No rows. Takes no memory.
    pub fn new(alloc: Global) -> RowSet
        ensures { result.keys ≡ [] }
    {
        RowSet {
            form: Form::Listed(Vec::new(alloc)),
        }
    }

    /// Whether there are no rows. Takes no memory.
    pub fn is_empty(&self) -> bool
        ensures { IsTrue result ↔ (self.now.keys ≡ []) }
    {
        match &self.form {
            Form::Listed(rows) => rows.is_empty(),
            Form::Tree(rows) => rows.is_empty(),
        }
    }

    /// Whether a row is there. It costs the logarithm of the rows, and takes no memory.
    pub fn contains(&self, row: &Row) -> bool
        ensures { result ≡ has self.now.keys row.now }
    {
        match &self.form {
            Form::Listed(rows) => place(rows.as_slice(), row).is_ok(),
            Form::Tree(rows) => rows.contains(row),
        }
    }

    /// Puts a row in. It costs one comparison where the row is greater than all others, else the logarithm of the rows, and
    /// once, where they are many, what a tree of them costs.
    pub fn insert(&mut self, row: Row) -> Result<(), NoMemory>
        ensures { OnOk result ((r : Row) → has self.new.keys r ≡ (has self.old.keys r || eq_by_cmp row_cmp row r)) }
    {
        if !self.has_place_for(&row) {
            self.spread(1)?;
        }
        self.put_in(row)
    }

    /// Puts rows in. Rows in order that come into an empty set are taken over as they are.
    pub fn insert_all(&mut self, rows: Vec<Row>) -> Result<(), NoMemory>
        ensures { OnOk result ((r : Row) → has self.new.keys r ≡ (has self.old.keys r || has rows.items r)) }
    {
        if self.is_empty() && is_rising(rows.as_slice()) {
            self.form = Form::Listed(rows);
            return Ok(());
        }
        for row in rows {
            self.insert(row)?;
        }
        Ok(())
    }

    /// Takes a row out, if it is there. It costs the logarithm of the rows; of a list that is not small, which `spread` would
    /// make a tree, it moves those behind it. Takes no memory.
    pub fn remove(&mut self, row: &Row)
        ensures { (r : Row) → has self.new.keys r ≡ (has self.old.keys r && not (eq_by_cmp row_cmp row.now r)) }
    {
        match &mut self.form {
            Form::Listed(rows) => take_out(rows, row),
            Form::Tree(rows) => {
                rows.remove(row);
            }
        }
    }

    /// Makes a tree of a list that is not small, where so many rows are to go in or out: each then costs a logarithm.
    pub fn spread(&mut self, moves: usize) -> Result<(), NoMemory>
        ensures { OnOk result ((r : Row) → has self.new.keys r ≡ has self.old.keys r) }
    {
        if let Form::Listed(rows) = &mut self.form {
            if moves > 0 && rows.len() > SMALL {
                self.form = Form::Tree(tree_of(rows)?);
            }
        }
        Ok(())
    }

    /// The rows in order. A list is moved out, and takes no memory.
    pub fn into_seq(self, alloc: Global) -> Result<Seq<Row>, NoMemory>
        ensures rows { IfOk result (λ rows. rows ≡ self.keys) }
        ensures in_order { IfOk result InOrder }
    {
        match self.form {
            Form::Listed(rows) => Ok(Seq::from_vec(rows)),
            Form::Tree(rows) => {
                let listed: Vec<Row> = rows.into_iter().collect(alloc)?;
                Ok(Seq::from_vec(listed))
            }
        }
    }

    /// Whether a row can go in without moving many.
    fn has_place_for(&self, row: &Row) -> bool {
        match &self.form {
            Form::Listed(rows) => rows.len() < SMALL || is_above(rows.as_slice(), row),
            Form::Tree(_) => true,
        }
    }

    fn put_in(&mut self, row: Row) -> Result<(), NoMemory>
        ensures { OnOk result ((r : Row) → has self.new.keys r ≡ (has self.old.keys r || eq_by_cmp row_cmp row r)) }
    {
        match &mut self.form {
            Form::Listed(rows) => {
                put(rows, row)?;
                Ok(())
            }
            Form::Tree(rows) => {
                rows.insert(row)?;
                Ok(())
            }
        }
    }
}

/// Whether a row is greater than all of these, which are in order.
fn is_above(rows: &[Row], row: &Row) -> bool
    ensures { IsTrue result → InOrder rows.now → IsGap rows.now row.now (length rows.now) }
{
    match rows.last() {
        Some(last) => last.cmp(row).is_lt(),
        None => true,
    }
}

/// Whether each row is less than the next.
fn is_rising(rows: &[Row]) -> bool
    ensures { IsTrue result → InOrder rows.now }
{
    rows.is_sorted_by(|row, next| row.cmp(next).is_lt())
}

/// Where a row stands among these, or where it would go.
fn place(rows: &[Row], row: &Row) -> Result<usize, usize>
    requires { InOrder rows.now }
    ensures found { is_ok result ≡ has rows.now row.now }
    ensures at { IfOk result (StandsAt rows.now row.now) }
    ensures gap { IfErr result (IsGap rows.now row.now) }
{
    if is_above(rows, row) {
        return Err(rows.len());
    }
    rows.binary_search(row)
}

/// Puts a row to its place, unless it is there.
fn put(rows: &mut Vec<Row>, row: Row) -> Result<(), NoMemory>
    requires { InOrder rows.old.items }
    ensures in_order { InOrder rows.new.items }
    ensures rows { OnOk result ((r : Row) → has rows.new.items r ≡ (has rows.old.items r || eq_by_cmp row_cmp row r)) }
{
    match place(rows.as_slice(), &row) {
        Ok(_) => Ok(()),
        Err(at) => Ok(rows.insert(at, row)?),
    }
}

/// Takes a row from its place, if it is there.
fn take_out(rows: &mut Vec<Row>, row: &Row)
    requires { InOrder rows.old.items }
    ensures in_order { InOrder rows.new.items }
    ensures rows { (r : Row) → has rows.new.items r ≡ (has rows.old.items r && not (eq_by_cmp row_cmp row.now r)) }
{
    match place(rows.as_slice(), row) {
        Ok(at) => {
            rows.remove(at);
        }
        Err(_) => {}
    }
}

/// A tree of these rows, which leave the list.
fn tree_of(rows: &mut Vec<Row>) -> Result<BTreeSet<Row, Global>, NoMemory>
    ensures rows { IfOk result (λ tree. (r : Row) → has tree.keys r ≡ has rows.old.items r) }
    ensures left { rows.new.items ≡ [] }
{
    let alloc = *rows.allocator();
    let all = mem::replace(rows, Vec::new(alloc));
    Ok(all.into_iter().collect(alloc)?)
}
