ghost use Rattle.std.specs.Prelude.{◌≡◌, ◌&&◌, ◌+◌, Bool, true, false, ℤ, IfOk};
ghost use Rattle.std.specs.Ordering.{eq_by_cmp};
ghost use Rattle.row_delta.specs.declared.row.Named.{Named};
ghost use Rattle.row_delta.specs.declared.row.Row.{Row};
ghost use Rattle.row_delta.specs.Rows.{row_cmp};
ghost use Rattle.join_tests.specs.Joins.{Look};
ghost use Rattle.join_memory.specs.Standing.{either};
ghost use Rattle.counting_node.specs.Counts.{IsNumber, zero_where};
ghost use Rattle.counting_node.specs.Extras.{AreApart, IsBeyond, nothing_gathered};
ghost use Rattle.counting_node.specs.Origins.{is_from, itself, shows_any};
ghost use Rattle.counting_node.specs.Tallies.{with_one, less_one};

use crate::{Beyond, Tally};
use fx_base::{Copies, Facts, NoMemory, Seq};
use row_delta::{Extra, Named, Row};
use std::alloc::Global;

/// The tally of a `not`: how many candidates pass. The left row is a row of the node where none does.
#[derive(Debug, Drop)]
pub struct Blockers(pub u64);

/// The tally of an `exists`: how many candidates pass. The left row is a row of the node where one does.
#[derive(Debug, Drop)]
pub struct Witnesses(pub u64);

/// One candidate more; a number that is full is refused memory.
fn one_more(count: u64) -> Result<u64, NoMemory>
    ensures { IfOk result (λ now. (set : Named → Bool) (who : Named) → IsNumber set count → set who ≡ false → IsNumber (with_one set who) now) }
{
    match count.checked_add(1) {
        Some(now) => Ok(now),
        None => Err(NoMemory),
    }
}

/// One candidate less.
fn one_less(count: u64) -> u64
    ensures { (set : Named → Bool) (who : Named) → IsNumber set count → set who ≡ true → IsNumber (less_one set who) result }
{
    count.saturating_sub(1)
}

/// So many candidates more; a number that is full is refused memory.
fn with_more(count: u64, more: u64) -> Result<u64, NoMemory>
    ensures { IfOk result (λ now. now ≡ count + more) }
{
    match count.checked_add(more) {
        Some(now) => Ok(now),
        None => Err(NoMemory),
    }
}

/// How many candidates are counted beyond a part of them.
fn beyond(alloc: Global, count: u64, part: u64) -> Beyond
    ensures { (world : Look) (set others : Named → Bool) → AreApart set others → IsNumber (either set others) count → IsNumber set part
        → IsBeyond nothing_gathered world others result.count result.values }
{
    Beyond {
        count: count.saturating_sub(part),
        values: Seq::from_vec(Vec::new(alloc)),
    }
}

/// That a left row is a row of the node as it is, or none.
fn zero_where(shows: bool) -> Option<i64>
    ensures { result ≡ zero_where shows }
{
    if shows { Some(0) } else { None }
}

/// The left row as it is.
fn itself(alloc: Global, row: &Row) -> Result<Row, NoMemory>
    ensures { IfOk result (λ made. (value : ℤ) (r : Row) → eq_by_cmp row_cmp r made ≡ (is_from (itself r) row.now && shows_any value r)) }
{
    let copy = row.copy(alloc)?;
    Ok(copy)
}

impl Tally for Blockers {
    ghost use Rattle.counting_node.specs.Counts.{counts_blockers, where_unblocked};
    ghost use Rattle.counting_node.specs.Origins.{itself, shows_any};
    ghost use Rattle.counting_node.specs.Extras.{blockers_laden, nothing_gathered};

    type Plan = ();

    ghost holds = { λ plan. counts_blockers };

    ghost output = { λ plan. where_unblocked };

    ghost origin = { itself };

    ghost gives = { shows_any };

    ghost laden = { λ plan. blockers_laden };

    ghost gathered = { λ plan. nothing_gathered };

    fn none(_alloc: Global, _plan: &()) -> Blockers {
        Blockers(0)
    }

    fn add<F: Facts>(
        self,
        _alloc: Global,
        _plan: &(),
        _who: Named,
        _facts: &F,
    ) -> Result<Blockers, NoMemory> {
        let count = one_more(self.0)?;
        Ok(Blockers(count))
    }

    fn take<F: Facts>(
        self,
        _alloc: Global,
        _plan: &(),
        _who: Named,
        _facts: &F,
    ) -> Result<Blockers, NoMemory> {
        Ok(Blockers(one_less(self.0)))
    }

    fn with_extra(self, _plan: &(), extra: &Extra) -> Result<Blockers, NoMemory> {
        let count = with_more(self.0, extra.count)?;
        Ok(Blockers(count))
    }

    fn beyond(&self, alloc: Global, _plan: &(), part: &Blockers) -> Result<Beyond, NoMemory> {
        Ok(beyond(alloc, self.0, part.0))
    }

    fn output<F: Facts>(&self, _plan: &(), _row: &Row, _facts: &F) -> Option<i64> {
        zero_where(self.0 == 0)
    }

    fn made(alloc: Global, row: &Row, _value: i64) -> Result<Row, NoMemory> {
        let made = itself(alloc, row)?;
        Ok(made)
    }
}

impl Tally for Witnesses {
    ghost use Rattle.counting_node.specs.Counts.{counts_witnesses, where_witnessed};
    ghost use Rattle.counting_node.specs.Origins.{itself, shows_any};
    ghost use Rattle.counting_node.specs.Extras.{witnesses_laden, nothing_gathered};

    type Plan = ();

    ghost holds = { λ plan. counts_witnesses };

    ghost output = { λ plan. where_witnessed };

    ghost origin = { itself };

    ghost gives = { shows_any };

    ghost laden = { λ plan. witnesses_laden };

    ghost gathered = { λ plan. nothing_gathered };

    fn none(_alloc: Global, _plan: &()) -> Witnesses {
        Witnesses(0)
    }

    fn add<F: Facts>(
        self,
        _alloc: Global,
        _plan: &(),
        _who: Named,
        _facts: &F,
    ) -> Result<Witnesses, NoMemory> {
        let count = one_more(self.0)?;
        Ok(Witnesses(count))
    }

    fn take<F: Facts>(
        self,
        _alloc: Global,
        _plan: &(),
        _who: Named,
        _facts: &F,
    ) -> Result<Witnesses, NoMemory> {
        Ok(Witnesses(one_less(self.0)))
    }

    fn with_extra(self, _plan: &(), extra: &Extra) -> Result<Witnesses, NoMemory> {
        let count = with_more(self.0, extra.count)?;
        Ok(Witnesses(count))
    }

    fn beyond(&self, alloc: Global, _plan: &(), part: &Witnesses) -> Result<Beyond, NoMemory> {
        Ok(beyond(alloc, self.0, part.0))
    }

    fn output<F: Facts>(&self, _plan: &(), _row: &Row, _facts: &F) -> Option<i64> {
        zero_where(self.0 != 0)
    }

    fn made(alloc: Global, row: &Row, _value: i64) -> Result<Row, NoMemory> {
        let made = itself(alloc, row)?;
        Ok(made)
    }
}
