ghost use Rattle.std.specs.Prelude.{◌≡◌, Option, IfOk};
ghost use Rattle.row_delta.specs.declared.row.Row.{Row};
ghost use Rattle.row_delta.specs.Rows.{has, InOrder};
ghost use Rattle.join_tests.specs.Joins.{Look};
ghost use Rattle.join_memory.specs.declared.candidates.Candidates.{Candidates};
ghost use Rattle.join_memory.specs.Memories.{has_left, Agrees};
ghost use Rattle.join_memory.specs.Shared.{over};

use super::Memories;
use fx_base::NoMemory;
use row_delta::Row;
use std::alloc::Global;
use std::collections::BTreeSet;

impl<S: Drop> Memories<S> {
    /// The left rows that are kept, in order. It costs a copy of each, and the logarithm of their number.
    pub fn left_rows(&self, alloc: Global) -> Result<Vec<Row>, NoMemory>
        ensures rows { IfOk result (λ rows. (look : Look) → Agrees self.now look → (row : Row) → has rows.items row ≡ has_left self.now look row) }
        ensures shared { IfOk result (λ rows. (shared : Option Candidates) (look : Look) → Agrees (over self.now shared) look → (row : Row) → has rows.items row ≡ has_left self.now look row) }
        ensures in_order { IfOk result (λ rows. InOrder rows.items) }
    {
        let keys = self.left.keys(alloc)?;
        let rows: BTreeSet<Row, Global> = keys.into_iter().collect(alloc)?;
        Ok(rows.into_iter().collect(alloc)?)
    }
}
