ghost use Rattle.std.specs.Prelude.{◌≡◌, ◌+◌, ◌^◌, ◌<◌, ◌↔◌, [], length, Contains, IfOk, IsSorted, IsTrue};
ghost use Rattle.std.specs.Ordering.{int_cmp};

use crate::totals::Totals;
use crate::{Fold, FoldKind};
use fx_base::{NoMemory, Seq};
use std::alloc::Global;
use std::marker::Model;

/// A fold of any kind, seen as its kind and its values in rising order. It keeps its values,
/// whatever its kind.
///
/// `add`, `take_back` and `holds` cost the logarithm of the number of different values, `result`
/// and `count` at most that. A sum is kept in 128 bits, which the sums of fewer than 2^63 values
/// never leave, so a sum that was outside 64 bits has its result again once it is back.
#[derive(Drop)]
pub struct AnyFold {
    kind: FoldKind,
    values: Totals,
}

impl Model for AnyFold {
    ghost use Rattle.fold_fn.specs.Held.{Held};

    ghost Value = { Held };

    ghost view = { λ fold. record { kind = fold.kind; values = fold.values } };
}

impl AnyFold {
    /// A fold that holds nothing. Takes no memory.
    pub fn new(alloc: Global, kind: FoldKind) -> AnyFold
        ensures kind { result.kind ≡ kind }
        ensures empty { result.values ≡ [] }
    {
        AnyFold {
            kind,
            values: Totals::new(alloc),
        }
    }

    /// Whether a value is among its values. Takes no memory.
    pub fn holds(&self, value: i64) -> bool
        ensures { IsTrue result ↔ Contains self.now.values value }
    {
        self.values.holds(value)
    }

    /// How many values it holds. Takes no memory.
    pub fn count(&self) -> u64
        ensures { result ≡ length self.now.values }
    {
        self.values.count()
    }

    /// Its values, rising, each as often as it is held.
    pub fn values(&self, alloc: Global) -> Result<Seq<i64>, NoMemory>
        ensures values { IfOk result (λ values. values ≡ self.now.values) }
        ensures rising { IfOk result (λ values. IsSorted int_cmp values) }
    {
        self.values.values(alloc)
    }
}

impl Fold for AnyFold {
    ghost kind = { λ fold. fold.kind };

    ghost values = { λ fold. fold.values };

    fn add(&mut self, value: i64) -> Result<(), NoMemory> {
        self.values.add(value)
    }

    fn take_back(&mut self, value: i64) {
        self.values.take_back(value);
    }

    fn result(&self) -> Option<i64> {
        match self.kind {
            FoldKind::Count => Some(self.values.count() as i64),
            FoldKind::Sum => self.values.sum(),
            FoldKind::Least => self.values.least(),
            FoldKind::Greatest => self.values.greatest(),
            FoldKind::Average => self.values.average(),
        }
    }
}
