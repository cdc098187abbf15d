ghost use Rattle.std.specs.Prelude.{◌≡◌, [], ◌-◌, ◌^◌, ◌<◌, ◌↔◌, length, Contains, IfOk, IsSorted, IsTrue, OnOk, OnErr};
ghost use Rattle.std.specs.Ordering.{int_cmp};
ghost use Rattle.fold_fn.specs.Order.{insert_rising};
ghost use Rattle.fold_fn.specs.Results.{total, in_64_bits, average, least, greatest};

use crate::multiset::Multiset;
use fx_base::{NoMemory, Seq};
use std::alloc::Global;
use std::marker::Model;

/// Values with their count and their sum, seen as the values in rising order.
#[derive(Drop)]
pub struct Totals {
    values: Multiset,
    count: u64,
    sum: i128,
}

impl Model for Totals {
    ghost use Rattle.std.specs.Prelude.{ℤ, List};
    ghost use Rattle.fold_fn.specs.Held.{AreTotals};

    ghost Value = { List ℤ };

    ghost view = { λ t. t.values };

    ghost invariant = { λ t. AreTotals t.values t.count t.sum };
}

impl Totals {
    pub fn new(alloc: Global) -> Totals
        ensures { result ≡ [] }
    {
        Totals {
            values: Multiset::new(alloc),
            count: 0,
            sum: 0,
        }
    }

    pub fn add(&mut self, value: i64) -> Result<(), NoMemory>
        requires { length self.old < 2 ^ 63 - 1 }
        ensures ok { OnOk result (self.new ≡ insert_rising value self.old) }
        ensures err { OnErr result (self.new ≡ self.old) }
    {
        self.values.add(value)?;
        self.count += 1;
        self.sum += i128::from(value);
        Ok(())
    }

    pub fn take_back(&mut self, value: i64)
        requires { Contains self.old value }
        ensures { self.old ≡ insert_rising value self.new }
    {
        self.values.take_back(value);
        self.count -= 1;
        self.sum -= i128::from(value);
    }

    pub fn holds(&self, value: i64) -> bool
        ensures { IsTrue result ↔ Contains self.now value }
    {
        self.values.holds(value)
    }

    pub fn count(&self) -> u64
        ensures length { result ≡ length self.now }
        ensures few { result < 2 ^ 63 }
    {
        self.count
    }

    /// The sum, where it fits 64 bits.
    pub fn sum(&self) -> Option<i64>
        ensures { result ≡ in_64_bits (total self.now) }
    {
        i64::try_from(self.sum).ok()
    }

    /// The sum divided by the count, rounded down; none of no values.
    pub fn average(&self) -> Option<i64>
        ensures { result ≡ average self.now }
    {
        if self.count == 0 {
            return None;
        }
        Some(self.sum.div_euclid(i128::from(self.count)) as i64)
    }

    pub fn least(&self) -> Option<i64>
        ensures { result ≡ least self.now }
    {
        self.values.least()
    }

    pub fn greatest(&self) -> Option<i64>
        ensures { result ≡ greatest self.now }
    {
        self.values.greatest()
    }

    pub fn values(&self, alloc: Global) -> Result<Seq<i64>, NoMemory>
        ensures values { IfOk result (λ values. values ≡ self.now) }
        ensures rising { IfOk result (λ values. IsSorted int_cmp values) }
    {
        self.values.values(alloc)
    }
}
