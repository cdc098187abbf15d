ghost use Rattle.std.specs.Prelude.{◌≡◌, [], ◌+◌, ◌-◌, ◌^◌, ◌<◌, ◌↔◌, length, Contains, IfOk, IsSorted, IsTrue, OnOk, OnErr};
ghost use Rattle.std.specs.BTreeMap.{get, IsUnchanged, IsOrdered};
ghost use Rattle.std.specs.Map.{count_at};
ghost use Rattle.std.specs.Ordering.{int_cmp};
ghost use Rattle.fold_fn.specs.Order.{insert_rising};
ghost use Rattle.fold_fn.specs.Results.{least, greatest};
ghost use Rattle.fold_fn.specs.Held.{HasOneMore, NoneIsZero};

use crate::repeat::push_times;
use fx_base::{NoMemory, Seq};
use std::alloc::Global;
use std::collections::BTreeMap;
use std::marker::Model;

/// A multiset of whole numbers over a search tree, seen as its numbers in rising order.
#[derive(Drop)]
pub struct Multiset {
    times: BTreeMap<i64, u64>,
}

impl Model for Multiset {
    ghost use Rattle.std.specs.Prelude.{ℤ, List};
    ghost use Rattle.fold_fn.specs.Order.{in_rising_order};
    ghost use Rattle.std.specs.BTreeMap.{get};
    ghost use Rattle.std.specs.Ordering.{int_cmp};
    ghost use Rattle.fold_fn.specs.Held.{repeated, NoneIsZero};

    ghost Value = { List ℤ };

    ghost view = { λ s. in_rising_order (repeated s.times.entries) };

    ghost invariant = { λ s. NoneIsZero (get int_cmp s.times) };
}

impl Multiset {
    pub fn new(alloc: Global) -> Multiset
        ensures { result ≡ [] }
    {
        Multiset {
            times: BTreeMap::new(alloc),
        }
    }

    pub fn add(&mut self, value: i64) -> Result<(), NoMemory>
        requires { length self.old < 2 ^ 63 }
        ensures ok { OnOk result (self.new ≡ insert_rising value self.old) }
        ensures err { OnErr result (self.new ≡ self.old) }
    {
        raise(&mut self.times, value)
    }

    pub fn take_back(&mut self, value: i64)
        requires { Contains self.old value }
        ensures { self.old ≡ insert_rising value self.new }
    {
        lower(&mut self.times, value);
    }

    pub fn holds(&self, value: i64) -> bool
        ensures { IsTrue result ↔ Contains self.now value }
    {
        self.times.contains_key(&value)
    }

    pub fn least(&self) -> Option<i64>
        ensures { result ≡ least self.now }
    {
        let (value, _) = self.times.first_key_value()?;
        Some(*value)
    }

    pub fn greatest(&self) -> Option<i64>
        ensures { result ≡ greatest self.now }
    {
        let (value, _) = self.times.last_key_value()?;
        Some(*value)
    }

    /// The numbers in rising order.
    pub fn values(&self, alloc: Global) -> Result<Seq<i64>, NoMemory>
        ensures values { IfOk result (λ values. values ≡ self.now) }
        ensures rising { IfOk result (λ values. IsSorted int_cmp values) }
    {
        let mut values = Vec::new(alloc);
        for (value, times) in self.times.iter() {
            push_times(&mut values, *value, *times)?;
        }
        Ok(Seq::from_vec(values))
    }
}

fn raise(times: &mut BTreeMap<i64, u64>, value: i64) -> Result<(), NoMemory>
    requires room { count_at (get int_cmp times.old) value < 2 ^ 63 }
    requires counts { NoneIsZero (get int_cmp times.old) }
    ensures ok { OnOk result (HasOneMore (get int_cmp times.old) (get int_cmp times.new) value) }
    ensures err { OnErr result (IsUnchanged times.old times.new) }
    ensures counts { NoneIsZero (get int_cmp times.new) }
    ensures ordered { IsOrdered int_cmp times.new }
    ensures was_ordered { IsOrdered int_cmp times.old }
{
    *times.entry(value)?.or_insert(0) += 1;
    Ok(())
}

fn lower(times: &mut BTreeMap<i64, u64>, value: i64)
    requires held { 0 < count_at (get int_cmp times.old) value }
    requires counts { NoneIsZero (get int_cmp times.old) }
    ensures one { HasOneMore (get int_cmp times.new) (get int_cmp times.old) value }
    ensures counts { NoneIsZero (get int_cmp times.new) }
    ensures ordered { IsOrdered int_cmp times.new }
    ensures was_ordered { IsOrdered int_cmp times.old }
{
    match times.get_mut(&value) {
        Some(n) if *n > 1 => *n -= 1,
        _ => {
            let _ = times.remove(&value);
        }
    }
}
