ghost use Rattle.std.specs.Prelude.{◌≡◌, ℕ, ℤ, Option, Some, false, IfOk, OnOk};
ghost use Rattle.beta_node.specs.Quiet.{IsBefore};
ghost use Rattle.rete_net.specs.Indexes.{is_in};
ghost use Rattle.rete_net.specs.Timers.{IsFrom, IsSet};

use due_queue::DueMap;
use fx_base::NoMemory;
use std::alloc::Global;
use std::ops::Bound;

/// Places that wait for moments, in milliseconds, each for at most one. A call costs the logarithm of their number, for each place that
/// it puts in, takes out or answers.
#[derive(Drop)]
pub(crate) struct Timers {
    waiting: DueMap<i128, usize, ()>,
}

impl Timers {
    /// No place waits. Takes no memory.
    pub(crate) fn new(alloc: Global) -> Timers {
        Timers {
            waiting: DueMap::new(alloc),
        }
    }

    /// Lets a place wait for this moment and no other; without one it waits no longer.
    pub(crate) fn put(&mut self, place: usize, at: Option<i128>) -> Result<(), NoMemory>
        ensures put { OnOk result (IsSet self.new place at) }
        ensures others { OnOk result ((k : ℕ) (until : Option ℤ) → (k ≡ place → ⊥) → IsSet self.old k until → IsSet self.new k until) }
    {
        match at {
            Some(at) => self.put_at(place, at),
            None => {
                self.cancel(place);
                Ok(())
            }
        }
    }

    fn put_at(&mut self, place: usize, at: i128) -> Result<(), NoMemory>
        ensures put { OnOk result (IsSet self.new place (Some at)) }
        ensures others { OnOk result ((k : ℕ) (until : Option ℤ) → (k ≡ place → ⊥) → IsSet self.old k until → IsSet self.new k until) }
    {
        match self.waiting.moment(place) {
            Some(was) if was == at => Ok(()),
            _ => {
                self.waiting.put(at, place, ())?;
                Ok(())
            }
        }
    }

    fn cancel(&mut self, place: usize)
        ensures others { (k : ℕ) (until : Option ℤ) → (k ≡ place → ⊥) → IsSet self.old k until → IsSet self.new k until }
    {
        self.waiting.cancel(place);
    }

    /// The places whose moments are below a bound.
    pub(crate) fn below(&self, alloc: Global, bound: i128) -> Result<Vec<usize>, NoMemory>
        ensures { IfOk result (λ places. (k : ℕ) (until : Option ℤ) → IsSet self.now k until → is_in places.items k ≡ false → IsFrom bound until) }
    {
        let places = self.waiting.due(alloc, Bound::Excluded(bound))?;
        Ok(places)
    }

    /// The least moment for which a place waits. Takes no memory.
    pub(crate) fn first(&self) -> Option<i128>
        ensures { (k : ℕ) (until : Option ℤ) (clock : ℤ) → IsSet self.now k until → IsBefore result clock → IsBefore until clock }
    {
        match self.waiting.first() {
            Some(first) => Some(first.0),
            None => None,
        }
    }
}
