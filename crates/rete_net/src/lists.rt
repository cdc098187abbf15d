ghost use Rattle.std.specs.Prelude.{◌≡◌, ◌<◌, ℕ, length, true, nat_eq, slice_get, OnOk};
ghost use Rattle.std.specs.List.{list_any};
ghost use Rattle.rete_net.specs.Indexes.{is_listed, items_of};

use fx_base::NoMemory;
use std::alloc::Global;

/// Lists of places, found by numbers from 0 on.
#[derive(Drop)]
pub(crate) struct Lists {
    lists: Vec<Vec<usize>>,
}

impl Lists {
    /// No list has a place. Takes no memory.
    pub(crate) fn new(alloc: Global) -> Lists {
        Lists {
            lists: Vec::new(alloc),
        }
    }

    /// The list of a number. Takes no memory.
    pub(crate) fn list(&self, number: usize) -> &[usize]
        ensures { result.now ≡ items_of (slice_get self.now.lists.items number) }
    {
        match self.lists.get(number) {
            Some(list) => list.as_slice(),
            None => &[],
        }
    }

    /// Puts a place at the end of the list of a number. It costs the numbers below that have no list yet.
    pub(crate) fn put(&mut self, alloc: Global, number: usize, place: usize) -> Result<(), NoMemory>
        ensures put { OnOk result (is_listed self.new number place ≡ true) }
        ensures kept { OnOk result ((n k : ℕ) → is_listed self.old n k ≡ true → is_listed self.new n k ≡ true) }
    {
        self.reach(alloc, number)?;
        self.lists[number].push(place)?;
        Ok(())
    }

    /// Puts a place at the end of the list of a number, where it is not there. It costs a look at the list besides.
    pub(crate) fn put_once(
        &mut self,
        alloc: Global,
        number: usize,
        place: usize,
    ) -> Result<(), NoMemory>
        ensures put { OnOk result (is_listed self.new number place ≡ true) }
        ensures kept { OnOk result ((n k : ℕ) → is_listed self.old n k ≡ true → is_listed self.new n k ≡ true) }
    {
        if self.list(number).contains(&place) {
            return Ok(());
        }
        self.put(alloc, number, place)
    }

    /// Puts empty lists at the end until there is one of this number.
    fn reach(&mut self, alloc: Global, number: usize) -> Result<(), NoMemory>
        ensures reached { OnOk result (number < length self.new.lists.items) }
        ensures kept { OnOk result ((n k : ℕ) → is_listed self.old n k ≡ true → is_listed self.new n k ≡ true) }
    {
        'reach: while self.lists.len() <= number {
            self.lists.push(Vec::new(alloc))?;
        }
        Ok(())
    }
}
