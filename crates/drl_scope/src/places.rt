ghost use Rattle.std.specs.Prelude.{◌≡◌, ◌<◌, ◌++◌, ◌∷◌, [], length, is_some, IfOk, IfSome};
ghost use Rattle.drl_scope.specs.Names.{place_of_name, are_distinct};
ghost use Rattle.drl_expr.specs.Words.{is_among};
ghost use Rattle.drl_scope.specs.EntryPoints.{with_entry_name};

use fx_base::{Copies, NoMemory, Text};
use std::alloc::Global;
use std::collections::HashMap;
use std::marker::Model;

/// Names in their order, with the place of the first of each. A name is found in a time that does not depend on their
/// number.
#[derive(Drop)]
pub struct Places {
    names: Vec<Text>,
    first: HashMap<Text, usize>,
}

impl Model for Places {
    ghost use Rattle.std.specs.Prelude.{ℕ, List};
    ghost use Rattle.drl_scope.specs.Places.{AreFirst};

    ghost Value = { List (List ℕ) };

    ghost view = { λ p. p.names.items };

    ghost invariant = { λ p. AreFirst p.names.items p.first };
}

impl Places {
    /// No names. Takes no memory.
    pub fn new(alloc: Global) -> Places
        ensures { result ≡ [] }
    {
        Places {
            names: Vec::new(alloc),
            first: HashMap::new(alloc),
        }
    }

    /// The names of a slice, in its order.
    pub fn of(alloc: Global, names: &[Text]) -> Result<Places, NoMemory>
        ensures { IfOk result (λ p. p ≡ names.now) }
    {
        let mut places = Places::new(alloc);
        for name in names {
            places = places.with(alloc, name)?;
        }
        Ok(places)
    }

    /// How many names there are.
    pub fn len(&self) -> usize
        ensures { result ≡ length self.now }
    {
        self.names.len()
    }

    /// The place of the first of this name.
    pub fn find(&self, name: &Text) -> Option<usize>
        ensures { result ≡ place_of_name self.now name.now }
    {
        self.first.get(name).copied()
    }

    /// Whether the name is one of them.
    pub fn holds(&self, name: &Text) -> bool
        ensures { result ≡ is_among self.now name.now }
    {
        self.find(name).is_some()
    }

    /// The same with one more name at the end.
    pub fn with(self, alloc: Global, name: &Text) -> Result<Places, NoMemory>
        ensures { IfOk result (λ p. p ≡ self ++ name.now ∷ []) }
    {
        let Places {
            mut names,
            mut first,
        } = self;
        let place = names.len();
        names.push(name.copy(alloc)?)?;
        if first.get(name).is_none() {
            first.insert(name.copy(alloc)?, place)?;
        }
        Ok(Places { names, first })
    }

    /// The same, with the name at the end where it is new.
    pub fn with_new(self, alloc: Global, name: &Text) -> Result<Places, NoMemory>
        ensures { IfOk result (λ p. p ≡ with_entry_name self name.now) }
    {
        if self.holds(name) {
            Ok(self)
        } else {
            self.with(alloc, name)
        }
    }

    /// The names, in their order.
    pub fn names(&self) -> &[Text]
        ensures { result.now ≡ self.now }
    {
        &self.names
    }
}
