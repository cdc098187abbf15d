//! What of a turn of candidates is handed to nodes.
ghost use Rattle.std.specs.Prelude.{◌≡◌, ◌++◌, [], OnOk};
ghost use Rattle.std.specs.Ordering.{eq_by_cmp, nat_cmp};
ghost use Rattle.candidate_source.specs.Handed.{went, came, IsHandedTo};

use fx_base::NoMemory;
use row_delta::Named;
use std::alloc::Global;
use std::collections::BTreeMap;

/// Of the candidates that went and came in a turn, those that are handed to the node in a place.
#[derive(Drop)]
pub struct Handed {
    pub gone: Vec<Named>,
    pub come: Vec<Named>,
}

/// A candidate that went or came.
#[derive(Clone, Copy, Debug)]
pub(crate) enum Turned {
    Gone(Named),
    Came(Named),
}

impl Handed {
    /// Nothing. Takes no memory.
    pub(crate) fn none(alloc: Global) -> Handed
        ensures gone { result.gone.items ≡ [] }
        ensures come { result.come.items ≡ [] }
    {
        Handed {
            gone: Vec::new(alloc),
            come: Vec::new(alloc),
        }
    }

    fn put(&mut self, turned: Turned) -> Result<(), NoMemory>
        ensures gone { OnOk result (self.new.gone.items ≡ self.old.gone.items ++ went turned) }
        ensures come { OnOk result (self.new.come.items ≡ self.old.come.items ++ came turned) }
    {
        match turned {
            Turned::Gone(who) => self.gone.push(who)?,
            Turned::Came(who) => self.come.push(who)?,
        }
        Ok(())
    }
}

/// Hands a candidate to the node in a place, behind what was handed to it before.
pub(crate) fn hand_to(
    handed: &mut BTreeMap<usize, Handed>,
    alloc: Global,
    place: usize,
    turned: Turned,
) -> Result<(), NoMemory>
    ensures { OnOk result (IsHandedTo turned (eq_by_cmp nat_cmp place) handed.old handed.new) }
{
    match handed.get_mut(&place) {
        Some(before) => before.put(turned),
        None => {
            let mut first = Handed::none(alloc);
            first.put(turned)?;
            handed.insert(place, first)?;
            Ok(())
        }
    }
}
