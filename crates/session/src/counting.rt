ghost use Rattle.std.specs.Prelude.{◌≡◌, ◌≤◌, ◌^◌, length, IfOk};
ghost use Rattle.rule_model.specs.Types.{event_types as types_of_events};
ghost use Rattle.session_model.specs.Counts.{AreCounts};

use crate::state::State;
use fact_store::FactStore;
use fx_base::{NoMemory, TypeId};
use rule_model::TypeInfo;
use std::alloc::Global;

/// The event types among these, in their order.
pub(crate) fn event_types(alloc: Global, types: &[TypeInfo]) -> Result<Vec<TypeId>, NoMemory>
    requires { length types.now ≤ 2 ^ 16 }
    ensures { IfOk result (λ found. found.items ≡ types_of_events types.now 0) }
{
    let mut found = Vec::with_capacity(alloc, types.len())?;
    for (place, ty) in types.iter().enumerate() {
        if ty.event {
            found.push(TypeId(place as u16))?;
        }
    }
    Ok(found)
}

// For each type how many ids have a fact of it.
fn counts_of(alloc: Global, facts: &FactStore, types: &[TypeId]) -> Result<Vec<u64>, NoMemory>
    ensures { IfOk result (λ counts. AreCounts facts.now types.now counts.items) }
{
    let mut counts = Vec::with_capacity(alloc, types.len())?;
    for ty in types {
        counts.push(facts.held_of(*ty))?;
    }
    Ok(counts)
}

impl State {
    /// For each of these types how many ids have a fact of it.
    pub(crate) fn counts(&self, alloc: Global, types: &[TypeId]) -> Result<Vec<u64>, NoMemory>
        ensures { IfOk result (λ counts. AreCounts self.now.facts types.now counts.items) }
    {
        counts_of(alloc, &self.facts, types)
    }
}
