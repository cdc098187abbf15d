ghost use Rattle.std.specs.Prelude.{◌≡◌, IfOk};

use fx_base::{Copies, Fact, NoMemory};
use std::alloc::Global;

/// A copy of a fact.
pub(crate) fn copy_of(alloc: Global, fact: &Fact) -> Result<Fact, NoMemory>
    ensures { IfOk result (λ copy. copy ≡ fact.now) }
{
    Ok(Fact {
        id: fact.id,
        ty: fact.ty,
        entry: fact.entry,
        fields: fact.fields.copy(alloc)?,
        tag: fact.tag,
        times: fact.times,
    })
}
