ghost use Rattle.std.specs.Prelude.{◌≡◌, IfOk, map};
ghost use Rattle.window_gate.specs.Windows.{single};

use fx_base::{NoMemory, Seq};
use row_delta::{Delta, Named, Row};
use std::alloc::Global;

/// The difference of these versions, each list in the order of the tags.
pub(crate) fn difference(alloc: Global, gone: &[Named], come: &[Named]) -> Result<Delta, NoMemory>
    ensures gone { IfOk result (λ delta. delta.gone ≡ map single gone.now) }
    ensures come { IfOk result (λ delta. delta.come ≡ map single come.now) }
{
    let gone = rows_of(alloc, gone)?;
    let come = rows_of(alloc, come)?;
    Ok(Delta { gone, come })
}

fn rows_of(alloc: Global, versions: &[Named]) -> Result<Seq<Row>, NoMemory>
    ensures { IfOk result (λ rows. rows ≡ map single versions.now) }
{
    let mut rows = Vec::with_capacity(alloc, versions.len())?;
    for named in versions {
        rows.push(row_of(alloc, *named)?)?;
    }
    Ok(Seq::from_vec(rows))
}

fn row_of(alloc: Global, named: Named) -> Result<Row, NoMemory>
    ensures { IfOk result (λ row. row ≡ single named) }
{
    let mut facts = Vec::with_capacity(alloc, 1)?;
    facts.push(named)?;
    Ok(Row {
        facts: Seq::from_vec(facts),
        values: Seq::from_vec(Vec::new(alloc)),
    })
}
