ghost use Rattle.std.specs.Prelude.{◌≡◌, IfOk};
ghost use Rattle.row_delta.specs.declared.row.Named.{Named};
ghost use Rattle.row_delta.specs.Rows.{has};
ghost use Rattle.join_memory.specs.Joined.{has_name};
ghost use Rattle.join_memory.specs.Inputs.{named_alone, row_naming};

use fx_base::NoMemory;
use row_delta::{Named, Row};
use std::alloc::Global;

/// The candidates that rows name which name one alone.
pub fn names_alone(alloc: Global, rows: &[Row]) -> Result<Vec<Named>, NoMemory>
    ensures { IfOk result (λ names. (who : Named) → has_name names.items who ≡ has rows.now (row_naming who)) }
{
    let mut names = Vec::new(alloc);
    for row in rows {
        match name_alone(row) {
            Some(who) => names.push(who)?,
            None => {}
        }
    }
    Ok(names)
}

fn name_alone(row: &Row) -> Option<Named>
    ensures { result ≡ named_alone row.now.facts row.now.values }
{
    match (row.facts.as_slice(), row.values.as_slice()) {
        ([who], []) => Some(*who),
        _ => None,
    }
}
