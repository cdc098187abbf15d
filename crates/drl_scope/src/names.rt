ghost use Rattle.std.specs.Prelude.{◌≡◌, nat_le, length, IfOk};
ghost use Rattle.drl_scope.specs.Names.{is_name_short, are_distinct};

use crate::places::Places;
use fx_base::{NoMemory, Text};
use std::alloc::Global;

/// Whether a text has at most so many bytes.
pub fn has_at_most(most: usize, text: &Text) -> bool
    ensures { result ≡ is_name_short most text.now }
{
    text.as_str().len() <= most
}

/// Whether no name stands twice.
pub fn differ(alloc: Global, names: &[Text]) -> Result<bool, NoMemory>
    ensures { IfOk result (λ apart. apart ≡ are_distinct names.now) }
{
    let mut earlier = Places::new(alloc);
    for name in names {
        if earlier.holds(name) {
            return Ok(false);
        }
        earlier = earlier.with(alloc, name)?;
    }
    Ok(true)
}
