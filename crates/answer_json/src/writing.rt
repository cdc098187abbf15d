ghost use Rattle.std.specs.Prelude.{◌≡◌, ◌≤◌, ◌++◌, false, OnOk};
ghost use Rattle.serde_json.specs.Data.{depth};
ghost use Rattle.serde_json.specs.Read.{max_depth};
ghost use Rattle.serde_json.specs.View.{view};
ghost use Rattle.serde_json.specs.Written.{has_float};
ghost use Rattle.answer_json.specs.Objects.{json_line, ReadsBack};

use fx_base::NoMemory;
use serde_json::Value as Json;
use std::alloc::Global;

/// Appends a value on a line of its own. It has no floating-point number, and no more than 127 arrays and objects one in another.
pub(crate) fn push_value(text: &mut Vec<u8>, alloc: Global, value: &Json) -> Result<(), NoMemory>
    requires exact { has_float (view value.now) ≡ false }
    requires shallow { depth (view value.now) ≤ max_depth }
    ensures text { OnOk result (text.new.items ≡ text.old.items ++ json_line (view value.now)) }
    ensures reads_back { OnOk result (ReadsBack (view value.now)) }
{
    let line = value.to_string(alloc)?;
    text.extend_from_slice(line.as_bytes())?;
    text.push(b'\n')?;
    Ok(())
}
