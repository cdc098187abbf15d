ghost use Rattle.std.specs.Prelude.{◌≡◌, ◌++◌, replicate, OnOk};

use fx_base::NoMemory;

/// Appends a number so many times.
pub fn push_times(values: &mut Vec<i64>, value: i64, times: u64) -> Result<(), NoMemory>
    ensures { OnOk result (values.new.items ≡ values.old.items ++ replicate times value) }
{
    for _ in 0..times {
        values.push(value)?;
    }
    Ok(())
}
