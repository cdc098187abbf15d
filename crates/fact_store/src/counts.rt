ghost use Rattle.std.specs.Prelude.{◌≡◌, ◌<◌, ◌≤◌, ◌+◌, ◌-◌, ◌^◌, ◌&&◌, ℕ, false, not, cond, OnOk, OnErr, length, nat_eq, slice_index_or};

use fx_base::NoMemory;

/// The number of ids of this type. Takes no memory.
pub(crate) fn count_of(counts: &Vec<u64>, ty: u16) -> u64
    ensures { result ≡ slice_index_or counts.now.items ty 0 }
{
    counts.get(ty as usize).copied().unwrap_or(0)
}

/// Counts one more id of this type, unless it is counted. Where memory is refused, or the count would pass 64 bits, nothing changes.
pub(crate) fn raise(counts: &mut Vec<u64>, ty: u16, counted: bool) -> Result<(), NoMemory>
    ensures ok { OnOk result ((k : ℕ) → slice_index_or counts.new.items k 0 ≡ cond (not counted && nat_eq k ty) (slice_index_or counts.old.items k 0 + 1) (slice_index_or counts.old.items k 0)) }
    ensures err { OnErr result ((k : ℕ) → slice_index_or counts.new.items k 0 ≡ slice_index_or counts.old.items k 0) }
{
    if counted {
        return Ok(());
    }
    let place = ty as usize;
    reach(counts, place)?;
    if counts[place] == u64::MAX {
        return Err(NoMemory);
    }
    counts[place] += 1;
    Ok(())
}

/// Counts one id of this type less, unless it still counts. Takes no memory.
pub(crate) fn lower(counts: &mut Vec<u64>, ty: u16, counted: bool)
    requires { counted ≡ false → 1 ≤ slice_index_or counts.old.items ty 0 }
    ensures { (k : ℕ) → slice_index_or counts.new.items k 0 ≡ cond (not counted && nat_eq k ty) (slice_index_or counts.old.items k 0 - 1) (slice_index_or counts.old.items k 0) }
{
    let place = ty as usize;
    if !counted && place < counts.len() {
        counts[place] -= 1;
    }
}

/// Lengthens the counts by zeros until one stands at this place. Where memory is refused, nothing changes.
fn reach(counts: &mut Vec<u64>, place: usize) -> Result<(), NoMemory>
    requires { place < 2 ^ 16 }
    ensures reached { OnOk result (place < length counts.new.items) }
    ensures kept { (k : ℕ) → slice_index_or counts.new.items k 0 ≡ slice_index_or counts.old.items k 0 }
{
    if counts.len() <= place {
        counts.resize(place + 1, 0)?;
    }
    Ok(())
}
