ghost use Rattle.std.specs.Prelude.{◌≡◌, ◌≢◌, ◌<◌, ◌≤◌, ◌*◌, ◌^◌, ◌++◌, ℕ, [], OnOk, OnErr, OnSome, IfNone, cond, length, slice_index_or, nat_eq};
ghost use Rattle.page_map.specs.Pages.{free, value_for_number, entries_from};

use fx_base::NoMemory;
use std::alloc::Global;

/// How many keys a page has.
pub(crate) const KEYS: u64 = 64;

/// What stands at a place that has no value.
pub(crate) const FREE: u64 = u64::MAX;

/// The value at this place. Takes no memory.
pub(crate) fn value_in(page: &Vec<u64>, place: usize) -> Option<u64>
    ensures value { result ≡ value_for_number (slice_index_or page.now.items place free) }
    ensures within { OnSome result (place < length page.now.items) }
{
    if place < page.len() && page[place] != FREE {
        Some(page[place])
    } else {
        None
    }
}

/// Puts a value at this place. Where memory is refused, nothing changes.
pub(crate) fn put_in(page: &mut Vec<u64>, place: usize, value: u64) -> Result<(), NoMemory>
    requires { place < 64 }
    ensures ok { OnOk result ((k : ℕ) → slice_index_or page.new.items k free ≡ cond (nat_eq place k) value (slice_index_or page.old.items k free)) }
    ensures err { OnErr result (page.new.items ≡ page.old.items) }
    ensures short { length page.old.items ≤ 64 → length page.new.items ≤ 64 }
{
    if page.len() <= place {
        page.resize(place + 1, FREE)?;
    }
    page[place] = value;
    Ok(())
}

/// Puts a value in the place of the one that stands there, and gives that; where there is none, nothing changes.
/// Takes no memory.
pub(crate) fn replace_in(page: &mut Vec<u64>, place: usize, value: u64) -> Option<u64>
    ensures before { result ≡ value_for_number (slice_index_or page.old.items place free) }
    ensures some { OnSome result ((k : ℕ) → slice_index_or page.new.items k free ≡ cond (nat_eq place k) value (slice_index_or page.old.items k free)) }
    ensures none { IfNone result (page.new.items ≡ page.old.items) }
    ensures short { length page.old.items ≤ 64 → length page.new.items ≤ 64 }
{
    let before = value_in(page, place)?;
    page[place] = value;
    Some(before)
}

/// Takes out the value at this place, and the free places at the end of the page; a page without values gives its memory back.
/// Takes no memory.
pub(crate) fn take_from(alloc: Global, page: &mut Vec<u64>, place: usize) -> Option<u64>
    ensures taken { result ≡ value_for_number (slice_index_or page.old.items place free) }
    ensures rest { (k : ℕ) → slice_index_or page.new.items k free ≡ cond (nat_eq place k) free (slice_index_or page.old.items k free) }
    ensures short { length page.old.items ≤ 64 → length page.new.items ≤ 64 }
{
    let value = value_in(page, place);
    if place < page.len() {
        page[place] = FREE;
        trim(page);
    }
    if page.is_empty() {
        *page = Vec::new(alloc);
    }
    value
}

/// Takes off the free places at the end of the page.
fn trim(page: &mut Vec<u64>)
    ensures kept { (k : ℕ) → slice_index_or page.new.items k free ≡ slice_index_or page.old.items k free }
    ensures short { length page.new.items ≤ length page.old.items }
{
    while let Some(last) = page.last() {
        if *last != FREE {
            break;
        }
        page.pop();
    }
}

/// Adds the keys of the page with this number that have a value, with their values.
pub(crate) fn add_entries(
    entries: &mut Vec<(u64, u64)>,
    number: u64,
    page: &[u64],
) -> Result<(), NoMemory>
    requires number { number < 2 ^ 58 }
    requires short { length page.now ≤ 64 }
    ensures { OnOk result (entries.new.items ≡ entries.old.items ++ entries_from (64 * number) page.now []) }
{
    let first = number * KEYS;
    for (place, value) in page.iter().enumerate() {
        if *value != FREE {
            entries.push((first + place as u64, *value))?;
        }
    }
    Ok(())
}
