ghost use Rattle.std.specs.Prelude.{◌≡◌, ◌<◌, ◌*◌, ◌^◌, ◌++◌, ℕ, [], OnOk, OnErr, OnSome, IfNone, cond, length, nat_eq};
ghost use Rattle.page_map.specs.Pages.{ArePagesApart, free, value_for_number, number_in, number_in_pages, entries_by};

use crate::page::{KEYS, add_entries, put_in, replace_in, take_from, value_in};
use fx_base::NoMemory;
use std::alloc::Global;

/// How many pages a directory has.
const PAGES: u64 = 32;

/// How many keys a directory has.
pub(crate) const SPAN: u64 = PAGES * KEYS;

/// The value at this place. Takes no memory.
pub(crate) fn find_at(pages: &Vec<Vec<u64>>, place: u64) -> Option<u64>
    ensures { result ≡ value_for_number (number_in_pages pages.now.items place) }
{
    let number = (place / KEYS) as usize;
    if number < pages.len() {
        value_in(&pages[number], (place % KEYS) as usize)
    } else {
        None
    }
}

/// Puts a value at this place. Where memory is refused, no value changes.
pub(crate) fn put_at(
    alloc: Global,
    pages: &mut Vec<Vec<u64>>,
    place: u64,
    value: u64,
) -> Result<(), NoMemory>
    requires { place < 2048 }
    ensures ok { OnOk result ((k : ℕ) → number_in_pages pages.new.items k ≡ cond (nat_eq place k) value (number_in_pages pages.old.items k)) }
    ensures err { OnErr result ((k : ℕ) → number_in_pages pages.new.items k ≡ number_in_pages pages.old.items k) }
    ensures short { ArePagesApart pages.old.items → ArePagesApart pages.new.items }
{
    let number = (place / KEYS) as usize;
    reach(alloc, pages, number)?;
    put_in(&mut pages[number], (place % KEYS) as usize, value)
}

/// Lengthens a directory by pages without values until it has one of this number. Where memory is refused, no value changes.
fn reach(alloc: Global, pages: &mut Vec<Vec<u64>>, number: usize) -> Result<(), NoMemory>
    requires { number < 32 }
    ensures reached { OnOk result (number < length pages.new.items) }
    ensures kept { (page place : ℕ) → number_in pages.new.items page place ≡ number_in pages.old.items page place }
    ensures short { ArePagesApart pages.old.items → ArePagesApart pages.new.items }
{
    for _count in pages.len()..number + 1 {
        pages.push(Vec::new(alloc))?;
    }
    Ok(())
}

/// Puts a value in the place of the one that stands there, and gives that; where there is none, nothing changes.
/// Takes no memory.
pub(crate) fn replace_at(pages: &mut Vec<Vec<u64>>, place: u64, value: u64) -> Option<u64>
    ensures before { result ≡ value_for_number (number_in_pages pages.old.items place) }
    ensures some { OnSome result ((k : ℕ) → number_in_pages pages.new.items k ≡ cond (nat_eq place k) value (number_in_pages pages.old.items k)) }
    ensures none { IfNone result ((k : ℕ) → number_in_pages pages.new.items k ≡ number_in_pages pages.old.items k) }
    ensures short { ArePagesApart pages.old.items → ArePagesApart pages.new.items }
{
    let number = (place / KEYS) as usize;
    if number < pages.len() {
        replace_in(&mut pages[number], (place % KEYS) as usize, value)
    } else {
        None
    }
}

/// Takes out the value at this place, and the pages without values at the end of the directory; a directory without pages gives its
/// memory back. Takes no memory.
pub(crate) fn take_at(alloc: Global, pages: &mut Vec<Vec<u64>>, place: u64) -> Option<u64>
    ensures taken { result ≡ value_for_number (number_in_pages pages.old.items place) }
    ensures rest { (k : ℕ) → number_in_pages pages.new.items k ≡ cond (nat_eq place k) free (number_in_pages pages.old.items k) }
    ensures short { ArePagesApart pages.old.items → ArePagesApart pages.new.items }
{
    let number = (place / KEYS) as usize;
    if number >= pages.len() {
        return None;
    }
    let value = take_from(alloc, &mut pages[number], (place % KEYS) as usize);
    drop_last(alloc, pages);
    value
}

/// Takes off the pages without values at the end of the directory; a directory without pages gives its memory back.
fn drop_last(alloc: Global, pages: &mut Vec<Vec<u64>>)
    ensures kept { (page place : ℕ) → number_in pages.new.items page place ≡ number_in pages.old.items page place }
    ensures short { ArePagesApart pages.old.items → ArePagesApart pages.new.items }
{
    while let Some(last) = pages.last() {
        if !last.is_empty() {
            break;
        }
        pages.pop();
    }
    if pages.is_empty() {
        *pages = Vec::new(alloc);
    }
}

/// Adds the keys of the directory with this number that have a value, with their values.
pub(crate) fn add_pages(
    entries: &mut Vec<(u64, u64)>,
    number: u64,
    pages: &[Vec<u64>],
) -> Result<(), NoMemory>
    requires number { number < 2 ^ 53 }
    requires short { ArePagesApart pages.now }
    ensures { OnOk result (entries.new.items ≡ entries.old.items ++ entries_by (2048 * number) pages.now []) }
{
    let first = number * PAGES;
    for (place, page) in pages.iter().enumerate() {
        add_entries(entries, first + place as u64, page)?;
    }
    Ok(())
}
