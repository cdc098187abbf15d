ghost use Rattle.std.specs.Prelude.{◌≡◌, ◌≢◌, ◌<◌, ◌+◌, ◌^◌, ◌++◌, IfOk, OnOk, OnErr, OnSome, IfNone};
ghost use Rattle.std.specs.FinMap as map;
ghost use Rattle.std.specs.List.{All};
ghost use Rattle.std.specs.Map.{keys_of, values_of};
ghost use Rattle.page_map.specs.Pages.{ArePagesApart, entries_of, free};
ghost use Rattle.page_map.specs.Rows.{among};
ghost use Rattle.page_map.specs.Parts.{AreParts, map_of};

use crate::directory::{SPAN, add_pages, find_at, put_at, replace_at, take_at};
use crate::moves::{Tree, reach};
use crate::page::FREE;
use crate::run::Run;
use fx_base::NoMemory;
use std::alloc::Global;
use std::collections::BTreeMap;
use std::collections::btree_map::Range;
use std::marker::Model;

/// A finite map from numbers to numbers. The values of 64 keys that follow one another stand in one page, at the places of their
/// keys: eight bytes for each key up to the greatest of its page. Up to 32 pages stand in a directory. Directories that follow one
/// another stand in a run, where a key is found by its place, and all others in a tree. The run goes where new directories come:
/// it grows up to one that is near its end, and else gives way and begins anew, by a bounded number of directories a call.
///
/// A call costs a constant for a key in the run, else the logarithm of the directories, but for `entries`. Tables grow a page at a
/// time, but for that of the run, 24 bytes for each of at most 2^16 directories. A page goes with its last key, a directory of the
/// tree with its last page; those of the run without values go once they stand at one of its ends.
#[derive(Drop)]
pub struct PageMap {
    alloc: Global,
    run: Run,
    tree: Tree,
}

impl Model for PageMap {
    ghost use Rattle.std.specs.FinMap as map;
    ghost use Rattle.std.specs.Coded.{coded_ℕ};
    ghost use Rattle.page_map.specs.Pages.{NumberMap};
    ghost use Rattle.page_map.specs.Parts.{AreParts, map_of};

    ghost Value = { NumberMap };

    ghost coded = { map.code coded_ℕ coded_ℕ };

    ghost view = { λ m. map_of m.run m.tree };

    ghost invariant = { λ m. AreParts m.run m.tree };
}

impl PageMap {
    /// No keys. Takes no memory.
    pub fn new(alloc: Global) -> PageMap
        ensures { result ≡ map.empty }
    {
        PageMap {
            alloc,
            run: Run::new(alloc),
            tree: BTreeMap::new(alloc),
        }
    }

    /// The value of this key. Takes no memory.
    pub fn get(&self, key: u64) -> Option<u64>
        ensures { result ≡ map.get self.now key }
    {
        let number = key / SPAN;
        if let Some(place) = self.run.place_of(number) {
            return find_at(&self.run.directories[place], key % SPAN);
        }
        match self.tree.get(&number) {
            Some(pages) => find_at(pages, key % SPAN),
            None => None,
        }
    }

    /// Gives this key this value. Where memory is refused, nothing changes. 2^64 - 1 is no value, and is refused in the same way.
    pub fn insert(&mut self, key: u64, value: u64) -> Result<(), NoMemory>
        ensures ok { OnOk result (self.new ≡ map.insert self.old key value) }
        ensures err { OnErr result (self.new ≡ self.old) }
    {
        if value == FREE {
            return Err(NoMemory);
        }
        reach(self.alloc, &mut self.run, &mut self.tree, key / SPAN)?;
        put(self.alloc, &mut self.run, &mut self.tree, key, value)
    }

    /// Gives this key this value in the place of the one that it has, and gives that; where it has none, nothing changes.
    /// Takes no memory.
    pub fn replace(&mut self, key: u64, value: u64) -> Option<u64>
        requires { value + 1 < 2 ^ 64 }
        ensures before { result ≡ map.get self.old key }
        ensures some { OnSome result (self.new ≡ map.insert self.old key value) }
        ensures none { IfNone result (self.new ≡ self.old) }
    {
        let number = key / SPAN;
        if let Some(place) = self.run.place_of(number) {
            return replace_at(&mut self.run.directories[place], key % SPAN, value);
        }
        match self.tree.get_mut(&number) {
            Some(pages) => replace_at(pages, key % SPAN, value),
            None => None,
        }
    }

    /// Takes out this key and gives its value. Takes no memory.
    pub fn remove(&mut self, key: u64) -> Option<u64>
        ensures taken { result ≡ map.get self.old key }
        ensures rest { self.new ≡ map.remove self.old key }
    {
        let number = key / SPAN;
        if let Some(place) = self.run.place_of(number) {
            let value = take_at(self.alloc, &mut self.run.directories[place], key % SPAN);
            self.run.trim();
            return value;
        }
        match self.tree.get_mut(&number) {
            Some(pages) => {
                let value = take_at(self.alloc, pages, key % SPAN);
                if pages.is_empty() {
                    self.tree.remove(&number);
                }
                value
            }
            None => None,
        }
    }

    /// The keys with their values, in the order of the keys.
    pub fn entries(&self, alloc: Global) -> Result<Vec<(u64, u64)>, NoMemory>
        ensures { IfOk result (λ entries. entries.items ≡ map.entries self.now) }
    {
        entries_in(alloc, &self.run, &self.tree)
    }
}

/// Gives this key this value. Where memory is refused, nothing changes.
fn put(alloc: Global, run: &mut Run, tree: &mut Tree, key: u64, value: u64) -> Result<(), NoMemory>
    requires are { AreParts run.old tree.old }
    requires value { value ≢ free }
    ensures are { AreParts run.new tree.new }
    ensures ok { OnOk result (map_of run.new tree.new ≡ map.insert (map_of run.old tree.old) key value) }
    ensures err { OnErr result (map_of run.new tree.new ≡ map_of run.old tree.old) }
{
    let number = key / SPAN;
    if let Some(place) = run.place_of(number) {
        return put_at(alloc, &mut run.directories[place], key % SPAN, value);
    }
    match tree.get_mut(&number) {
        Some(pages) => put_at(alloc, pages, key % SPAN, value),
        None => {
            let mut pages = Vec::new(alloc);
            put_at(alloc, &mut pages, key % SPAN, value)?;
            tree.insert(number, pages)?;
            Ok(())
        }
    }
}

/// The keys of all directories with their values, in order.
fn entries_in(alloc: Global, run: &Run, tree: &Tree) -> Result<Vec<(u64, u64)>, NoMemory>
    requires { AreParts run.now tree.now }
    ensures { IfOk result (λ entries. entries.items ≡ entries_of (among run.now.first run.now.directories.items tree.now.entries)) }
{
    let mut entries = Vec::new(alloc);
    add_directories(&mut entries, tree.range(..run.first))?;
    run.add_row(&mut entries)?;
    add_directories(&mut entries, tree.range(run.first..))?;
    Ok(entries)
}

/// Adds the keys of these directories that have a value, with their values.
fn add_directories(
    entries: &mut Vec<(u64, u64)>,
    directories: Range<'_, u64, Vec<Vec<u64>>>,
) -> Result<(), NoMemory>
    requires numbers { All (λ number. number < 2 ^ 53) (keys_of directories) }
    requires short { All (λ directory. ArePagesApart directory.items) (values_of directories) }
    ensures { OnOk result (entries.new.items ≡ entries.old.items ++ entries_of directories.entry) }
{
    for (number, pages) in directories {
        add_pages(entries, *number, pages)?;
    }
    Ok(())
}
