ghost use Rattle.std.specs.Prelude.{◌≡◌, ◌<◌, ◌≤◌, ◌+◌, ◌*◌, ◌^◌, ◌++◌, ℕ, [], None, IfSome, IfNone, OnOk, length};
ghost use Rattle.std.specs.BTreeMap.{is_at};
ghost use Rattle.std.specs.List.{All};
ghost use Rattle.std.specs.Map.{lookup};
ghost use Rattle.std.specs.Ordering.{nat_cmp};
ghost use Rattle.page_map.specs.Pages.{ArePagesApart, entries_of};
ghost use Rattle.page_map.specs.Rows.{IsTrimmed, numbered};

use crate::directory::add_pages;
use fx_base::NoMemory;
use std::alloc::Global;
use std::collections::VecDeque;

/// How many directories come or go at an end of a run in one step at most.
pub(crate) const STRIDE: u64 = 8;

/// Directories in a row: they stand at consecutive numbers, some perhaps without values.
#[derive(Drop)]
pub(crate) struct Run {
    /// The number of the first directory.
    pub(crate) first: u64,
    pub(crate) directories: VecDeque<Vec<Vec<u64>>>,
}

impl Run {
    /// No directories. Takes no memory.
    pub(crate) fn new(alloc: Global) -> Run
        ensures first { result.first ≡ 0 }
        ensures row { result.directories.items ≡ [] }
    {
        Run {
            first: 0,
            directories: VecDeque::new(alloc),
        }
    }

    /// The number behind the last directory.
    pub(crate) fn end(&self) -> u64
        requires { self.now.first + length self.now.directories.items ≤ 2 ^ 53 }
        ensures { result ≡ self.now.first + length self.now.directories.items }
    {
        self.first + self.directories.len() as u64
    }

    /// The place of the directory with this number. Takes no memory.
    pub(crate) fn place_of(&self, number: u64) -> Option<usize>
        ensures some { IfSome result (λ place. (place < length self.now.directories.items) × (number ≡ self.now.first + place)) }
        ensures none { IfNone result (lookup (is_at (nat_cmp number)) (numbered self.now.first self.now.directories.items) ≡ None) }
    {
        if number < self.first {
            return None;
        }
        let place = number - self.first;
        if place < self.directories.len() as u64 {
            Some(place as usize)
        } else {
            None
        }
    }

    /// Takes directories without values off both ends, at most `STRIDE` off each. Takes no memory.
    pub(crate) fn trim(&mut self)
        requires { self.old.first + length self.old.directories.items ≤ 2 ^ 53 }
        ensures { IsTrimmed self.old.first self.old.directories.items self.new.first self.new.directories.items }
    {
        self.trim_front();
        self.trim_back();
    }

    fn trim_front(&mut self)
        requires { self.old.first + length self.old.directories.items ≤ 2 ^ 53 }
        ensures { IsTrimmed self.old.first self.old.directories.items self.new.first self.new.directories.items }
    {
        for _count in 0..STRIDE {
            let Some(front) = self.directories.front() else {
                return;
            };
            if !front.is_empty() {
                return;
            }
            self.directories.pop_front();
            self.first += 1;
        }
    }

    fn trim_back(&mut self)
        ensures { IsTrimmed self.old.first self.old.directories.items self.new.first self.new.directories.items }
    {
        for _count in 0..STRIDE {
            let Some(back) = self.directories.back() else {
                return;
            };
            if !back.is_empty() {
                return;
            }
            self.directories.pop_back();
        }
    }

    /// Adds the keys of the row that have a value, with their values.
    pub(crate) fn add_row(&self, entries: &mut Vec<(u64, u64)>) -> Result<(), NoMemory>
        requires end { self.now.first + length self.now.directories.items ≤ 2 ^ 53 }
        requires short { All (λ directory. ArePagesApart directory.items) self.now.directories.items }
        ensures { OnOk result (entries.new.items ≡ entries.old.items ++ entries_of (numbered self.now.first self.now.directories.items)) }
    {
        for (place, pages) in self.directories.iter().enumerate() {
            add_pages(entries, self.first + place as u64, pages)?;
        }
        Ok(())
    }
}
