ghost use Rattle.std.specs.Prelude.{◌≡◌, ◌<◌, ◌+◌, ◌^◌, ◌↔◌, ℕ, List, None, Some, false, IfErr, IsTrue, OnErr, OnOk, cond, length};
ghost use Rattle.std.specs.BTreeMap.{is_at};
ghost use Rattle.std.specs.Map.{lookup};
ghost use Rattle.std.specs.Ordering.{nat_cmp};
ghost use Rattle.page_map.specs.Pages.{Directory, AreDirectories, ArePagesApart, value_at};
ghost use Rattle.page_map.specs.Rows.{AreDirectoriesApart, IsNear, held};
ghost use Rattle.page_map.specs.Parts.{AreParts, map_of};

use crate::run::{Run, STRIDE};
use fx_base::NoMemory;
use std::alloc::Global;
use std::collections::BTreeMap;

/// Directories by their numbers.
pub(crate) type Tree = BTreeMap<u64, Vec<Vec<u64>>>;

/// How many directories a run has at most.
const LONGEST: u64 = 1 << 16;

/// Moves the run towards a number for which there is no directory yet. Up to a number that is near its end it grows; to one that is
/// not it gives way, and where none of its directories is left, it begins anew there. No value changes. At most `STRIDE`
/// directories come or go, and besides those without values at the ends.
pub(crate) fn reach(
    alloc: Global,
    run: &mut Run,
    tree: &mut Tree,
    number: u64,
) -> Result<(), NoMemory>
    requires are { AreParts run.old tree.old }
    requires number { number < 2 ^ 53 }
    ensures are { AreParts run.new tree.new }
    ensures same { map_of run.new tree.new ≡ map_of run.old tree.old }
{
    if run.place_of(number).is_some() || tree.contains_key(&number) {
        return Ok(());
    }
    give_way(run, tree, number)?;
    begin_at(run, number);
    grow_to(alloc, run, tree, number)
}

/// Whether the run may grow up to this number.
fn is_near(run: &Run, number: u64) -> bool
    ensures { IsTrue result ↔ IsNear run.now.first run.now.directories.items number }
{
    number >= run.first
        && number - run.first < LONGEST
        && number - run.first < run.directories.len() as u64 + STRIDE
}

/// Sends directories from the front of the run to the tree, until this number is near, but not more than `STRIDE`.
/// No value changes.
fn give_way(run: &mut Run, tree: &mut Tree, number: u64) -> Result<(), NoMemory>
    requires { AreParts run.old tree.old }
    ensures are { AreParts run.new tree.new }
    ensures same { map_of run.new tree.new ≡ map_of run.old tree.old }
{
    for _count in 0..STRIDE {
        if is_near(run, number) {
            return Ok(());
        }
        retreat(run, tree)?;
    }
    Ok(())
}

/// Sends the first directory of the run to the tree, and trims the run. No value changes.
fn retreat(run: &mut Run, tree: &mut Tree) -> Result<(), NoMemory>
    requires { AreParts run.old tree.old }
    ensures are { AreParts run.new tree.new }
    ensures same { map_of run.new tree.new ≡ map_of run.old tree.old }
{
    if let Some(pages) = run.directories.pop_front() {
        if let Err(pages) = send(tree, run.first, pages) {
            run.directories.push_front_reserved(pages);
            return Err(NoMemory);
        }
        run.first += 1;
        run.trim();
    }
    Ok(())
}

/// Puts a directory into the tree, if it has values. Where memory is refused, it comes back, and nothing changes.
fn send(tree: &mut Tree, number: u64, pages: Vec<Vec<u64>>) -> Result<(), Vec<Vec<u64>>>
    requires are { AreDirectories tree.old.entries }
    requires number { number < 2 ^ 53 }
    requires short { ArePagesApart pages.items }
    requires none { lookup (is_at (nat_cmp number)) tree.old.entries ≡ None }
    ensures are { AreDirectories tree.new.entries }
    ensures sent { OnOk result ((place : ℕ) → value_at (lookup (is_at (nat_cmp number)) tree.new.entries) place ≡ value_at (Some pages) place) }
    ensures rest { (other : ℕ) → is_at (nat_cmp number) other ≡ false → lookup (is_at (nat_cmp other)) tree.new.entries ≡ lookup (is_at (nat_cmp other)) tree.old.entries }
    ensures back { IfErr result (λ refused. refused ≡ pages) }
    ensures err { OnErr result (tree.new.entries ≡ tree.old.entries) }
{
    if pages.is_empty() {
        return Ok(());
    }
    match tree.insert(number, pages) {
        Ok(_) => Ok(()),
        Err(refused) => {
            let (_, pages) = refused.value;
            Err(pages)
        }
    }
}

/// A run without directories begins at this number.
fn begin_at(run: &mut Run, number: u64)
    requires { number < 2 ^ 53 }
    ensures are { (tree : List (ℕ × Directory)) → AreDirectoriesApart run.old.first run.old.directories.items tree → AreDirectoriesApart run.new.first run.new.directories.items tree }
    ensures same { (tree : List (ℕ × Directory)) → held run.new.first run.new.directories.items tree ≡ held run.old.first run.old.directories.items tree }
{
    if run.directories.is_empty() {
        run.first = number;
    }
}

/// Grows the run up to this number, where it is near. No value changes.
fn grow_to(alloc: Global, run: &mut Run, tree: &mut Tree, number: u64) -> Result<(), NoMemory>
    requires are { AreParts run.old tree.old }
    requires number { number < 2 ^ 53 }
    ensures are { AreParts run.new tree.new }
    ensures same { map_of run.new tree.new ≡ map_of run.old tree.old }
{
    if !is_near(run, number) {
        return Ok(());
    }
    for _count in run.end()..number + 1 {
        advance(alloc, run, tree)?;
    }
    Ok(())
}

/// Lengthens the run by the directory that comes next, from the tree or without values. No value changes.
fn advance(alloc: Global, run: &mut Run, tree: &mut Tree) -> Result<(), NoMemory>
    requires are { AreParts run.old tree.old }
    requires room { run.old.first + length run.old.directories.items < 2 ^ 53 }
    requires few { length run.old.directories.items < 2 ^ 16 }
    ensures are { AreParts run.new tree.new }
    ensures same { map_of run.new tree.new ≡ map_of run.old tree.old }
    ensures first { run.new.first ≡ run.old.first }
    ensures longer { OnOk result (length run.new.directories.items ≡ length run.old.directories.items + 1) }
{
    run.directories.reserve(1)?;
    let pages = take_or_blank(alloc, tree, run.end());
    run.directories.push_back_reserved(pages);
    Ok(())
}

/// Takes the directory of this number out of the tree; where none is there, one without values. Takes no memory.
fn take_or_blank(alloc: Global, tree: &mut Tree, number: u64) -> Vec<Vec<u64>>
    ensures taken { (place : ℕ) → value_at (Some result) place ≡ value_at (lookup (is_at (nat_cmp number)) tree.old.entries) place }
    ensures short { AreDirectories tree.old.entries → ArePagesApart result.items }
    ensures rest { (other : ℕ) → lookup (is_at (nat_cmp other)) tree.new.entries ≡ cond (is_at (nat_cmp number) other) None (lookup (is_at (nat_cmp other)) tree.old.entries) }
    ensures are { AreDirectories tree.old.entries → AreDirectories tree.new.entries }
{
    match tree.remove(&number) {
        Some(pages) => pages,
        None => Vec::new(alloc),
    }
}
