//! The table of the first rules that have the conditions of each rule up to each of them.
ghost use Rattle.std.specs.Prelude.{◌≡◌, ◌≤◌, ◌<◌, ◌-◌, ◌++◌, ℕ, IfOk, OnOk, take, length, replicate, slice_get, Some, option_map};
ghost use Rattle.rule_model.specs.declared.program.Rule.{Rule};
ghost use Rattle.image_fitting.specs.Table.{AreFirsts, IsPlaceTable, is_first as is_first_in};

use fx_base::{NoMemory, Seq};
use rule_model::{Condition, Program};
use std::alloc::Global;

// How many of their first conditions two rules share.
fn shared(ours: &[Condition], theirs: &[Condition]) -> usize
    ensures alike { take result ours.now ≡ take result theirs.now }
    ensures within { result ≤ length theirs.now }
    ensures most { (n : ℕ) → result < n → n ≤ length theirs.now → take n ours.now ≡ take n theirs.now → ⊥ }
{
    let most = ours.len().min(theirs.len());
    for place in 0..most {
        if !ours[place].is_same(&theirs[place]) {
            return place;
        }
    }
    most
}

// The conditions of the rule in a place.
fn conditions_of(program: &Program, place: usize) -> &[Condition]
    requires { place < length program.now.rules }
    ensures { option_map (λ (rule : Rule). rule.conditions) (slice_get program.now.rules place) ≡ Some result.now }
{
    program.rules.as_slice()[place].conditions.as_slice()
}

// Fills a list up to a length with a place; what is as long stays.
fn fill_up(firsts: &mut Vec<usize>, upto: usize, place: usize) -> Result<(), NoMemory>
    ensures { OnOk result (firsts.new.items ≡ firsts.old.items ++ replicate (upto - length firsts.old.items) place) }
{
    if firsts.len() < upto {
        firsts.resize(upto, place)?;
    }
    Ok(())
}

// For each condition of the rule in a place the first rule that has its conditions up to that one.
fn firsts(alloc: Global, program: &Program, place: usize) -> Result<Seq<usize>, NoMemory>
    requires { place < length program.now.rules }
    ensures { IfOk result (λ firsts. (rule : Rule) → slice_get program.now.rules place ≡ Some rule → AreFirsts program.now rule.conditions firsts) }
{
    let conditions = conditions_of(program, place);
    let mut firsts = Vec::new(alloc);
    for other in 0..place {
        let alike = shared(conditions_of(program, other), conditions);
        fill_up(&mut firsts, alike, other)?;
    }
    fill_up(&mut firsts, conditions.len(), place)?;
    Ok(Seq::from_vec(firsts))
}

/// The table: for each condition of each rule, by their places, the first rule that has its conditions up to that one. It compares the
/// conditions of each rule with those of the rules before it.
pub(crate) fn first_rules(alloc: Global, program: &Program) -> Result<Vec<Seq<usize>>, NoMemory>
    ensures { IfOk result (λ table. IsPlaceTable program.now table.items) }
{
    let mut table = Vec::new(alloc);
    for place in 0..program.rules.as_slice().len() {
        table.push(firsts(alloc, program, place)?)?;
    }
    Ok(table)
}

/// Whether a table has the rule in a place as the first at one of its conditions.
pub(crate) fn is_first(table: &[Seq<usize>], place: usize, condition: usize) -> bool
    ensures { result ≡ is_first_in table.now place condition }
{
    match table.get(place) {
        Some(firsts) => match firsts.as_slice().get(condition) {
            Some(first) => *first == place,
            None => false,
        },
        None => false,
    }
}
