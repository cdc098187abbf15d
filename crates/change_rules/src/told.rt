//! What is told of the rules before the first line.
ghost use Rattle.std.specs.Prelude.{◌≡◌, OnOk, IfOk};
ghost use Rattle.rule_change.specs.Told.{gone_told, is_same_status as is_same_as, is_same_told, new_told, rules_told, status_of};
ghost use Rattle.change_rules.specs.Staying.{place_in};
ghost use Rattle.change_rules.specs.Told.{all_told, told_list, told_rule, was_told, with_told};

use crate::staying::is_taken;
use fx_base::{NoMemory, Text};
use rule_change::RuleStatus;
use rule_model::{Program, Rule};
use std::alloc::Global;

/// A rule by its name, and what becomes of it.
#[derive(Debug, Drop)]
pub struct ToldRule {
    pub name: Text,
    pub status: RuleStatus,
}

fn is_same_status(ours: RuleStatus, theirs: RuleStatus) -> bool
    ensures { result ≡ is_same_as ours theirs }
{
    match (ours, theirs) {
        (RuleStatus::Stays, RuleStatus::Stays)
        | (RuleStatus::New, RuleStatus::New)
        | (RuleStatus::Gone, RuleStatus::Gone) => true,
        _ => false,
    }
}

fn is_same(name: &Text, status: RuleStatus, told: &ToldRule) -> bool
    ensures { result ≡ is_same_told (name.now, status) (told_rule told.now) }
{
    *name == told.name && is_same_status(status, told.status)
}

// Whether this is told of a rule of this name already.
fn is_told(told: &[ToldRule], name: &Text, status: RuleStatus) -> bool
    ensures { result ≡ was_told (told_list told.now) (name.now, status) }
{
    for rule in told {
        if is_same(name, status, rule) {
            return true;
        }
    }
    false
}

// Tells a rule, where that is not told already.
fn tell(told: &mut Vec<ToldRule>, name: &Text, status: RuleStatus) -> Result<(), NoMemory>
    ensures { OnOk result (told_list told.new.items ≡ with_told (told_list told.old.items) (name.now, status)) }
{
    if !is_told(told, name, status) {
        let name = name.clone()?;
        told.push(ToldRule { name, status })?;
    }
    Ok(())
}

// What becomes of the new rule in a place.
fn status_at(places: &[Option<usize>], place: usize) -> RuleStatus
    ensures { result ≡ status_of (place_in places.now place) }
{
    match places.get(place) {
        Some(Some(_)) => RuleStatus::Stays,
        _ => RuleStatus::New,
    }
}

// Tells the new rules.
fn tell_new(
    told: &mut Vec<ToldRule>,
    rules: &[Rule],
    places: &[Option<usize>],
) -> Result<(), NoMemory>
    ensures { OnOk result (told_list told.new.items ≡ all_told (told_list told.old.items) (new_told (place_in places.now) rules.now 0)) }
{
    for place in 0..rules.len() {
        tell(told, &rules[place].name, status_at(places, place))?;
    }
    Ok(())
}

// Tells the old rules that are gone.
fn tell_gone(
    told: &mut Vec<ToldRule>,
    rules: &[Rule],
    stay: &[Option<usize>],
) -> Result<(), NoMemory>
    ensures { OnOk result (told_list told.new.items ≡ all_told (told_list told.old.items) (gone_told stay.now rules.now 0)) }
{
    for place in 0..rules.len() {
        if !is_taken(stay, place) {
            tell(told, &rules[place].name, RuleStatus::Gone)?;
        }
    }
    Ok(())
}

/// What is told of the rules: of each new one that it stays or is new, in their order, then the old ones that are gone, in theirs; the same once. `places`
/// has the old rules that stay. It compares each rule with all that are told.
pub fn told_rules(
    alloc: Global,
    old: &Program,
    new: &Program,
    places: &[Option<usize>],
) -> Result<Vec<ToldRule>, NoMemory>
    ensures { IfOk result (λ told. told_list told.items ≡ rules_told old.now new.now (place_in places.now)) }
{
    let rules = new.rules.as_slice();
    let (stay, _) = places.split_at(places.len().min(rules.len()));
    let mut told = Vec::new(alloc);
    tell_new(&mut told, rules, places)?;
    tell_gone(&mut told, old.rules.as_slice(), stay)?;
    Ok(told)
}
