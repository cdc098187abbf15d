//! The lives by which a world goes on under other rules, and which of them are too short.
ghost use Rattle.std.specs.Prelude.{◌≡◌, ◌↔◌, ◌≤◌, ◌^◌, length, option_and_then, slice_get, IsTrue, IfOk};
ghost use Rattle.change_resolve.specs.Changes.{type_named};
ghost use Rattle.rule_change.specs.Changed.{carried, carried_life as carried_life_of};
ghost use Rattle.rule_change.specs.Refused.{IsLonger, is_longer as is_longer_than};
ghost use Rattle.change_rules.specs.Judged.{IsFirstType, IsLongerAt};

use crate::places::declared_type;
use fx_base::{NoMemory, Seq, Text, TypeId};
use rule_model::{Life, LifeTable, Program};
use std::alloc::Global;

// The life of the type of this name, where the program has one.
pub(crate) fn life_named(program: &Program, table: &LifeTable, name: &Text) -> Option<Life>
    requires { length program.now.types ≤ 2 ^ 16 }
    ensures { result ≡ option_and_then (λ there. slice_get table.now.lives there.0) (type_named name.now program.now.types 0) }
{
    match declared_type(program.types.as_slice(), name) {
        Some((there, _)) => table.lives.as_slice().get(there.0 as usize).copied(),
        None => None,
    }
}

// The life that a type of this name goes on with, where it has this one of its own.
fn carried_life(old: &Program, table: &LifeTable, name: &Text, own: Life) -> Life
    requires { length old.now.types ≤ 2 ^ 16 }
    ensures { result ≡ carried_life_of table.now own (type_named name.now old.now.types 0) }
{
    match life_named(old, table, name) {
        Some(life) => life,
        None => own,
    }
}

/// The table by which a world goes on under other rules, given that of before and the lives of the new rules.
#[tactic(auto, unfolding(rule_change::specs::Changed::carried_lives))]
pub fn carried_table(
    alloc: Global,
    old: &Program,
    new: &Program,
    table: &LifeTable,
    own: &LifeTable,
) -> Result<LifeTable, NoMemory>
    requires { length old.now.types ≤ 2 ^ 16 }
    ensures { IfOk result (λ lives. lives ≡ carried old.now new.now table.now own.now) }
{
    let types = new.types.as_slice();
    let needs = own.lives.as_slice();
    let mut lives = Vec::new(alloc);
    for place in 0..types.len().min(needs.len()) {
        lives.push(carried_life(old, table, &types[place].name, needs[place]))?;
    }
    Ok(LifeTable {
        lives: Seq::from_vec(lives),
    })
}

// Whether events that need one life are kept for a shorter one.
fn is_longer(needs: Life, life: Life) -> bool
    ensures { result ≡ is_longer_than needs life }
{
    match (needs, life) {
        (Life::Finite(needs), Life::Finite(life)) => life < needs,
        (Life::Infinite, Life::Finite(_)) => true,
        _ => false,
    }
}

// Whether events of the type in this place are needed for longer than they are kept.
fn is_longer_at(own: &[Life], kept: &[Life], ty: usize) -> bool
    ensures { IsTrue result ↔ IsLongerAt own.now kept.now ty }
{
    match (own.get(ty), kept.get(ty)) {
        (Some(needs), Some(life)) => is_longer(*needs, *life),
        _ => false,
    }
}

// The first type whose events are needed for longer than they are kept.
fn first_longer(own: &[Life], kept: &[Life]) -> Option<TypeId>
    requires { length kept.now ≤ 2 ^ 16 }
    ensures { IsFirstType (IsLongerAt own.now kept.now) result }
{
    for ty in 0..kept.len() {
        if is_longer_at(own, kept, ty) {
            return Some(TypeId(ty as u16));
        }
    }
    None
}

/// The first type whose events the new rules need for longer than they were kept.
pub fn longer_type(
    alloc: Global,
    old: &Program,
    new: &Program,
    table: &LifeTable,
    own: &LifeTable,
) -> Result<Option<TypeId>, NoMemory>
    requires types { length old.now.types ≤ 2 ^ 16 }
    requires other_types { length new.now.types ≤ 2 ^ 16 }
    ensures { IfOk result (λ ty. IsFirstType (IsLonger old.now new.now table.now own.now) ty) }
{
    let kept = carried_table(alloc, old, new, table, own)?;
    Ok(first_longer(own.lives.as_slice(), kept.lives.as_slice()))
}
