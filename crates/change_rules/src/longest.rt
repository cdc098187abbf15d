//! The lives by which events are kept for as long as other rules need them.
ghost use Rattle.std.specs.Prelude.{◌≡◌, ◌≤◌, ◌^◌, length, IfOk};
ghost use Rattle.change_resolve.specs.Changes.{type_named};
ghost use Rattle.change_rules.specs.Longest.{longer_life as longer_of, longest, longest_life as longest_of};

use crate::lives::life_named;
use fx_base::{NoMemory, Seq, Text};
use rule_model::{Life, LifeTable, Program};
use std::alloc::Global;

// The longer one of a type's own life and of one that other rules need.
fn longer_life(own: Life, needs: Life) -> Life
    ensures { result ≡ longer_of own needs }
{
    match (own, needs) {
        (Life::Finite(own), Life::Finite(needs)) => Life::Finite(own.max(needs)),
        (Life::Finite(_), Life::Infinite) => Life::Infinite,
        _ => own,
    }
}

// The life of a type of this name, which has this one of its own.
fn longest_life(other: &Program, needs: &LifeTable, name: &Text, own: Life) -> Life
    requires { length other.now.types ≤ 2 ^ 16 }
    ensures { result ≡ longest_of needs.now own (type_named name.now other.now.types 0) }
{
    match life_named(other, needs, name) {
        Some(life) => longer_life(own, life),
        None => own,
    }
}

/// The lives of a program, whose own ones are given, by which events are kept for as long as another one needs them too: of each type the greater one
/// of its own life and of that which the other needs for its type of the same name. Plain types and those with an explicit expiry keep theirs.
#[tactic(auto, unfolding(crate::specs::Longest::longest_lives))]
pub fn longest_table(
    alloc: Global,
    program: &Program,
    other: &Program,
    own: &LifeTable,
    needs: &LifeTable,
) -> Result<LifeTable, NoMemory>
    requires { length other.now.types ≤ 2 ^ 16 }
    ensures { IfOk result (λ lives. lives ≡ longest program.now other.now own.now needs.now) }
{
    let types = program.types.as_slice();
    let owns = own.lives.as_slice();
    let mut lives = Vec::new(alloc);
    for place in 0..types.len().min(owns.len()) {
        lives.push(longest_life(other, needs, &types[place].name, owns[place]))?;
    }
    Ok(LifeTable {
        lives: Seq::from_vec(lives),
    })
}
