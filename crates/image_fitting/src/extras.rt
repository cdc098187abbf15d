//! The places of extras.
ghost use Rattle.std.specs.Prelude.{◌≡◌, ◌↔◌, true, false, slice_get, option_map, IsTrue};
ghost use Rattle.std.specs.List.{All};
ghost use Rattle.std.specs.List.Sorted.{IsSorted};
ghost use Rattle.std.specs.Ordering.{int_cmp};
ghost use Rattle.rule_model.specs.Rows.{binds};
ghost use Rattle.laden_rows.specs.Placed.{CanGather};
ghost use Rattle.image_laws.specs.Fitting.{IsForgettable};
ghost use Rattle.image_fitting.specs.Table.{IsPlaceTable, is_finite, is_first as is_first_in, CanCount};

use crate::numbers::is_small;
use crate::table::is_first;
use fx_base::{Seq, TypeId};
use row_delta::Extra;
use rule_model::{Condition, Life, LifeTable, Program, Rule};

fn are_rising(values: &[i64]) -> bool
    ensures { IsTrue result ↔ IsSorted int_cmp values.now }
{
    values.is_sorted()
}

// Whether a condition binds no fact, and may gather the values of an extra.
fn can_gather(condition: &Condition, extra: &Extra) -> bool
    ensures { IsTrue result ↔ ((binds condition.now ≡ false) × CanGather condition.now extra.now) }
{
    match condition {
        Condition::Plain(_) => false,
        Condition::Negated(_) | Condition::Existing(_) => extra.values.as_slice().is_empty(),
        Condition::Folded(_) => {
            extra.values.as_slice().len() as u64 == extra.count
                && are_rising(extra.values.as_slice())
        }
    }
}

fn has_finite_life(lives: &LifeTable, ty: TypeId) -> bool
    ensures { result ≡ is_finite (slice_get lives.now.lives ty.0) }
{
    match lives.lives.as_slice().get(ty.0 as usize) {
        Some(Life::Finite(_)) => true,
        _ => false,
    }
}

fn can_count(lives: &LifeTable, condition: &Condition, extra: &Extra) -> bool
    ensures { IsTrue result ↔ CanCount lives.now condition.now extra.now }
{
    can_gather(condition, extra)
        && has_finite_life(lives, condition.pattern().ty)
        && 1 <= extra.count
        && is_small(extra.count)
}

// Whether a table has the rule of an extra as the first at its condition, and this condition may count what the extra says.
fn is_placed_at(
    lives: &LifeTable,
    table: &[Seq<usize>],
    condition: &Condition,
    extra: &Extra,
) -> bool
    ensures { IsTrue result ↔ ((is_first_in table.now extra.now.rule.0 extra.now.condition ≡ true) × CanCount lives.now condition.now extra.now) }
{
    is_first(table, extra.rule.0 as usize, extra.condition as usize)
        && can_count(lives, condition, extra)
}

fn rule_at(program: &Program, place: usize) -> Option<&Rule>
    ensures { option_map (λ rule. rule.now) result ≡ slice_get program.now.rules place }
{
    program.rules.as_slice().get(place)
}

fn condition_at(rule: &Rule, place: usize) -> Option<&Condition>
    ensures { option_map (λ condition. condition.now) result ≡ slice_get rule.now.conditions place }
{
    rule.conditions.as_slice().get(place)
}

// Whether an extra has its place, by a table of the first rules with their conditions.
fn is_placed(program: &Program, lives: &LifeTable, table: &[Seq<usize>], extra: &Extra) -> bool
    ensures { IsPlaceTable program.now table.now → (IsTrue result ↔ IsForgettable program.now lives.now extra.now) }
{
    match rule_at(program, extra.rule.0 as usize) {
        Some(rule) => match condition_at(rule, extra.condition as usize) {
            Some(condition) => is_placed_at(lives, table, condition, extra),
            None => false,
        },
        None => false,
    }
}

/// Whether all these extras have their places, by a table of the first rules with their conditions.
pub(crate) fn are_placed(
    program: &Program,
    lives: &LifeTable,
    table: &[Seq<usize>],
    extras: &[Extra],
) -> bool
    ensures { IsPlaceTable program.now table.now → (IsTrue result ↔ All (IsForgettable program.now lives.now) extras.now) }
{
    for extra in extras {
        if !is_placed(program, lives, table, extra) {
            return false;
        }
    }
    true
}
