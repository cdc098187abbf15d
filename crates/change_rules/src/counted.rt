//! Which types new rules count of which not all that is present is kept.
ghost use Rattle.std.specs.Prelude.{◌≡◌, ◌↔◌, ◌≤◌, ◌^◌, length, IsTrue};
ghost use Rattle.rule_model.specs.Simple.{observes as observes_of};
ghost use Rattle.rule_change.specs.Refused.{IsCountedAnew, counts_type as counts_type_of};
ghost use Rattle.change_rules.specs.Judged.{Forgets, IsCounted, IsFirstType};
ghost use Rattle.change_rules.specs.Staying.{place_in};

use crate::places::type_there;
use fx_base::TypeId;
use rule_model::{Condition, Life, LifeTable, Program, Rule, WindowTag};

// Whether a condition looks at the facts of its pattern together.
fn observes(condition: &Condition) -> bool
    ensures { result ≡ observes_of condition.now }
{
    match condition {
        Condition::Plain(pattern) => match pattern.window {
            WindowTag::Length(_) => true,
            WindowTag::Whole | WindowTag::Time(_) => false,
        },
        Condition::Negated(_) | Condition::Existing(_) | Condition::Folded(_) => true,
    }
}

// Whether some condition of a rule looks at the facts of this type together.
fn counts_type(rule: &Rule, ty: usize) -> bool
    ensures { result ≡ counts_type_of ty rule.now }
{
    for condition in rule.conditions.as_slice() {
        if observes(condition) && condition.pattern().ty.0 as usize == ty {
            return true;
        }
    }
    false
}

// Whether a rule is new.
fn is_new(places: &[Option<usize>], rule: usize) -> bool
    ensures { IsTrue result ↔ (place_in places.now rule ≡ None) }
{
    match places.get(rule) {
        Some(place) => place.is_none(),
        None => true,
    }
}

// Whether some new rule counts events of this type.
fn is_counted(new: &Program, places: &[Option<usize>], ty: usize) -> bool
    ensures { IsTrue result ↔ IsCounted new.now (place_in places.now) ty }
{
    let rules = new.rules.as_slice();
    for place in 0..rules.len() {
        if is_new(places, place) && counts_type(&rules[place], ty) {
            return true;
        }
    }
    false
}

// Whether events of this type were forgotten behind a finite life.
fn forgets(old: &Program, new: &Program, table: &LifeTable, ty: usize) -> bool
    requires { length old.now.types ≤ 2 ^ 16 }
    ensures { IsTrue result ↔ Forgets old.now new.now table.now ty }
{
    match type_there(new, old, ty) {
        Some((there, _)) => match table.lives.as_slice().get(there.0 as usize) {
            Some(Life::Finite(_)) => true,
            _ => false,
        },
        None => false,
    }
}

// Whether a new rule counts events of this type, where those past a finite life were forgotten.
fn is_counted_anew(
    old: &Program,
    new: &Program,
    places: &[Option<usize>],
    table: &LifeTable,
    ty: usize,
) -> bool
    requires { length old.now.types ≤ 2 ^ 16 }
    ensures { IsTrue result ↔ IsCountedAnew old.now new.now (place_in places.now) table.now ty }
{
    forgets(old, new, table, ty) && is_counted(new, places, ty)
}

/// The first type of which a new rule counts events, where those past a finite life were forgotten. Takes no memory.
pub(crate) fn first_counted_anew(
    old: &Program,
    new: &Program,
    places: &[Option<usize>],
    table: &LifeTable,
) -> Option<TypeId>
    requires types { length old.now.types ≤ 2 ^ 16 }
    requires other_types { length new.now.types ≤ 2 ^ 16 }
    ensures { IsFirstType (IsCountedAnew old.now new.now (place_in places.now) table.now) result }
{
    for ty in 0..new.types.as_slice().len() {
        if is_counted_anew(old, new, places, table, ty) {
            return Some(TypeId(ty as u16));
        }
    }
    None
}
