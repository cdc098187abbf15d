ghost use Rattle.std.specs.Prelude.{◌≡◌, IfOk};
ghost use Rattle.std.specs.List.{list_any};
ghost use Rattle.drl_typing.specs.Asked.{asked_of, asked_of_action, asked_of_rule};

use crate::action_kinds::misfits_in_action;
use crate::action_uses::{lacks_field_in, lacks_variable_in};
use crate::kinded::Kinded;
use crate::kinds::misfits_in;
use crate::uses::{lacks_field, lacks_variable};
use drl_grammar::{ActTree, CondTree, RuleTree};
use drl_scope::{Declared, Place};
use fx_base::NoMemory;
use std::alloc::Global;

/// What is asked of each condition and of each action of a rule.
#[derive(Clone, Copy)]
pub enum Asked {
    LacksField,
    LacksVariable,
    HasWrongKind,
}

fn is_so(asked: Asked, types: &Declared, place: &Place, condition: &CondTree) -> bool
    ensures { result ≡ asked_of asked types.now place.now condition.now }
{
    match asked {
        Asked::LacksField => lacks_field(types, place, condition),
        Asked::LacksVariable => lacks_variable(place, condition),
        Asked::HasWrongKind => misfits_in(types, place, condition),
    }
}

fn is_so_of(asked: Asked, types: &Kinded, place: &Place, action: &ActTree) -> bool
    ensures { result ≡ asked_of_action asked types.now place.now.sight action.now }
{
    match asked {
        Asked::LacksField => lacks_field_in(place, action),
        Asked::LacksVariable => lacks_variable_in(place, action),
        Asked::HasWrongKind => misfits_in_action(types, place, action),
    }
}

fn is_so_of_some(asked: Asked, types: &Kinded, place: &Place, actions: &[ActTree]) -> bool
    ensures { result ≡ list_any (asked_of_action asked types.now place.now.sight) actions.now }
{
    actions
        .iter()
        .any(|action| is_so_of(asked, types, place, action))
}

/// Whether it is so of one of the conditions of a rule, or of one of its actions. What is in sight is gathered once.
#[tactic(auto, unfolding(crate::specs::Uses::any_condition, drl_scope::specs::Sight::behind_all))]
pub fn is_so_in_rule(
    alloc: Global,
    asked: Asked,
    types: &Kinded,
    tree: &RuleTree,
) -> Result<bool, NoMemory>
    ensures { IfOk result (λ so. so ≡ asked_of_rule asked types.now tree.now) }
{
    let mut place = Place::begin(alloc);
    for condition in tree.conditions.as_slice() {
        if is_so(asked, types.declared(), &place, condition) {
            return Ok(true);
        }
        place = place.behind(alloc, types.declared(), condition)?;
    }
    Ok(is_so_of_some(asked, types, &place, tree.actions.as_slice()))
}
