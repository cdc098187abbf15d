ghost use Rattle.std.specs.Prelude.{◌≡◌, map, IfOk};
ghost use Rattle.drl_scope.specs.Declarations.{rules_of, types_of};
ghost use Rattle.drl_compile.specs.Observed.{observed_names};
ghost use Rattle.drl_compile.specs.Programs.{action_of, salience_meant, rule_of, type_info, program_with};

use crate::actions_of::action;
use crate::conditions_of::conditions;
use crate::infos_of::{infos_of_entries, infos_of_types};
use crate::observed::names_observed;
use drl_grammar::{ActTree, Attr, Body, Item, RuleTree};
use drl_scope::{Declared, Place, Places};
use fx_base::{Copies, NoMemory, Seq};
use rule_model::{Action, Program, Rule, TypeInfo};
use std::alloc::Global;

// ---- rules

fn actions(
    alloc: Global,
    types: &Declared,
    place: &Place,
    trees: &[ActTree],
) -> Result<Seq<Action>, NoMemory>
    ensures { IfOk result (λ actions. actions ≡ map (action_of types.now place.now.sight) trees.now) }
{
    let mut actions = Vec::with_capacity(alloc, trees.len())?;
    for tree in trees {
        actions.push(action(alloc, types, place, tree)?)?;
    }
    Ok(Seq::from_vec(actions))
}

fn salience(attrs: &[Attr]) -> i64
    ensures { result ≡ salience_meant attrs.now }
{
    for attr in attrs {
        match attr {
            Attr::Salience(number) => return *number,
            Attr::Dialect(_) => {}
        }
    }
    0
}

fn rule(
    alloc: Global,
    types: &Declared,
    entries: &Places,
    tree: &RuleTree,
) -> Result<Rule, NoMemory>
    ensures { IfOk result (λ rule. rule ≡ rule_of types.now entries.now tree.now) }
{
    let (conditions, place) = conditions(alloc, types, entries, tree.conditions.as_slice())?;
    Ok(Rule {
        name: tree.name.copy(alloc)?,
        salience: salience(tree.attrs.as_slice()),
        conditions,
        actions: actions(alloc, types, &place, tree.actions.as_slice())?,
    })
}

fn rules(
    alloc: Global,
    types: &Declared,
    entries: &Places,
    items: &[Item],
) -> Result<Seq<Rule>, NoMemory>
    ensures { IfOk result (λ rules. rules ≡ map (rule_of types.now entries.now) (rules_of items.now)) }
{
    let mut rules = Vec::new(alloc);
    for item in items {
        match &item.body {
            Body::Rule(tree) => rules.push(rule(alloc, types, entries, tree)?)?,
            Body::Package(_)
            | Body::Import { .. }
            | Body::Dialect(_)
            | Body::Declare(_)
            | Body::Entry { .. } => {}
        }
    }
    Ok(Seq::from_vec(rules))
}

// What is known of the types that the items declare.
fn declared_types(alloc: Global, items: &[Item]) -> Result<Seq<TypeInfo>, NoMemory>
    ensures { IfOk result (λ infos. infos ≡ map (type_info (observed_names (rules_of items.now))) (types_of items.now)) }
{
    let observed = names_observed(alloc, items)?;
    infos_of_types(alloc, &observed, items)
}

/// The program of the items of a file, whose types and entry points these are.
pub fn program(
    alloc: Global,
    types: &Declared,
    entries: &Places,
    items: &[Item],
) -> Result<Program, NoMemory>
    ensures { IfOk result (λ program. program ≡ program_with types.now entries.now items.now) }
{
    Ok(Program {
        types: declared_types(alloc, items)?,
        entries: infos_of_entries(alloc, entries.names(), items)?,
        rules: rules(alloc, types, entries, items)?,
    })
}
