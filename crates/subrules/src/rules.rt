ghost use Rattle.std.specs.Prelude.{◌≡◌, ◌++◌, ◌∷◌, [], length, codes, IfOk, OnOk};
ghost use Rattle.std.specs.Fmt.{decimal};
ghost use Rattle.subrules.specs.Expanded.{plain_rule, numbered_rules, rules_of_ways, plain_rules};

use crate::hierarchy::Hierarchy;
use crate::ways::ways_in;
use drl_grammar::{CondTree, RuleTree, WrittenRule};
use fx_base::{Copies, NoMemory, Seq, Text};
use std::alloc::Global;

// A rule with this name and these conditions.
fn plain(
    alloc: Global,
    rule: &WrittenRule,
    name: Text,
    conditions: Seq<CondTree>,
) -> Result<RuleTree, NoMemory>
    ensures { IfOk result (λ made. made ≡ plain_rule rule.now name conditions) }
{
    let attrs = rule.attrs.copy(alloc)?;
    let actions = rule.actions.copy(alloc)?;
    Ok(RuleTree {
        name,
        attrs,
        conditions,
        actions,
    })
}

// The name of a rule with a number behind it.
fn numbered_name(alloc: Global, name: &Text, number: u64) -> Result<Text, NoMemory>
    ensures { IfOk result (λ text. text ≡ name.now ++ codes " #" ++ decimal number) }
{
    let digits = number.to_string(alloc)?;
    let mut text = String::new(alloc);
    text.push_str(name.as_str())?;
    text.push_str(" #")?;
    text.push_str(&digits)?;
    Text::new(alloc, &text)
}

// The rules of several ways, numbered from 1.
#[tactic(auto, unfolding(crate::specs::Expanded::numbered_rules))]
fn numbered(
    alloc: Global,
    rule: &WrittenRule,
    ways: Vec<Seq<CondTree>>,
) -> Result<Vec<RuleTree>, NoMemory>
    ensures { IfOk result (λ made. made.items ≡ numbered_rules rule.now 1 ways.items) }
{
    let mut rules = Vec::with_capacity(alloc, ways.len())?;
    let mut number: u64 = 1;
    for way in ways {
        let name = numbered_name(alloc, &rule.name, number)?;
        rules.push(plain(alloc, rule, name, way)?)?;
        number += 1;
    }
    Ok(rules)
}

/// The rules that a rule is written out to: with its name where it can be met in one way, else with numbers behind it.
pub(crate) fn plain_rules(
    alloc: Global,
    types: &Hierarchy,
    rule: &WrittenRule,
) -> Result<Vec<RuleTree>, NoMemory>
    ensures { IfOk result (λ made. made.items ≡ plain_rules types.now rule.now) }
{
    let mut ways = ways_in(alloc, types, rule.pieces.as_slice())?.into_vec();
    if ways.len() > 1 {
        return numbered(alloc, rule, ways);
    }
    let mut rules = Vec::with_capacity(alloc, 1)?;
    match ways.pop() {
        Some(way) => {
            let name = rule.name.copy(alloc)?;
            rules.push(plain(alloc, rule, name, way)?)?;
        }
        None => {}
    }
    Ok(rules)
}
