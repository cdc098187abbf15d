ghost use Rattle.std.specs.Prelude.{◌≡◌, map as list_map, drop, option_map, slice_get, IfOk, OnOk};
ghost use Rattle.serde_json.specs.View.{view, members_view};
ghost use Rattle.answer_json.specs.Objects.{members_with};
ghost use Rattle.answer_json.specs.Firings.{rule_name, rule_data, fact_names, result_names, first_name, name_member, bound_fact, bound_result, bound_facts, bound_results, firing_data};

use crate::facts::{fields, type_of};
use drl_names::RuleNames;
use fx_base::{Fact, Millis, NoMemory, RuleId, Seq, Text};
use rule_model::Program;
use serde_json::{Map, Value as Json, put};
use std::alloc::Global;

/// What is told of a firing: the rule, its moment, the facts that its patterns bound, and the results of its accumulates.
#[derive(Clone, Copy)]
pub(crate) struct Firing<'a> {
    pub rule: RuleId,
    pub clock: Millis,
    pub facts: &'a [Fact],
    pub values: &'a [i64],
}

fn name_of_rule(program: &Program, rule: RuleId) -> &str
    ensures { result.now ≡ rule_name (slice_get program.now.rules rule.0) }
{
    match program.rules.as_slice().get(rule.0 as usize) {
        Some(rule) => rule.name.as_str(),
        None => "",
    }
}

/// A rule, by its name.
pub(crate) fn rule_of(alloc: Global, program: &Program, rule: RuleId) -> Result<Json, NoMemory>
    ensures { IfOk result (λ v. view v ≡ rule_data program.now rule) }
{
    Ok(Json::try_from_str(alloc, name_of_rule(program, rule))?)
}

fn names_of_facts(names: Option<&RuleNames>) -> &[Option<Text>]
    ensures { result.now ≡ fact_names (option_map (λ n. n.now) names.entry) }
{
    match names {
        Some(names) => names.facts.as_slice(),
        None => &[],
    }
}

fn names_of_results(names: Option<&RuleNames>) -> &[Option<Text>]
    ensures { result.now ≡ result_names (option_map (λ n. n.now) names.entry) }
{
    match names {
        Some(names) => names.results.as_slice(),
        None => &[],
    }
}

// The first name, where there is one, and the names behind it.
fn next_name(names: &[Option<Text>]) -> (Option<&Text>, &[Option<Text>])
    ensures first { option_map (λ n. n.now) result.0 ≡ first_name names.now }
    ensures rest { result.1.now ≡ drop 1 names.now }
{
    match names.split_first() {
        Some((name, rest)) => (name.as_ref(), rest),
        None => (None, names),
    }
}

// Puts the name of a variable, where there is one.
fn put_name(map: &mut Map<String, Json>, alloc: Global, name: Option<&Text>) -> Result<(), NoMemory>
    ensures { OnOk result (members_view map.new.entries
        ≡ members_with (members_view map.old.entries) (name_member (option_map (λ n. n.now) name.entry))) }
{
    match name {
        Some(name) => Ok(put(
            map,
            alloc,
            "name",
            Json::try_from_str(alloc, name.as_str())?,
        )?),
        None => Ok(()),
    }
}

fn fact_of(
    alloc: Global,
    program: &Program,
    name: Option<&Text>,
    fact: &Fact,
) -> Result<Json, NoMemory>
    ensures { IfOk result (λ v. view v ≡ bound_fact program.now (option_map (λ n. n.now) name.entry) fact.now) }
{
    let mut map = Map::new(alloc);
    put(&mut map, alloc, "fields", fields(alloc, program, fact)?)?;
    put(&mut map, alloc, "id", Json::from(fact.id.0))?;
    put(&mut map, alloc, "type", type_of(alloc, program, fact.ty)?)?;
    put_name(&mut map, alloc, name)?;
    Ok(Json::Object(map))
}

fn result_of(alloc: Global, name: Option<&Text>, value: i64) -> Result<Json, NoMemory>
    ensures { IfOk result (λ v. view v ≡ bound_result (option_map (λ n. n.now) name.entry) value) }
{
    let mut map = Map::new(alloc);
    put(&mut map, alloc, "value", Json::from(value))?;
    put_name(&mut map, alloc, name)?;
    Ok(Json::Object(map))
}

fn facts_of(
    alloc: Global,
    program: &Program,
    names: &[Option<Text>],
    facts: &[Fact],
) -> Result<Vec<Json>, NoMemory>
    ensures { IfOk result (λ all. list_map view all.items ≡ bound_facts program.now names.now facts.now) }
{
    let mut all = Vec::with_capacity(alloc, facts.len())?;
    let mut left = names;
    for fact in facts {
        let (name, rest) = next_name(left);
        all.push(fact_of(alloc, program, name, fact)?)?;
        left = rest;
    }
    Ok(all)
}

fn results_of(alloc: Global, names: &[Option<Text>], values: &[i64]) -> Result<Vec<Json>, NoMemory>
    ensures { IfOk result (λ all. list_map view all.items ≡ bound_results names.now values.now) }
{
    let mut all = Vec::with_capacity(alloc, values.len())?;
    let mut left = names;
    for value in values {
        let (name, rest) = next_name(left);
        all.push(result_of(alloc, name, *value)?)?;
        left = rest;
    }
    Ok(all)
}

/// A firing to the line of a number, with the names of its rule.
#[tactic(auto, unfolding(crate::specs::Firings::firing_data))]
pub(crate) fn firing_of(
    alloc: Global,
    program: &Program,
    names: Option<&RuleNames>,
    number: u64,
    firing: Firing<'_>,
) -> Result<Json, NoMemory>
    ensures { IfOk result (λ v. view v ≡ firing_data program.now (option_map (λ n. n.now) names.entry) number
        firing.entry.rule firing.entry.clock firing.entry.facts.now firing.entry.values.now) }
{
    let facts = facts_of(alloc, program, names_of_facts(names), firing.facts)?;
    let results = results_of(alloc, names_of_results(names), firing.values)?;
    let mut map = Map::new(alloc);
    put(&mut map, alloc, "at", Json::from(firing.clock))?;
    put(&mut map, alloc, "facts", Json::Array(facts))?;
    put(
        &mut map,
        alloc,
        "fire",
        rule_of(alloc, program, firing.rule)?,
    )?;
    put(&mut map, alloc, "line", Json::from(number))?;
    put(&mut map, alloc, "results", Json::Array(results))?;
    Ok(Json::Object(map))
}
