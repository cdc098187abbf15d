ghost use Rattle.std.specs.Prelude.{◌≡◌, ◌++◌, IfOk, OnOk};
ghost use Rattle.serde_json.specs.View.{view};
ghost use Rattle.answer_json.specs.Objects.{json_line, ReadsBack};
ghost use Rattle.answer_json.specs.Answers.{id_data, rule_fired, line_data};

use crate::answers::fault_of;
use crate::facts::{fact_of, type_of};
use crate::firings::{Firing, firing_of, rule_of};
use crate::writing::push_value;
use answer_lines::OutLine;
use drl_names::RuleNames;
use fx_base::{FactId, NoMemory, RuleId, TypeId};
use rule_model::Program;
use serde_json::{Map, Value as Json, put};
use std::alloc::Global;

// What a fact has come to as a word says, without its fields.
#[tactic(auto, unfolding(crate::specs::Answers::id_data))]
fn id_of(
    alloc: Global,
    program: &Program,
    number: u64,
    word: &str,
    id: FactId,
    ty: TypeId,
) -> Result<Json, NoMemory>
    ensures { IfOk result (λ v. view v ≡ id_data program.now number word.now id ty) }
{
    let mut map = Map::new(alloc);
    put(&mut map, alloc, "line", Json::from(number))?;
    put(&mut map, alloc, word, Json::from(id.0))?;
    put(&mut map, alloc, "type", type_of(alloc, program, ty)?)?;
    Ok(Json::Object(map))
}

// A firing, without what its conditions bound.
#[tactic(auto, unfolding(crate::specs::Answers::rule_fired))]
fn rule_fired_of(
    alloc: Global,
    program: &Program,
    number: u64,
    rule: RuleId,
) -> Result<Json, NoMemory>
    ensures { IfOk result (λ v. view v ≡ rule_fired program.now number rule) }
{
    let mut map = Map::new(alloc);
    put(&mut map, alloc, "fire", rule_of(alloc, program, rule)?)?;
    put(&mut map, alloc, "line", Json::from(number))?;
    Ok(Json::Object(map))
}

// A line of the engine, as a value.
#[tactic(auto, unfolding(crate::specs::Answers::line_data))]
fn line_of(
    alloc: Global,
    program: &Program,
    names: &[RuleNames],
    number: u64,
    line: &OutLine,
) -> Result<Json, NoMemory>
    ensures { IfOk result (λ v. view v ≡ line_data program.now names.now number line.now) }
{
    match line {
        OutLine::Inserted(fact) => fact_of(alloc, program, number, "new", fact),
        OutLine::Modified(fact) => fact_of(alloc, program, number, "modified", fact),
        OutLine::Retracted { id, ty } => id_of(alloc, program, number, "retracted", *id, *ty),
        OutLine::FiredFor {
            rule,
            clock,
            facts,
            values,
        } => {
            let firing = Firing {
                rule: *rule,
                clock: *clock,
                facts: facts.as_slice(),
                values: values.as_slice(),
            };
            firing_of(alloc, program, names.get(rule.0 as usize), number, firing)
        }
        OutLine::Fault(code) => fault_of(alloc, number, code.name()),
        OutLine::New { id, ty } => id_of(alloc, program, number, "new", *id, *ty),
        OutLine::Fire { rule, .. } => rule_fired_of(alloc, program, number, *rule),
    }
}

/// Appends a line that the engine answers to the line of the script with this number. The names are those of the program's rules, by their
/// places.
pub fn push_line(
    text: &mut Vec<u8>,
    alloc: Global,
    program: &Program,
    names: &[RuleNames],
    number: u64,
    line: &OutLine,
) -> Result<(), NoMemory>
    ensures text { OnOk result (text.new.items ≡ text.old.items ++ json_line (line_data program.now names.now number line.now)) }
    ensures reads_back { OnOk result (ReadsBack (line_data program.now names.now number line.now)) }
{
    let value = line_of(alloc, program, names, number, line)?;
    push_value(text, alloc, &value)
}
