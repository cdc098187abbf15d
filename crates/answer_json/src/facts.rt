ghost use Rattle.std.specs.Prelude.{◌≡◌, ◌∷◌, List, ℕ, slice_get, IfOk};
ghost use Rattle.fx_base.specs.declared.kind.Kind.{Kind as KindData};
ghost use Rattle.serde_json.specs.Data.{no_members};
ghost use Rattle.serde_json.specs.View.{view, members_view};
ghost use Rattle.answer_json.specs.Facts.{value_data, with_fields, fields_of, type_name, type_data, fields_data, fact_data};

use fx_base::{Fact, Kind, NoMemory, Text, TypeId, Value};
use rule_model::Program;
use serde_json::{Map, Value as Json, put};
use std::alloc::Global;

fn value_of(alloc: Global, value: &Value) -> Result<Json, NoMemory>
    ensures { IfOk result (λ v. view v ≡ value_data value.now) }
{
    match value {
        Value::Int(number) => Ok(Json::from(*number)),
        Value::Bool(flag) => Ok(Json::Bool(*flag)),
        Value::Text(text) => Ok(Json::try_from_str(alloc, text.as_str())?),
    }
}

// Puts the first of the values under a name, and answers those behind it.
fn put_next<'a>(
    alloc: Global,
    map: &mut Map<String, Json>,
    name: &str,
    values: &'a [Value],
) -> Result<&'a [Value], NoMemory>
    ensures { IfOk result (λ rest. (kind : KindData) (fields : List (List ℕ × KindData))
        → with_fields (members_view map.new.entries) fields rest.now ≡ with_fields (members_view map.old.entries) ((name.now, kind) ∷ fields) values.now) }
{
    match values.split_first() {
        Some((value, rest)) => {
            put(map, alloc, name, value_of(alloc, value)?)?;
            Ok(rest)
        }
        None => Ok(values),
    }
}

// The values of fields under their names.
fn under_names(
    alloc: Global,
    fields: &[(Text, Kind)],
    values: &[Value],
) -> Result<Map<String, Json>, NoMemory>
    ensures { IfOk result (λ map. members_view map.entries ≡ with_fields no_members fields.now values.now) }
{
    let mut map = Map::new(alloc);
    let mut rest = values;
    for (name, _) in fields {
        rest = put_next(alloc, &mut map, name.as_str(), rest)?;
    }
    Ok(map)
}

fn fields_of_type(program: &Program, ty: TypeId) -> &[(Text, Kind)]
    ensures { result.now ≡ fields_of (slice_get program.now.types ty.0) }
{
    match program.type_info(ty) {
        Some(info) => info.fields.as_slice(),
        None => &[],
    }
}

fn name_of_type(program: &Program, ty: TypeId) -> &str
    ensures { result.now ≡ type_name (slice_get program.now.types ty.0) }
{
    match program.type_info(ty) {
        Some(info) => info.name.as_str(),
        None => "",
    }
}

/// A type, by its name.
pub(crate) fn type_of(alloc: Global, program: &Program, ty: TypeId) -> Result<Json, NoMemory>
    ensures { IfOk result (λ v. view v ≡ type_data program.now ty) }
{
    Ok(Json::try_from_str(alloc, name_of_type(program, ty))?)
}

/// The values of a fact under the names of its fields.
pub(crate) fn fields(alloc: Global, program: &Program, fact: &Fact) -> Result<Json, NoMemory>
    ensures { IfOk result (λ v. view v ≡ fields_data program.now fact.now) }
{
    let names = fields_of_type(program, fact.ty);
    Ok(Json::Object(under_names(alloc, names, fact.fields.as_slice())?))
}

/// A fact, its id under a word, to the line of a number.
#[tactic(auto, unfolding(crate::specs::Facts::fact_data))]
pub(crate) fn fact_of(
    alloc: Global,
    program: &Program,
    number: u64,
    word: &str,
    fact: &Fact,
) -> Result<Json, NoMemory>
    ensures { IfOk result (λ v. view v ≡ fact_data program.now number word.now fact.now) }
{
    let mut map = Map::new(alloc);
    put(&mut map, alloc, "fields", fields(alloc, program, fact)?)?;
    put(&mut map, alloc, "line", Json::from(number))?;
    put(&mut map, alloc, word, Json::from(fact.id.0))?;
    put(&mut map, alloc, "type", type_of(alloc, program, fact.ty)?)?;
    Ok(Json::Object(map))
}
