ghost use Rattle.std.specs.Prelude.{◌≡◌, ◌++◌, ◌∷◌, List, IfOk, OnOk};
ghost use Rattle.rule_model.specs.declared.program.EntryInfo.{EntryInfo as EntryData};
ghost use Rattle.rule_model.specs.declared.program.TypeInfo.{TypeInfo as TypeData};
ghost use Rattle.serde_json.specs.Data.{no_members};
ghost use Rattle.serde_json.specs.View.{view, members_view};
ghost use Rattle.answer_json.specs.Objects.{json_line, ReadsBack};
ghost use Rattle.answer_json.specs.Answers.{with_counts, with_floors, counts_data};

use crate::writing::push_value;
use fx_base::{Millis, NoMemory, Seq};
use rule_model::{EntryInfo, Program, TypeInfo};
use serde_json::{Map, Value as Json, put};
use std::alloc::Global;

/// What a run can count: its clock, the facts that are kept of each type of the program, the firings so far, the floor of each of its entry
/// points, and the pending matches.
#[derive(Debug, Drop)]
pub struct Counted {
    pub clock: Millis,
    pub facts: Seq<u64>,
    pub firings: u64,
    pub floors: Seq<Millis>,
    pub pending: u64,
}

// Puts the first of the numbers under the name of a type, and answers those behind it.
fn put_count<'a>(
    alloc: Global,
    map: &mut Map<String, Json>,
    ty: &TypeInfo,
    numbers: &'a [u64],
) -> Result<&'a [u64], NoMemory>
    ensures { IfOk result (λ rest. (types : List TypeData)
        → with_counts (members_view map.new.entries) types rest.now ≡ with_counts (members_view map.old.entries) (ty.now ∷ types) numbers.now) }
{
    match numbers.split_first() {
        Some((number, rest)) => {
            put(map, alloc, ty.name.as_str(), Json::from(*number))?;
            Ok(rest)
        }
        None => Ok(numbers),
    }
}

fn counts_of(
    alloc: Global,
    types: &[TypeInfo],
    numbers: &[u64],
) -> Result<Map<String, Json>, NoMemory>
    ensures { IfOk result (λ map. members_view map.entries ≡ with_counts no_members types.now numbers.now) }
{
    let mut map = Map::new(alloc);
    let mut rest = numbers;
    for ty in types {
        rest = put_count(alloc, &mut map, ty, rest)?;
    }
    Ok(map)
}

// Puts the first of the moments under the name of an entry point, and answers those behind it.
fn put_floor<'a>(
    alloc: Global,
    map: &mut Map<String, Json>,
    entry: &EntryInfo,
    floors: &'a [Millis],
) -> Result<&'a [Millis], NoMemory>
    ensures { IfOk result (λ rest. (entries : List EntryData)
        → with_floors (members_view map.new.entries) entries rest.now ≡ with_floors (members_view map.old.entries) (entry.now ∷ entries) floors.now) }
{
    match floors.split_first() {
        Some((floor, rest)) => {
            put(map, alloc, entry.name.as_str(), Json::from(*floor))?;
            Ok(rest)
        }
        None => Ok(floors),
    }
}

fn floors_of(
    alloc: Global,
    entries: &[EntryInfo],
    floors: &[Millis],
) -> Result<Map<String, Json>, NoMemory>
    ensures { IfOk result (λ map. members_view map.entries ≡ with_floors no_members entries.now floors.now) }
{
    let mut map = Map::new(alloc);
    let mut rest = floors;
    for entry in entries {
        rest = put_floor(alloc, &mut map, entry, rest)?;
    }
    Ok(map)
}

#[tactic(auto, unfolding(crate::specs::Answers::counts_data))]
fn counts_value(
    alloc: Global,
    program: &Program,
    number: u64,
    counted: &Counted,
) -> Result<Json, NoMemory>
    ensures { IfOk result (λ v. view v ≡ counts_data program.now number counted.now) }
{
    let counts = counts_of(alloc, program.types.as_slice(), counted.facts.as_slice())?;
    let floors = floors_of(alloc, program.entries.as_slice(), counted.floors.as_slice())?;
    let mut map = Map::new(alloc);
    put(&mut map, alloc, "clock", Json::from(counted.clock))?;
    put(&mut map, alloc, "counts", Json::Object(counts))?;
    put(&mut map, alloc, "firings", Json::from(counted.firings))?;
    put(&mut map, alloc, "floors", Json::Object(floors))?;
    put(&mut map, alloc, "line", Json::from(number))?;
    put(&mut map, alloc, "pending", Json::from(counted.pending))?;
    Ok(Json::Object(map))
}

/// Appends what is counted.
pub fn push_counts(
    text: &mut Vec<u8>,
    alloc: Global,
    program: &Program,
    number: u64,
    counted: &Counted,
) -> Result<(), NoMemory>
    ensures text { OnOk result (text.new.items ≡ text.old.items ++ json_line (counts_data program.now number counted.now)) }
    ensures reads_back { OnOk result (ReadsBack (counts_data program.now number counted.now)) }
{
    let value = counts_value(alloc, program, number, counted)?;
    push_value(text, alloc, &value)
}
