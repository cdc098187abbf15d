ghost use Rattle.std.specs.Prelude.{◌≡◌, IfOk, IsErrOf, option_map, codes};
ghost use Rattle.serde_json.specs.Data.{Data};
ghost use Rattle.serde_json.specs.View.{view};
ghost use Rattle.script_read.specs.Members.{text_member as text_under, object_member as object_under, whole_member as whole_under};
ghost use Rattle.script_read.specs.Form.{IsForm, fire_of, held_form, insert_parts, insert_into_parts, insert_of, modify_of, retract_of, advance_of, at_of, promise_parts, promise_of_parts, promise_of, begin_of, command_of};
ghost use Rattle.script_read.specs.Asked.{IsLineReading, reading, asked, AnswersLine};

use crate::asked::{Change, Command};
use crate::fault::CommandFault;
use crate::given::fields_of;
use crate::members::{count, count_member, id_member, object_member, text_member, whole_member};
use fx_base::{NoMemory, Text};
use serde_json::Value;
use std::alloc::Global;

/// The value that a line is read as, by `serde_json`; nothing where it is none.
#[tactic(auto, using(crate::proofs::Readings::reading_of_text, crate::proofs::Readings::no_reading))]
pub fn read_value(alloc: Global, line: &[u8]) -> Result<Option<Value>, NoMemory>
    ensures { IfOk result (λ found. option_map view found ≡ reading line.now) }
{
    match Value::from_slice(alloc, line) {
        Ok(value) => Ok(Some(value)),
        Err(fault) if fault.is_memory() => Err(NoMemory),
        Err(_) => Ok(None),
    }
}

#[tactic(auto, unfolding(crate::specs::Form::fire_of))]
fn fire(value: &Value) -> Option<Command>
    ensures { result ≡ fire_of (view value.now) }
{
    match count(value)? {
        1 => Some(Command::Fire(None)),
        2 => Some(Command::Fire(Some(count_member(value, "max")?))),
        _ => None,
    }
}

#[tactic(auto, unfolding(crate::specs::Form::held_form))]
fn held(value: &Value) -> Option<Command>
    ensures { result ≡ held_form (view value.now) }
{
    match count(value)? {
        1 => Some(Command::Held),
        _ => None,
    }
}

#[tactic(auto, unfolding(crate::specs::Form::insert_of))]
fn insert(alloc: Global, value: &Value) -> Result<Option<Command>, NoMemory>
    ensures { IfOk result (λ found. found ≡ insert_of (view value.now)) }
{
    match count(value) {
        Some(3) => plain_insert(alloc, value),
        Some(4) => entry_insert(alloc, value),
        _ => Ok(None),
    }
}

// The command of an insert that names no entry point.
fn plain_insert(alloc: Global, value: &Value) -> Result<Option<Command>, NoMemory>
    ensures { IfOk result (λ found. found
        ≡ insert_parts (text_under (codes "type") (view value.now)) (object_under (codes "fields") (view value.now))) }
{
    match (text_member(value, "type"), object_member(value, "fields")) {
        (Some(ty), Some(members)) => Ok(Some(Command::Change(Change::Insert {
            ty: Text::new(alloc, ty)?,
            entry: None,
            fields: fields_of(alloc, members)?,
        }))),
        _ => Ok(None),
    }
}

// The command of an insert that names its entry point.
fn entry_insert(alloc: Global, value: &Value) -> Result<Option<Command>, NoMemory>
    ensures { IfOk result (λ found. found
        ≡ insert_into_parts (text_under (codes "type") (view value.now)) (text_under (codes "entry") (view value.now))
        (object_under (codes "fields") (view value.now))) }
{
    match (
        text_member(value, "type"),
        text_member(value, "entry"),
        object_member(value, "fields"),
    ) {
        (Some(ty), Some(entry), Some(members)) => Ok(Some(Command::Change(Change::Insert {
            ty: Text::new(alloc, ty)?,
            entry: Some(Text::new(alloc, entry)?),
            fields: fields_of(alloc, members)?,
        }))),
        _ => Ok(None),
    }
}

#[tactic(auto, unfolding(crate::specs::Form::modify_of))]
fn modify(alloc: Global, value: &Value) -> Result<Option<Command>, NoMemory>
    ensures { IfOk result (λ found. found ≡ modify_of (view value.now)) }
{
    if count(value) != Some(4) {
        return Ok(None);
    }
    match (
        text_member(value, "type"),
        id_member(value, "id"),
        object_member(value, "fields"),
    ) {
        (Some(ty), Some(id), Some(members)) => Ok(Some(Command::Change(Change::Modify {
            ty: Text::new(alloc, ty)?,
            id,
            fields: fields_of(alloc, members)?,
        }))),
        _ => Ok(None),
    }
}

#[tactic(auto, unfolding(crate::specs::Form::retract_of))]
fn retract(alloc: Global, value: &Value) -> Result<Option<Command>, NoMemory>
    ensures { IfOk result (λ found. found ≡ retract_of (view value.now)) }
{
    if count(value) != Some(3) {
        return Ok(None);
    }
    match (text_member(value, "type"), id_member(value, "id")) {
        (Some(ty), Some(id)) => Ok(Some(Command::Change(Change::Retract {
            ty: Text::new(alloc, ty)?,
            id,
        }))),
        _ => Ok(None),
    }
}

#[tactic(auto, unfolding(crate::specs::Form::advance_of))]
fn advance(value: &Value) -> Option<Command>
    ensures { result ≡ advance_of (view value.now) }
{
    match count(value)? {
        2 => Some(Command::Change(Change::Advance(whole_member(value, "by")?))),
        _ => None,
    }
}

#[tactic(auto, unfolding(crate::specs::Form::at_of))]
fn at(value: &Value) -> Option<Command>
    ensures { result ≡ at_of (view value.now) }
{
    match count(value)? {
        2 => Some(Command::Change(Change::At(whole_member(value, "ms")?))),
        _ => None,
    }
}

#[tactic(auto, unfolding(crate::specs::Form::promise_of))]
fn promise(alloc: Global, value: &Value) -> Result<Option<Command>, NoMemory>
    ensures { IfOk result (λ found. found ≡ promise_of (view value.now)) }
{
    match count(value) {
        Some(2) => Ok(plain_promise(value)),
        Some(3) => entry_promise(alloc, value),
        _ => Ok(None),
    }
}

// The command of a promise that names no entry point.
fn plain_promise(value: &Value) -> Option<Command>
    ensures { result ≡ promise_parts (whole_under (codes "from") (view value.now)) }
{
    let from = whole_member(value, "from")?;
    Some(Command::Change(Change::Promise { entry: None, from }))
}

// The command of a promise that names its entry point.
fn entry_promise(alloc: Global, value: &Value) -> Result<Option<Command>, NoMemory>
    ensures { IfOk result (λ found. found
        ≡ promise_of_parts (text_under (codes "entry") (view value.now)) (whole_under (codes "from") (view value.now))) }
{
    match (text_member(value, "entry"), whole_member(value, "from")) {
        (Some(entry), Some(from)) => Ok(Some(Command::Change(Change::Promise {
            entry: Some(Text::new(alloc, entry)?),
            from,
        }))),
        _ => Ok(None),
    }
}

#[tactic(auto, unfolding(crate::specs::Form::begin_of))]
fn begin(value: &Value) -> Option<Command>
    ensures { result ≡ begin_of (view value.now) }
{
    match count(value)? {
        1 => Some(Command::Change(Change::Begin)),
        _ => None,
    }
}

// The command whose form the value has.
#[tactic(auto, unfolding(crate::specs::Form::command_of))]
fn form(alloc: Global, value: &Value) -> Result<Option<Command>, NoMemory>
    ensures { IfOk result (λ found. found ≡ command_of (view value.now)) }
{
    let Some(word) = text_member(value, "do") else {
        return Ok(None);
    };
    match word {
        "fire" => Ok(fire(value)),
        "insert" => insert(alloc, value),
        "modify" => modify(alloc, value),
        "retract" => retract(alloc, value),
        "advance" => Ok(advance(value)),
        "at" => Ok(at(value)),
        "held" => Ok(held(value)),
        "promise" => promise(alloc, value),
        "begin" => Ok(begin(value)),
        _ => Ok(None),
    }
}

/// The command that a line asks for. `BadJson` comes exactly where the bytes are no UTF-8 or have no
/// reading in `serde_json`, and `BadCommand` exactly where the reading has the form of no command.
#[tactic(auto, unfolding(crate::specs::Asked::asked))]
pub fn command(alloc: Global, line: &[u8]) -> Result<Command, CommandFault>
    ensures asked { AnswersLine (asked line.now) result }

    // The same by the forms.
    ensures ok { IfOk result (λ c. (d : Data) × IsLineReading line.now d × IsForm d c) }
    ensures bad_json { IsErrOf result CommandFault.BadJson → (d : Data) → ¬ IsLineReading line.now d }
    ensures bad_command { IsErrOf result CommandFault.BadCommand
        → (d : Data) × IsLineReading line.now d × ((c : Command) → ¬ IsForm d c) }
{
    match read_value(alloc, line)? {
        Some(value) => form(alloc, &value)?.ok_or(CommandFault::BadCommand),
        None => Err(CommandFault::BadJson),
    }
}
