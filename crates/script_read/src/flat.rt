ghost use Rattle.std.specs.Prelude.{◌≡◌, Some, IfOk, IfSome, IsErrOf, codes, option_and_then};
ghost use Rattle.json.specs.Json.{object, if_last, value as value_in};
ghost use Rattle.json.specs.Lex.{tokens};
ghost use Rattle.json.specs.Value.{value_view, members_view};
ghost use Rattle.serde_json.specs.Data.{Data};
ghost use Rattle.serde_json.specs.Read.{max_depth};
ghost use Rattle.script_read.specs.Asked.{IsLineReading, AnswersLine, asked, asks};
ghost use Rattle.script_read.specs.Flat.{tree_command, word_command, two, three};
ghost use Rattle.script_read.specs.Form.{IsForm};

use crate::asked::{Change, Command};
use crate::fault::CommandFault;
use crate::line::command;
use crate::names::Names;
use crate::scratch::Scratch;
use crate::tree::{fields_in, id_under, members_under, text_under, whole_under};
use fx_base::NoMemory;
use json::{Error, Reader, Value as Tree};
use simdutf8::compat::from_utf8;
use std::alloc::Global;

// How deep arrays and objects may nest in a line.
const MOST_DEPTH: usize = 127;

// The tree that a text is.
fn tree_of<'a>(
    alloc: Global,
    text: &'a str,
    places: &'a mut json::Scratch,
) -> Result<Option<Tree<'a>>, NoMemory>
    ensures { IfOk result (λ found. IfSome found
        (λ tree. option_and_then (λ p. if_last p.0 p.1) (value_in max_depth (tokens text.now)) ≡ Some (value_view tree))) }
{
    let mut reader = Reader::new(text, places)?;
    let tree = match Tree::read(alloc, &mut reader, MOST_DEPTH) {
        Ok(tree) => tree,
        Err(Error::OutOfMemory) => return Err(NoMemory),
        Err(_) => return Ok(None),
    };
    match reader.next() {
        Some(_) => Ok(None),
        None => Ok(Some(tree)),
    }
}

// The insert that has these members behind its word.
fn insert(
    alloc: Global,
    members: &[(&str, Tree<'_>)],
    names: &mut Names,
) -> Result<Option<Command>, NoMemory>
    ensures { IfOk result (λ found. IfSome found (λ c. word_command (codes "insert") (members_view members.now) ≡ Some c)) }
{
    match members {
        [_, _] => plain_insert(alloc, members, names),
        [_, _, _] => entry_insert(alloc, members, names),
        _ => Ok(None),
    }
}

// The insert that names no entry point, in the order of its form or in that of the names.
fn plain_insert(
    alloc: Global,
    members: &[(&str, Tree<'_>)],
    names: &mut Names,
) -> Result<Option<Command>, NoMemory>
    ensures { IfOk result (λ found. IfSome found (λ c. word_command (codes "insert") (members_view members.now) ≡ Some c)) }
{
    let [first, second] = members else {
        return Ok(None);
    };
    if second.0 == "type" {
        insert_of(alloc, second, first, names)
    } else {
        insert_of(alloc, first, second, names)
    }
}

// The insert of these members, whichever stands first.
fn insert_of(
    alloc: Global,
    ty: &(&str, Tree<'_>),
    fields: &(&str, Tree<'_>),
    names: &mut Names,
) -> Result<Option<Command>, NoMemory>
    ensures written { IfOk result (λ found. IfSome found (λ c.
        word_command (codes "insert") (two ty.now.0.now (value_view ty.now.1) fields.now.0.now (value_view fields.now.1)) ≡ Some c)) }
    ensures sorted { IfOk result (λ found. IfSome found (λ c.
        word_command (codes "insert") (two fields.now.0.now (value_view fields.now.1) ty.now.0.now (value_view ty.now.1)) ≡ Some c)) }
{
    match (text_under(ty, "type"), members_under(fields, "fields")) {
        (Some(ty), Some(parts)) => match fields_in(alloc, parts, names)? {
            Some(fields) => Ok(Some(Command::Change(Change::Insert {
                ty: names.name(alloc, ty)?,
                entry: None,
                fields,
            }))),
            None => Ok(None),
        },
        _ => Ok(None),
    }
}

// The insert that names its entry point, in the order of its form or in that of the names.
fn entry_insert(
    alloc: Global,
    members: &[(&str, Tree<'_>)],
    names: &mut Names,
) -> Result<Option<Command>, NoMemory>
    ensures { IfOk result (λ found. IfSome found (λ c. word_command (codes "insert") (members_view members.now) ≡ Some c)) }
{
    let [first, second, third] = members else {
        return Ok(None);
    };
    if third.0 == "type" {
        entry_insert_of(alloc, third, first, second, names)
    } else {
        entry_insert_of(alloc, first, second, third, names)
    }
}

// The insert of these members, whether the type stands first or last.
fn entry_insert_of(
    alloc: Global,
    ty: &(&str, Tree<'_>),
    entry: &(&str, Tree<'_>),
    fields: &(&str, Tree<'_>),
    names: &mut Names,
) -> Result<Option<Command>, NoMemory>
    ensures written { IfOk result (λ found. IfSome found (λ c. word_command (codes "insert")
        (three ty.now.0.now (value_view ty.now.1) entry.now.0.now (value_view entry.now.1) fields.now.0.now (value_view fields.now.1)) ≡ Some c)) }
    ensures sorted { IfOk result (λ found. IfSome found (λ c. word_command (codes "insert")
        (three entry.now.0.now (value_view entry.now.1) fields.now.0.now (value_view fields.now.1) ty.now.0.now (value_view ty.now.1)) ≡ Some c)) }
{
    match (
        text_under(ty, "type"),
        text_under(entry, "entry"),
        members_under(fields, "fields"),
    ) {
        (Some(ty), Some(entry), Some(parts)) => match fields_in(alloc, parts, names)? {
            Some(fields) => Ok(Some(Command::Change(Change::Insert {
                ty: names.name(alloc, ty)?,
                entry: Some(names.name(alloc, entry)?),
                fields,
            }))),
            None => Ok(None),
        },
        _ => Ok(None),
    }
}

// The modify that has these members behind its word, in the order of its form or in that of the names.
fn modify(
    alloc: Global,
    members: &[(&str, Tree<'_>)],
    names: &mut Names,
) -> Result<Option<Command>, NoMemory>
    ensures { IfOk result (λ found. IfSome found (λ c. word_command (codes "modify") (members_view members.now) ≡ Some c)) }
{
    let [first, second, third] = members else {
        return Ok(None);
    };
    if third.0 == "type" {
        modify_of(alloc, third, second, first, names)
    } else {
        modify_of(alloc, first, second, third, names)
    }
}

// The modify of these members, whether the type or the fields stand first.
fn modify_of(
    alloc: Global,
    ty: &(&str, Tree<'_>),
    id: &(&str, Tree<'_>),
    fields: &(&str, Tree<'_>),
    names: &mut Names,
) -> Result<Option<Command>, NoMemory>
    ensures written { IfOk result (λ found. IfSome found (λ c. word_command (codes "modify")
        (three ty.now.0.now (value_view ty.now.1) id.now.0.now (value_view id.now.1) fields.now.0.now (value_view fields.now.1)) ≡ Some c)) }
    ensures sorted { IfOk result (λ found. IfSome found (λ c. word_command (codes "modify")
        (three fields.now.0.now (value_view fields.now.1) id.now.0.now (value_view id.now.1) ty.now.0.now (value_view ty.now.1)) ≡ Some c)) }
{
    match (
        text_under(ty, "type"),
        id_under(id, "id"),
        members_under(fields, "fields"),
    ) {
        (Some(ty), Some(id), Some(parts)) => match fields_in(alloc, parts, names)? {
            Some(fields) => Ok(Some(Command::Change(Change::Modify {
                ty: names.name(alloc, ty)?,
                id,
                fields,
            }))),
            None => Ok(None),
        },
        _ => Ok(None),
    }
}

// The retract that has these members behind its word, in the order of its form or in that of the names.
fn retract(
    alloc: Global,
    members: &[(&str, Tree<'_>)],
    names: &mut Names,
) -> Result<Option<Command>, NoMemory>
    ensures { IfOk result (λ found. IfSome found (λ c. word_command (codes "retract") (members_view members.now) ≡ Some c)) }
{
    let [first, second] = members else {
        return Ok(None);
    };
    if second.0 == "type" {
        retract_of(alloc, second, first, names)
    } else {
        retract_of(alloc, first, second, names)
    }
}

// The retract of these members, whichever stands first.
fn retract_of(
    alloc: Global,
    ty: &(&str, Tree<'_>),
    id: &(&str, Tree<'_>),
    names: &mut Names,
) -> Result<Option<Command>, NoMemory>
    ensures written { IfOk result (λ found. IfSome found (λ c.
        word_command (codes "retract") (two ty.now.0.now (value_view ty.now.1) id.now.0.now (value_view id.now.1)) ≡ Some c)) }
    ensures sorted { IfOk result (λ found. IfSome found (λ c.
        word_command (codes "retract") (two id.now.0.now (value_view id.now.1) ty.now.0.now (value_view ty.now.1)) ≡ Some c)) }
{
    match (text_under(ty, "type"), id_under(id, "id")) {
        (Some(ty), Some(id)) => Ok(Some(Command::Change(Change::Retract {
            ty: names.name(alloc, ty)?,
            id,
        }))),
        _ => Ok(None),
    }
}

// The promise that has these members behind its word.
fn promise(
    alloc: Global,
    members: &[(&str, Tree<'_>)],
    names: &mut Names,
) -> Result<Option<Command>, NoMemory>
    ensures { IfOk result (λ found. IfSome found (λ c. word_command (codes "promise") (members_view members.now) ≡ Some c)) }
{
    match members {
        [_] => Ok(plain_promise(members)),
        [_, _] => entry_promise(alloc, members, names),
        _ => Ok(None),
    }
}

// The promise that names no entry point.
fn plain_promise(members: &[(&str, Tree<'_>)]) -> Option<Command>
    ensures { IfSome result (λ c. word_command (codes "promise") (members_view members.now) ≡ Some c) }
{
    let [moment] = members else {
        return None;
    };
    let from = whole_under(moment, "from")?;
    Some(Command::Change(Change::Promise { entry: None, from }))
}

// The promise that names its entry point.
fn entry_promise(
    alloc: Global,
    members: &[(&str, Tree<'_>)],
    names: &mut Names,
) -> Result<Option<Command>, NoMemory>
    ensures { IfOk result (λ found. IfSome found (λ c. word_command (codes "promise") (members_view members.now) ≡ Some c)) }
{
    let [entry, moment] = members else {
        return Ok(None);
    };
    match (text_under(entry, "entry"), whole_under(moment, "from")) {
        (Some(entry), Some(from)) => Ok(Some(Command::Change(Change::Promise {
            entry: Some(names.name(alloc, entry)?),
            from,
        }))),
        _ => Ok(None),
    }
}

// The request to fire until nothing is pending, where no member stands behind its word.
fn fire(members: &[(&str, Tree<'_>)]) -> Option<Command>
    ensures { IfSome result (λ c. word_command (codes "fire") (members_view members.now) ≡ Some c) }
{
    if members.is_empty() {
        Some(Command::Fire(None))
    } else {
        None
    }
}

// The move of the clock to a moment that has these members behind its word.
fn at(members: &[(&str, Tree<'_>)]) -> Option<Command>
    ensures { IfSome result (λ c. word_command (codes "at") (members_view members.now) ≡ Some c) }
{
    let [moment] = members else {
        return None;
    };
    Some(Command::Change(Change::At(whole_under(moment, "ms")?)))
}

// The move of the clock by a time that has these members behind its word.
fn advance(members: &[(&str, Tree<'_>)]) -> Option<Command>
    ensures { IfSome result (λ c. word_command (codes "advance") (members_view members.now) ≡ Some c) }
{
    let [time] = members else {
        return None;
    };
    Some(Command::Change(Change::Advance(whole_under(time, "by")?)))
}

// The command of an object with these members, where they stand in the order of its form.
fn form_in(
    alloc: Global,
    members: &[(&str, Tree<'_>)],
    names: &mut Names,
) -> Result<Option<Command>, NoMemory>
    ensures { IfOk result (λ found. IfSome found (λ c. tree_command (object (members_view members.now)) ≡ Some c)) }
{
    let [first, rest @ ..] = members else {
        return Ok(None);
    };
    let Some(word) = text_under(first, "do") else {
        return Ok(None);
    };
    match word {
        "insert" => insert(alloc, rest, names),
        "modify" => modify(alloc, rest, names),
        "retract" => retract(alloc, rest, names),
        "promise" => promise(alloc, rest, names),
        "fire" => Ok(fire(rest)),
        "at" => Ok(at(rest)),
        "advance" => Ok(advance(rest)),
        _ => Ok(None),
    }
}

// The command of a line that is an object without arrays, whose members stand in the order of its form.
fn flat_command(
    alloc: Global,
    line: &[u8],
    scratch: &mut Scratch,
) -> Result<Option<Command>, NoMemory>
    ensures { IfOk result (λ found. IfSome found (λ c. asked line.now ≡ asks c)) }
{
    let Ok(text) = from_utf8(line) else {
        return Ok(None);
    };
    let Some(tree) = tree_of(alloc, text, &mut scratch.places)? else {
        return Ok(None);
    };
    match &tree {
        Tree::Object(members) => form_in(alloc, members.as_slice(), &mut scratch.names),
        _ => Ok(None),
    }
}

/// The command that a line asks for, as `command` finds it, with memory that is kept from line to line. A line is read in less
/// time where its members stand in the order of its form, or in that of their names behind its word, and no value is an array.
pub fn command_with(
    alloc: Global,
    line: &[u8],
    scratch: &mut Scratch,
) -> Result<Command, CommandFault>
    ensures asked { AnswersLine (asked line.now) result }

    // The same by the forms.
    ensures ok { IfOk result (λ c. (d : Data) × IsLineReading line.now d × IsForm d c) }
    ensures bad_json { IsErrOf result CommandFault.BadJson → (d : Data) → ¬ IsLineReading line.now d }
    ensures bad_command { IsErrOf result CommandFault.BadCommand
        → (d : Data) × IsLineReading line.now d × ((c : Command) → ¬ IsForm d c) }
{
    match flat_command(alloc, line, scratch)? {
        Some(found) => Ok(found),
        None => command(alloc, line),
    }
}
