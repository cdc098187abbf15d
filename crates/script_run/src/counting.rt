//! How many events of each type are kept, as a line of the script asks for it.
ghost use Rattle.std.specs.Prelude.{◌≡◌, ◌++◌, ◌∷◌, List, IfOk, OnOk};
ghost use Rattle.rule_model.specs.declared.program.TypeInfo.{TypeInfo as TypeData};
ghost use Rattle.rule_world.specs.Worlds.{World};
ghost use Rattle.script_run.specs.Texts.{held_line};
ghost use Rattle.script_run.specs.Written.{held_by, written_held};

use crate::form::Form;
use crate::text::push_number;
use engine::Engine;
use fx_base::NoMemory;
use rule_model::TypeInfo;
use std::alloc::Global;

// Appends the line of text of a type of this name.
fn push_text(text: &mut Vec<u8>, name: &str, number: u64) -> Result<(), NoMemory>
    ensures { OnOk result (text.new.items ≡ text.old.items ++ held_line name.now number) }
{
    text.extend_from_slice(b"held ")?;
    text.extend_from_slice(name.as_bytes())?;
    text.extend_from_slice(b" ")?;
    push_number(text, number)?;
    text.push(b'\n')?;
    Ok(())
}

// Appends what is said of a type of this name.
fn push_type(
    text: &mut Vec<u8>,
    alloc: Global,
    form: &Form,
    line: u64,
    name: &str,
    number: u64,
) -> Result<(), NoMemory>
    ensures { OnOk result (text.new.items ≡ text.old.items ++ held_by form.now line name.now number) }
{
    match form {
        Form::Text => push_text(text, name, number),
        Form::Objects(_) => answer_json::push_held(text, alloc, line, name, number),
    }
}

// Appends what is said of a type, where its facts are events and a number is left, and answers the numbers of the types behind it.
fn push_next<'a>(
    text: &mut Vec<u8>,
    alloc: Global,
    form: &Form,
    line: u64,
    ty: &TypeInfo,
    numbers: &'a [u64],
) -> Result<&'a [u64], NoMemory>
    ensures { IfOk result (λ rest. (types : List TypeData)
        → text.new.items ++ written_held form.now line types rest.now ≡ text.old.items ++ written_held form.now line (ty.now ∷ types) numbers.now) }
{
    if !ty.event {
        return Ok(numbers);
    }
    match numbers.split_first() {
        Some((number, rest)) => {
            push_type(text, alloc, form, line, ty.name.as_str(), *number)?;
            Ok(rest)
        }
        None => Ok(numbers),
    }
}

// Appends what is said of the event types among these.
fn push_numbers(
    text: &mut Vec<u8>,
    alloc: Global,
    form: &Form,
    line: u64,
    types: &[TypeInfo],
    numbers: &[u64],
) -> Result<(), NoMemory>
    ensures { OnOk result (text.new.items ≡ text.old.items ++ written_held form.now line types.now numbers.now) }
{
    let mut rest = numbers;
    for ty in types {
        rest = push_next(text, alloc, form, line, ty, rest)?;
    }
    Ok(())
}

/// Asks the engine how many events of each type are kept, and appends what is said of them to the line of the script of this number.
pub(crate) fn push_kept<E: Engine>(
    alloc: Global,
    engine: &E,
    form: &Form,
    line: u64,
    text: &mut Vec<u8>,
) -> Result<(), NoMemory>
    ensures { OnOk result ((w : World) → E.stands engine.now w → text.new.items
        ≡ text.old.items ++ written_held form.now line (E.made_with engine.now).types (E.counts (E.made_with engine.now) (E.table engine.now) w)) }
{
    let numbers = engine.held(alloc)?;
    let types = engine.program().types.as_slice();
    push_numbers(text, alloc, form, line, types, &numbers)
}
