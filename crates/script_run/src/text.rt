ghost use Rattle.std.specs.Prelude.{◌≡◌, ◌++◌, OnOk, slice_get};
ghost use Rattle.std.specs.Fmt.{decimal, signed_decimal};
ghost use Rattle.std.specs.List.{flat_map};
ghost use Rattle.script_run.specs.Texts.{type_name, rule_name, quoted_byte, cell_text, done_text, fact_text, fault_text, limit_text, met_text, line_text};
ghost use Rattle.script_run.specs.Texts.{named_text, new_text, saved_text};

use crate::fault::LineCode;
use engine::{Cell, OutLine};
use fx_base::{Fact, FactId, NoMemory, TypeId};
use itoa::Buffer;
use rule_model::{Program, Rule, TypeInfo};

fn name_of_type(types: &[TypeInfo], place: usize) -> &str
    ensures { result.now ≡ type_name (slice_get types.now place) }
{
    match types.get(place) {
        Some(ty) => ty.name.as_str(),
        None => "",
    }
}

/// The name of the rule in a place, or nothing where there is none.
pub fn name_of_rule(rules: &[Rule], place: usize) -> &str
    ensures { result.now ≡ rule_name (slice_get rules.now place) }
{
    match rules.get(place) {
        Some(rule) => rule.name.as_str(),
        None => "",
    }
}

/// Appends the bytes of a text between quotes: `\`, `"`, newline, tab and carriage return by their escapes.
pub fn push_quoted(text: &mut Vec<u8>, name: &[u8]) -> Result<(), NoMemory>
    ensures { OnOk result (text.new.items ≡ text.old.items ++ flat_map quoted_byte name.now) }
{
    for b in name {
        match *b {
            b'\\' => text.extend_from_slice(b"\\\\")?,
            b'"' => text.extend_from_slice(b"\\\"")?,
            b'\n' => text.extend_from_slice(b"\\n")?,
            b'\t' => text.extend_from_slice(b"\\t")?,
            b'\r' => text.extend_from_slice(b"\\r")?,
            other => text.push(other)?,
        }
    }
    Ok(())
}

/// Appends a number in decimal digits.
pub fn push_number(text: &mut Vec<u8>, number: u64) -> Result<(), NoMemory>
    ensures { OnOk result (text.new.items ≡ text.old.items ++ decimal number) }
{
    let mut digits = Buffer::new();
    text.extend_from_slice(digits.format(number).as_bytes())?;
    Ok(())
}

/// Appends a signed number in decimal digits.
pub fn push_signed(text: &mut Vec<u8>, number: i64) -> Result<(), NoMemory>
    ensures { OnOk result (text.new.items ≡ text.old.items ++ signed_decimal number) }
{
    let mut digits = Buffer::new();
    text.extend_from_slice(digits.format(number).as_bytes())?;
    Ok(())
}

fn push_cell(text: &mut Vec<u8>, cell: Cell) -> Result<(), NoMemory>
    ensures { OnOk result (text.new.items ≡ text.old.items ++ cell_text cell) }
{
    match cell {
        Cell::Fact(id) => {
            text.extend_from_slice(b" #")?;
            push_number(text, id.0)
        }
        Cell::Value(number) => {
            text.extend_from_slice(b" =")?;
            push_signed(text, number)
        }
    }
}

fn push_cells(text: &mut Vec<u8>, cells: &[Cell]) -> Result<(), NoMemory>
    ensures { OnOk result (text.new.items ≡ text.old.items ++ flat_map cell_text cells.now) }
{
    for cell in cells {
        push_cell(text, *cell)?;
    }
    Ok(())
}

// Appends the id of a fact and its type, which end a line.
fn push_named(text: &mut Vec<u8>, program: &Program, id: FactId, ty: TypeId) -> Result<(), NoMemory>
    ensures { OnOk result (text.new.items ≡ text.old.items ++ named_text program.now id ty) }
{
    push_number(text, id.0)?;
    text.extend_from_slice(b" ")?;
    let name = name_of_type(program.types.as_slice(), ty.0 as usize);
    text.extend_from_slice(name.as_bytes())?;
    text.push(b'\n')?;
    Ok(())
}

// Appends the line of a new fact.
fn push_new(text: &mut Vec<u8>, program: &Program, id: FactId, ty: TypeId) -> Result<(), NoMemory>
    ensures { OnOk result (text.new.items ≡ text.old.items ++ new_text program.now id ty) }
{
    text.extend_from_slice(b"new #")?;
    push_named(text, program, id, ty)
}

/// Appends the line of a fact that is kept.
pub(crate) fn push_fact(text: &mut Vec<u8>, program: &Program, fact: &Fact) -> Result<(), NoMemory>
    ensures { OnOk result (text.new.items ≡ text.old.items ++ fact_text program.now fact.now.id fact.now.ty) }
{
    text.extend_from_slice(b"fact #")?;
    push_named(text, program, fact.id, fact.ty)
}

/// Appends the line of an image that is in its file, as the line of the script with this number asks.
pub(crate) fn push_saved(text: &mut Vec<u8>, number: u64) -> Result<(), NoMemory>
    ensures { OnOk result (text.new.items ≡ text.old.items ++ saved_text number) }
{
    text.extend_from_slice(b"saved ")?;
    push_number(text, number)?;
    text.push(b'\n')?;
    Ok(())
}

/// Appends the line of a faulty line of the script.
pub(crate) fn push_fault(text: &mut Vec<u8>, number: u64, code: LineCode) -> Result<(), NoMemory>
    ensures { OnOk result (text.new.items ≡ text.old.items ++ fault_text number code) }
{
    text.extend_from_slice(b"fault ")?;
    push_number(text, number)?;
    text.extend_from_slice(b" ")?;
    text.extend_from_slice(code.name().as_bytes())?;
    text.push(b'\n')?;
    Ok(())
}

/// Appends the line of the limit of firings.
pub fn push_limit(text: &mut Vec<u8>, limit: u64) -> Result<(), NoMemory>
    ensures { OnOk result (text.new.items ≡ text.old.items ++ limit_text limit) }
{
    text.extend_from_slice(b"limit ")?;
    push_number(text, limit)?;
    text.push(b'\n')?;
    Ok(())
}

/// Appends the line of the limit for each fire command, of the line of the script with this number.
pub(crate) fn push_met(text: &mut Vec<u8>, number: u64, each: u64) -> Result<(), NoMemory>
    ensures { OnOk result (text.new.items ≡ text.old.items ++ met_text number each) }
{
    text.extend_from_slice(b"limit ")?;
    push_number(text, number)?;
    text.extend_from_slice(b" ")?;
    push_number(text, each)?;
    text.push(b'\n')?;
    Ok(())
}

/// Appends the line that closes a line of the script.
pub(crate) fn push_done(text: &mut Vec<u8>, number: u64) -> Result<(), NoMemory>
    ensures { OnOk result (text.new.items ≡ text.old.items ++ done_text number) }
{
    text.extend_from_slice(b"done ")?;
    push_number(text, number)?;
    text.push(b'\n')?;
    Ok(())
}

/// Appends the line of text of a line of an engine.
#[tactic(auto, unfolding(crate::specs::Texts::line_text))]
pub(crate) fn push_line(
    text: &mut Vec<u8>,
    program: &Program,
    number: u64,
    line: &OutLine,
) -> Result<(), NoMemory>
    ensures { OnOk result (text.new.items ≡ text.old.items ++ line_text program.now number line.now) }
{
    match line {
        OutLine::New { id, ty } => push_new(text, program, *id, *ty),
        OutLine::Fire { rule, cells } => {
            text.extend_from_slice(b"fire \"")?;
            let name = name_of_rule(program.rules.as_slice(), rule.0 as usize);
            push_quoted(text, name.as_bytes())?;
            text.extend_from_slice(b"\"")?;
            push_cells(text, cells.as_slice())?;
            text.push(b'\n')?;
            Ok(())
        }
        OutLine::Fault(code) => push_fault(text, number, LineCode::Refused(*code)),
        OutLine::Inserted(fact) => push_new(text, program, fact.id, fact.ty),
        OutLine::Modified(_) | OutLine::Retracted { .. } | OutLine::FiredFor { .. } => Ok(()),
    }
}
