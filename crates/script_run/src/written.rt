//! What a run prints, by the form of its answers.
ghost use Rattle.std.specs.Prelude.{◌≡◌, ◌++◌, ◌||◌, IfOk, OnOk, option_map};
ghost use Rattle.rule_model.specs.Lent.{lent};
ghost use Rattle.script_run.specs.Texts.{has_fault, is_fault};
ghost use Rattle.script_run.specs.Written.{kept_by, written_counts, written_done, written_fault, written_kept, written_limit};
ghost use Rattle.script_run.specs.Written.{written_line, written_lines, written_met, written_saved};

use crate::fault::LineCode;
use crate::form::Form;
use crate::text;
use answer_json::Counted;
use engine::OutLine;
use fx_base::{Fact, NoMemory};
use rule_model::Program;
use std::alloc::Global;

// Appends a line of an engine.
fn push_line(
    text: &mut Vec<u8>,
    alloc: Global,
    form: &Form,
    program: &Program,
    number: u64,
    line: &OutLine,
) -> Result<(), NoMemory>
    ensures { OnOk result (text.new.items ≡ text.old.items ++ written_line form.now program.now number line.now) }
{
    match form {
        Form::Text => text::push_line(text, program, number, line),
        Form::Objects(names) => {
            answer_json::push_line(text, alloc, program, names.as_slice(), number, line)
        }
    }
}

fn is_faulty(line: &OutLine) -> bool
    ensures { result ≡ is_fault line.now }
{
    matches!(line, OutLine::Fault(_))
}

/// Appends lines of an engine, and answers whether one of them is a fault.
pub(crate) fn push_lines(
    text: &mut Vec<u8>,
    alloc: Global,
    form: &Form,
    program: &Program,
    number: u64,
    lines: &[OutLine],
) -> Result<bool, NoMemory>
    ensures text { OnOk result (text.new.items ≡ text.old.items ++ written_lines form.now program.now number lines.now) }
    ensures fault { IfOk result (λ faulty. faulty ≡ has_fault lines.now) }
{
    let mut faulty = false;
    for line in lines {
        push_line(text, alloc, form, program, number, line)?;
        let bad = is_faulty(line);
        faulty = faulty || bad;
    }
    Ok(faulty)
}

/// Appends what is said of a faulty line of the script.
pub(crate) fn push_fault(
    text: &mut Vec<u8>,
    alloc: Global,
    form: &Form,
    number: u64,
    code: LineCode,
) -> Result<(), NoMemory>
    ensures { OnOk result (text.new.items ≡ text.old.items ++ written_fault form.now number code) }
{
    match form {
        Form::Text => text::push_fault(text, number, code),
        Form::Objects(_) => answer_json::push_fault(text, alloc, number, code.name()),
    }
}

/// Appends what is said of the limit of all firings, met in the line of this number.
pub(crate) fn push_limit(
    text: &mut Vec<u8>,
    alloc: Global,
    form: &Form,
    number: u64,
    limit: u64,
) -> Result<(), NoMemory>
    ensures { OnOk result (text.new.items ≡ text.old.items ++ written_limit form.now number limit) }
{
    match form {
        Form::Text => text::push_limit(text, limit),
        Form::Objects(_) => answer_json::push_limit(text, alloc, number, limit),
    }
}

/// Appends what is said of the limit for each fire command, met in the line of this number.
pub(crate) fn push_met(
    text: &mut Vec<u8>,
    alloc: Global,
    form: &Form,
    number: u64,
    each: u64,
) -> Result<(), NoMemory>
    ensures { OnOk result (text.new.items ≡ text.old.items ++ written_met form.now number each) }
{
    match form {
        Form::Text => text::push_met(text, number, each),
        Form::Objects(_) => answer_json::push_limit(text, alloc, number, each),
    }
}

/// Appends that the image for which the line of this number asks is in its file.
pub(crate) fn push_saved(
    text: &mut Vec<u8>,
    alloc: Global,
    form: &Form,
    number: u64,
) -> Result<(), NoMemory>
    ensures { OnOk result (text.new.items ≡ text.old.items ++ written_saved form.now number) }
{
    match form {
        Form::Text => text::push_saved(text, number),
        Form::Objects(_) => answer_json::push_saved(text, alloc, number),
    }
}

/// Appends what is said of a fact that is kept.
pub(crate) fn push_fact(
    text: &mut Vec<u8>,
    alloc: Global,
    form: &Form,
    program: &Program,
    number: u64,
    fact: &Fact,
) -> Result<(), NoMemory>
    ensures { OnOk result (text.new.items ≡ text.old.items ++ kept_by form.now program.now number fact.now) }
{
    match form {
        Form::Text => text::push_fact(text, program, fact),
        Form::Objects(_) => answer_json::push_kept(text, alloc, program, number, fact),
    }
}

/// Appends the kept facts for which the line of this number asks.
pub(crate) fn push_kept(
    text: &mut Vec<u8>,
    alloc: Global,
    form: &Form,
    program: &Program,
    number: u64,
    facts: &[&Fact],
) -> Result<(), NoMemory>
    ensures { OnOk result (text.new.items ≡ text.old.items ++ written_kept form.now program.now number (lent facts.now)) }
{
    for fact in facts {
        push_fact(text, alloc, form, program, number, fact)?;
    }
    Ok(())
}

/// Appends the counts for which the line of this number asks, where the form is of objects.
pub(crate) fn push_counts(
    text: &mut Vec<u8>,
    alloc: Global,
    form: &Form,
    program: &Program,
    number: u64,
    counted: &Counted,
) -> Result<(), NoMemory>
    ensures { OnOk result (text.new.items ≡ text.old.items ++ written_counts form.now program.now number counted.now) }
{
    match form {
        Form::Text => Ok(()),
        Form::Objects(_) => answer_json::push_counts(text, alloc, program, number, counted),
    }
}

/// Appends what closes the line of this number: of a fire command with its firings, and whether a match is pending behind it.
pub(crate) fn push_done(
    text: &mut Vec<u8>,
    alloc: Global,
    form: &Form,
    number: u64,
    fired: Option<(u64, bool)>,
) -> Result<(), NoMemory>
    ensures { OnOk result (text.new.items ≡ text.old.items ++ written_done form.now number fired) }
{
    match (form, fired) {
        (Form::Text, _) => text::push_done(text, number),
        (Form::Objects(_), None) => answer_json::push_done(text, alloc, number),
        (Form::Objects(_), Some((fired, pending))) => {
            answer_json::push_fired(text, alloc, number, fired, pending)
        }
    }
}
