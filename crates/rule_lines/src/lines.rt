ghost use Rattle.std.specs.Prelude.{◌≡◌, ◌≤◌, ◌++◌, false, IfOk, OnOk};
ghost use Rattle.answer_json.specs.Objects.{json_line};
ghost use Rattle.change_rules.specs.Told.{told_list, told_rule};
ghost use Rattle.rule_lines.specs.Told.{status_word, told_data, told_line, told_lines, told_text};
ghost use Rattle.serde_json.specs.View.{view};
ghost use Rattle.serde_json.specs.Written.{has_float};

use change_rules::ToldRule;
use fx_base::NoMemory;
use rule_change::RuleStatus;
use script_run::push_quoted;
use serde_json::{Value as Json, json};
use std::alloc::Global;

fn word_of(status: RuleStatus) -> &'static str
    ensures { result.now ≡ status_word status }
{
    match status {
        RuleStatus::Stays => "stays",
        RuleStatus::New => "new",
        RuleStatus::Gone => "gone",
    }
}

// Appends the line of text of a rule.
fn push_text(out: &mut Vec<u8>, told: &ToldRule) -> Result<(), NoMemory>
    ensures { OnOk result (out.new.items ≡ out.old.items ++ told_text (told_rule told.now)) }
{
    out.extend_from_slice(b"rule \"")?;
    push_quoted(out, told.name.as_str().as_bytes())?;
    out.extend_from_slice(b"\" ")?;
    out.extend_from_slice(word_of(told.status).as_bytes())?;
    out.push(b'\n')?;
    Ok(())
}

fn value_of(alloc: Global, told: &ToldRule) -> Result<Json, NoMemory>
    ensures { IfOk result (λ v. view v ≡ told_data (told_rule told.now)) }
{
    Ok(json!(in alloc; {"change": word_of(told.status), "rule": told.name.as_str()})?)
}

// Appends a value, in which there is no floating-point number, on a line of its own.
fn push_value(out: &mut Vec<u8>, alloc: Global, value: &Json) -> Result<(), NoMemory>
    requires { has_float (view value.now) ≡ false }
    ensures { OnOk result (out.new.items ≡ out.old.items ++ json_line (view value.now)) }
{
    let line = value.to_string(alloc)?;
    out.extend_from_slice(line.as_bytes())?;
    out.push(b'\n')?;
    Ok(())
}

// Appends the line of a rule in one of the forms.
fn push_line(out: &mut Vec<u8>, alloc: Global, told: &ToldRule, text: bool) -> Result<(), NoMemory>
    ensures { OnOk result (out.new.items ≡ out.old.items ++ told_line text (told_rule told.now)) }
{
    match text {
        true => push_text(out, told),
        false => push_value(out, alloc, &value_of(alloc, told)?),
    }
}

/// Appends the lines of what is told of rules: as text, `rule "NAME" stays`, or as objects, `{"change":"stays","rule":"NAME"}`; the words are `stays`,
/// `new` and `gone`.
pub fn push_told(
    out: &mut Vec<u8>,
    alloc: Global,
    told: &[ToldRule],
    text: bool,
) -> Result<(), NoMemory>
    ensures { OnOk result (out.new.items ≡ out.old.items ++ told_lines text (told_list told.now)) }
{
    for rule in told {
        push_line(out, alloc, rule, text)?;
    }
    Ok(())
}
