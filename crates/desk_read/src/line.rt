ghost use Rattle.std.specs.Prelude.{◌≡◌, IfOk, codes};
ghost use Rattle.serde_json.specs.View.{view};
ghost use Rattle.script_read.specs.Members.{text_member as text_under};
ghost use Rattle.desk_read.specs.Questions.{save_of, facts_of, typed_parts, counts_of, question_in, question_of, TellsQuestion};

use crate::asked::Question;
use fx_base::{NoMemory, Text};
use script_read::{count, read_value, text_member};
use serde_json::Value;
use std::alloc::Global;

#[tactic(auto, unfolding(crate::specs::Questions::save_of))]
fn save(value: &Value) -> Option<Question>
    ensures { result ≡ save_of (view value.now) }
{
    match count(value)? {
        1 => Some(Question::Save),
        _ => None,
    }
}

#[tactic(auto, unfolding(crate::specs::Questions::facts_of))]
fn facts(alloc: Global, value: &Value) -> Result<Option<Question>, NoMemory>
    ensures { IfOk result (λ found. found ≡ facts_of (view value.now)) }
{
    match count(value) {
        Some(1) => Ok(Some(Question::Facts(None))),
        Some(2) => typed_facts(alloc, value),
        _ => Ok(None),
    }
}

// The question for the facts of one type.
fn typed_facts(alloc: Global, value: &Value) -> Result<Option<Question>, NoMemory>
    ensures { IfOk result (λ found. found ≡ typed_parts (text_under (codes "type") (view value.now))) }
{
    match text_member(value, "type") {
        Some(ty) => Ok(Some(Question::Facts(Some(Text::new(alloc, ty)?)))),
        None => Ok(None),
    }
}

#[tactic(auto, unfolding(crate::specs::Questions::counts_of))]
fn counts(value: &Value) -> Option<Question>
    ensures { result ≡ counts_of (view value.now) }
{
    match count(value)? {
        1 => Some(Question::Counts),
        _ => None,
    }
}

// The question whose form the value has.
#[tactic(auto, unfolding(crate::specs::Questions::question_in))]
fn form(alloc: Global, value: &Value) -> Result<Option<Question>, NoMemory>
    ensures { IfOk result (λ found. found ≡ question_in (view value.now)) }
{
    let Some(word) = text_member(value, "do") else {
        return Ok(None);
    };
    match word {
        "save" => Ok(save(value)),
        "facts" => facts(alloc, value),
        "counts" => Ok(counts(value)),
        _ => Ok(None),
    }
}

/// The question of a line, where it has one.
#[tactic(auto, unfolding(crate::specs::Questions::question_of))]
pub fn question(alloc: Global, line: &[u8]) -> Result<Option<Question>, NoMemory>
    ensures asked { IfOk result (λ q. q ≡ question_of line.now) }

    // The same by the forms.
    ensures form { IfOk result (λ q. TellsQuestion line.now q) }
{
    match read_value(alloc, line)? {
        Some(value) => form(alloc, &value),
        None => Ok(None),
    }
}
