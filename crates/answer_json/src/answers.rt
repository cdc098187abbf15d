ghost use Rattle.std.specs.Prelude.{◌≡◌, ◌++◌, IfOk, OnOk};
ghost use Rattle.serde_json.specs.View.{view};
ghost use Rattle.answer_json.specs.Objects.{json_line, ReadsBack};
ghost use Rattle.answer_json.specs.Answers.{fault_data, held_data, limit_data, saved_data, kept_data, done_data, fired_data};

use crate::facts::fact_of;
use crate::writing::push_value;
use fx_base::{Fact, NoMemory};
use rule_model::Program;
use serde_json::{Value as Json, json};
use std::alloc::Global;

/// A fault by the name of its code, as a value.
pub(crate) fn fault_of(alloc: Global, number: u64, code: &str) -> Result<Json, NoMemory>
    ensures { IfOk result (λ v. view v ≡ fault_data number code.now) }
{
    Ok(json!(in alloc; {"fault": code, "line": number})?)
}

fn held_of(alloc: Global, number: u64, name: &str, count: u64) -> Result<Json, NoMemory>
    ensures { IfOk result (λ v. view v ≡ held_data number name.now count) }
{
    Ok(json!(in alloc; {"count": count, "held": name, "line": number})?)
}

fn limit_of(alloc: Global, number: u64, each: u64) -> Result<Json, NoMemory>
    ensures { IfOk result (λ v. view v ≡ limit_data number each) }
{
    Ok(json!(in alloc; {"limit": each, "line": number})?)
}

fn saved_of(alloc: Global, number: u64) -> Result<Json, NoMemory>
    ensures { IfOk result (λ v. view v ≡ saved_data number) }
{
    Ok(json!(in alloc; {"line": number, "saved": true})?)
}

fn done_of(alloc: Global, number: u64) -> Result<Json, NoMemory>
    ensures { IfOk result (λ v. view v ≡ done_data number) }
{
    Ok(json!(in alloc; {"done": number})?)
}

fn fired_of(alloc: Global, number: u64, fired: u64, pending: bool) -> Result<Json, NoMemory>
    ensures { IfOk result (λ v. view v ≡ fired_data number fired pending) }
{
    Ok(json!(in alloc; {"done": number, "fired": fired, "pending": pending})?)
}

/// Appends that the line of this number was faulty, by the name of the code.
pub fn push_fault(
    text: &mut Vec<u8>,
    alloc: Global,
    number: u64,
    code: &str,
) -> Result<(), NoMemory>
    ensures text { OnOk result (text.new.items ≡ text.old.items ++ json_line (fault_data number code.now)) }
    ensures reads_back { OnOk result (ReadsBack (fault_data number code.now)) }
{
    push_value(text, alloc, &fault_of(alloc, number, code)?)
}

/// Appends how many events of the type of this name are kept.
pub fn push_held(
    text: &mut Vec<u8>,
    alloc: Global,
    number: u64,
    name: &str,
    count: u64,
) -> Result<(), NoMemory>
    ensures text { OnOk result (text.new.items ≡ text.old.items ++ json_line (held_data number name.now count)) }
    ensures reads_back { OnOk result (ReadsBack (held_data number name.now count)) }
{
    push_value(text, alloc, &held_of(alloc, number, name, count)?)
}

/// Appends that the limit for each fire command ended the line of this number.
pub fn push_limit(text: &mut Vec<u8>, alloc: Global, number: u64, each: u64) -> Result<(), NoMemory>
    ensures text { OnOk result (text.new.items ≡ text.old.items ++ json_line (limit_data number each)) }
    ensures reads_back { OnOk result (ReadsBack (limit_data number each)) }
{
    push_value(text, alloc, &limit_of(alloc, number, each)?)
}

/// Appends that the image for which the line of this number asks is in its file.
pub fn push_saved(text: &mut Vec<u8>, alloc: Global, number: u64) -> Result<(), NoMemory>
    ensures text { OnOk result (text.new.items ≡ text.old.items ++ json_line (saved_data number)) }
    ensures reads_back { OnOk result (ReadsBack (saved_data number)) }
{
    push_value(text, alloc, &saved_of(alloc, number)?)
}

/// Appends a fact that is kept.
pub fn push_kept(
    text: &mut Vec<u8>,
    alloc: Global,
    program: &Program,
    number: u64,
    fact: &Fact,
) -> Result<(), NoMemory>
    ensures text { OnOk result (text.new.items ≡ text.old.items ++ json_line (kept_data program.now number fact.now)) }
    ensures reads_back { OnOk result (ReadsBack (kept_data program.now number fact.now)) }
{
    let value = fact_of(alloc, program, number, "fact", fact)?;
    push_value(text, alloc, &value)
}

/// Appends what closes the line of this number.
pub fn push_done(text: &mut Vec<u8>, alloc: Global, number: u64) -> Result<(), NoMemory>
    ensures text { OnOk result (text.new.items ≡ text.old.items ++ json_line (done_data number)) }
    ensures reads_back { OnOk result (ReadsBack (done_data number)) }
{
    push_value(text, alloc, &done_of(alloc, number)?)
}

/// Appends what closes the line of a fire command: how many firings it made, and whether a match is pending still.
pub fn push_fired(
    text: &mut Vec<u8>,
    alloc: Global,
    number: u64,
    fired: u64,
    pending: bool,
) -> Result<(), NoMemory>
    ensures text { OnOk result (text.new.items ≡ text.old.items ++ json_line (fired_data number fired pending)) }
    ensures reads_back { OnOk result (ReadsBack (fired_data number fired pending)) }
{
    push_value(text, alloc, &fired_of(alloc, number, fired, pending)?)
}
