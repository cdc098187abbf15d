ghost use Rattle.std.specs.Prelude.{◌≡◌, IfOk};
ghost use Rattle.serde_json.specs.View.{view, members_view};
ghost use Rattle.script_read.specs.Given.{given_of, givens};

use fx_base::{NoMemory, Seq, Text};
use serde_json::{Map, Value};
use std::alloc::Global;

/// What a line gives for a field.
#[derive(Debug, PartialEq, Drop)]
pub enum Given {
    /// A number of JSON that is a whole number of 64 bits with sign.
    Int(i64),
    Bool(bool),
    Text(Text),
    /// Any other number, `null`, an array or an object.
    Other,
}

#[tactic(auto, unfolding(crate::specs::Given::given_of))]
fn value_given(alloc: Global, value: &Value) -> Result<Given, NoMemory>
    ensures { IfOk result (λ found. found ≡ given_of (view value.now)) }
{
    if let Some(number) = value.as_i64() {
        return Ok(Given::Int(number));
    }
    if let Some(text) = value.as_str() {
        return Ok(Given::Text(Text::new(alloc, text)?));
    }
    match value.as_bool() {
        Some(flag) => Ok(Given::Bool(flag)),
        None => Ok(Given::Other),
    }
}

// What is given under each name, in the byte order of the names.
pub fn fields_of(
    alloc: Global,
    members: &Map<String, Value>,
) -> Result<Seq<(Text, Given)>, NoMemory>
    ensures { IfOk result (λ fields. fields ≡ givens (members_view members.now.entries)) }
{
    let mut fields = Vec::with_capacity(alloc, members.len())?;
    for (name, value) in members {
        let name = Text::new(alloc, name.as_str())?;
        fields.push((name, value_given(alloc, value)?))?;
    }
    Ok(Seq::from_vec(fields))
}
