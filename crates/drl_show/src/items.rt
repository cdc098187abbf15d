ghost use Rattle.std.specs.Prelude.{◌≡◌, OnOk};
ghost use Rattle.drl_show.specs.Canonical.{annotation_tokens, bare_annotation_tokens, entry_tokens, lateness_tokens, maybe, parent_tokens, role_word_shown, span_annotation_tokens, star_tokens};
ghost use Rattle.drl_show.specs.Texts.{added};

use crate::shapes::{Printed, write_each};
use crate::tokens::{mark, number, text, word};
use drl_grammar::{Attr, Meta, WrittenRule, WrittenType};
use drl_lex::Mark;
use fx_base::{NoMemory, Text};

/// A name, as a word.
impl Printed for Text {
    ghost use Rattle.drl_show.specs.Canonical.{name_tokens};

    ghost tokens = { name_tokens };

    fn write(&self, out: &mut Vec<u8>) -> Result<(), NoMemory> {
        word(out, self.as_str())
    }
}

fn role(event: bool) -> &'static str
    ensures { result.now ≡ role_word_shown event }
{
    if event { "event" } else { "fact" }
}

// An annotation without parentheses.
fn bare_annotation(out: &mut Vec<u8>, name: &str) -> Result<(), NoMemory>
    ensures { OnOk result (out.new.items ≡ added out.old.items (bare_annotation_tokens name.now)) }
{
    mark(out, Mark::At)?;
    word(out, name)
}

// An annotation with a word in its parentheses.
fn annotation(out: &mut Vec<u8>, name: &str, content: &str) -> Result<(), NoMemory>
    ensures { OnOk result (out.new.items ≡ added out.old.items (annotation_tokens name.now content.now)) }
{
    mark(out, Mark::At)?;
    word(out, name)?;
    mark(out, Mark::OpenParenthesis)?;
    word(out, content)?;
    mark(out, Mark::CloseParenthesis)
}

// An annotation with a span in its parentheses, in milliseconds.
#[tactic(auto, using(crate::proofs::Added::added_append))]
fn span_annotation(out: &mut Vec<u8>, name: &str, span: i64) -> Result<(), NoMemory>
    ensures { OnOk result (out.new.items ≡ added out.old.items (span_annotation_tokens name.now span)) }
{
    mark(out, Mark::At)?;
    word(out, name)?;
    mark(out, Mark::OpenParenthesis)?;
    number(out, span)?;
    mark(out, Mark::CloseParenthesis)
}

impl Printed for Meta {
    ghost use Rattle.drl_show.specs.Canonical.{meta_tokens};

    ghost tokens = { meta_tokens };

    fn write(&self, out: &mut Vec<u8>) -> Result<(), NoMemory> {
        match self {
            Meta::Role(event) => annotation(out, "role", role(*event)),
            Meta::Timestamp(field) => annotation(out, "timestamp", field.as_str()),
            Meta::Duration(field) => annotation(out, "duration", field.as_str()),
            Meta::Expires(ms) => span_annotation(out, "expires", *ms),
            Meta::Reference => bare_annotation(out, "reference"),
        }
    }
}

/// A field and the word of its kind.
impl Printed for (Text, Text) {
    ghost use Rattle.drl_show.specs.Canonical.{field_tokens};

    ghost tokens = { field_tokens };

    fn write(&self, out: &mut Vec<u8>) -> Result<(), NoMemory> {
        word(out, self.0.as_str())?;
        mark(out, Mark::Colon)?;
        word(out, self.1.as_str())
    }
}

// The type that a type extends.
fn parent(out: &mut Vec<u8>, extended: &Option<Text>) -> Result<(), NoMemory>
    ensures { OnOk result (out.new.items ≡ added out.old.items (maybe parent_tokens extended.now)) }
{
    match extended {
        None => Ok(()),
        Some(name) => {
            word(out, "extends")?;
            word(out, name.as_str())
        }
    }
}

impl Printed for WrittenType {
    ghost use Rattle.drl_show.specs.Canonical.{type_tokens};

    ghost tokens = { type_tokens };

    #[tactic(auto, using(crate::proofs::Added::added_append), unfolding(crate::specs::Canonical::type_tokens))]
    fn write(&self, out: &mut Vec<u8>) -> Result<(), NoMemory> {
        word(out, self.name.as_str())?;
        parent(out, &self.parent)?;
        write_each(out, self.metas.as_slice())?;
        write_each(out, self.fields.as_slice())?;
        word(out, "end")
    }
}

fn lateness(out: &mut Vec<u8>, late: &Option<i64>) -> Result<(), NoMemory>
    ensures { OnOk result (out.new.items ≡ added out.old.items (maybe lateness_tokens late.now)) }
{
    match late {
        None => Ok(()),
        Some(ms) => span_annotation(out, "lateness", *ms),
    }
}

/// Appends an entry point behind the word `declare`.
#[tactic(auto, using(crate::proofs::Added::added_append), unfolding(crate::specs::Canonical::entry_tokens))]
pub(crate) fn entry(out: &mut Vec<u8>, name: &Text, late: &Option<i64>) -> Result<(), NoMemory>
    ensures { OnOk result (out.new.items ≡ added out.old.items (entry_tokens name.now late.now)) }
{
    word(out, "entry")?;
    mark(out, Mark::Minus)?;
    word(out, "point")?;
    text(out, name.as_str())?;
    lateness(out, late)?;
    word(out, "end")
}

/// Appends what stands behind the parts of an import.
pub(crate) fn star(out: &mut Vec<u8>, all: bool) -> Result<(), NoMemory>
    ensures { OnOk result (out.new.items ≡ added out.old.items (star_tokens all)) }
{
    if !all {
        return Ok(());
    }
    mark(out, Mark::Dot)?;
    mark(out, Mark::Star)
}

impl Printed for Attr {
    ghost use Rattle.drl_show.specs.Canonical.{attr_tokens};

    ghost tokens = { attr_tokens };

    fn write(&self, out: &mut Vec<u8>) -> Result<(), NoMemory> {
        match self {
            Attr::Salience(salience) => {
                word(out, "salience")?;
                number(out, *salience)
            }
            Attr::Dialect(dialect) => {
                word(out, "dialect")?;
                text(out, dialect.as_str())
            }
        }
    }
}

impl Printed for WrittenRule {
    ghost use Rattle.drl_show.specs.Canonical.{rule_tokens};

    ghost tokens = { rule_tokens };

    #[tactic(auto, using(crate::proofs::Added::added_append), unfolding(crate::specs::Canonical::rule_tokens))]
    fn write(&self, out: &mut Vec<u8>) -> Result<(), NoMemory> {
        text(out, self.name.as_str())?;
        write_each(out, self.attrs.as_slice())?;
        word(out, "when")?;
        write_each(out, self.pieces.as_slice())?;
        word(out, "then")?;
        write_each(out, self.actions.as_slice())?;
        word(out, "end")
    }
}
