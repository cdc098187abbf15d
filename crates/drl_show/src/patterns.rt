ghost use Rattle.std.specs.Prelude.{◌≡◌, OnOk};
ghost use Rattle.drl_grammar.specs.Conditions.{op_text};
ghost use Rattle.drl_show.specs.Canonical.{param_tokens, binding_tokens, place_tokens, counted_window, maybe};
ghost use Rattle.drl_show.specs.Texts.{added};

use crate::shapes::{Printed, write_listed, write_maybe, write_parted};
use crate::tokens::{mark, number, text, variable, word};
use drl_grammar::{Cmp, Part, SourceTree, WindowTree};
use drl_lex::Mark;
use fx_base::{NoMemory, Seq, Text};
use temporal_ops::OpWord;

impl Printed for Cmp {
    ghost use Rattle.drl_show.specs.Canonical.{cmp_tokens};

    ghost tokens = { cmp_tokens };

    fn write(&self, out: &mut Vec<u8>) -> Result<(), NoMemory> {
        match self {
            Cmp::Rel {
                field,
                rel,
                operand,
            } => {
                word(out, field.as_str())?;
                mark(out, Mark::Comparison(*rel))?;
                operand.write(out)
            }
            Cmp::OneOf { field, operands } => {
                word(out, field.as_str())?;
                word(out, "in")?;
                mark(out, Mark::OpenParenthesis)?;
                write_listed(out, operands.as_slice())
            }
        }
    }
}

impl Printed for Seq<Cmp> {
    ghost use Rattle.drl_show.specs.Canonical.{conj_tokens};

    ghost tokens = { conj_tokens };

    fn write(&self, out: &mut Vec<u8>) -> Result<(), NoMemory> {
        write_parted(out, Mark::And, self.as_slice())
    }
}

fn op_word(op: OpWord) -> &'static str
    ensures { result.now ≡ op_text op }
{
    match op {
        OpWord::After => "after",
        OpWord::Before => "before",
        OpWord::Coincides => "coincides",
        OpWord::During => "during",
        OpWord::Includes => "includes",
        OpWord::Finishes => "finishes",
        OpWord::FinishedBy => "finishedby",
        OpWord::Starts => "starts",
        OpWord::StartedBy => "startedby",
        OpWord::Meets => "meets",
        OpWord::MetBy => "metby",
        OpWord::Overlaps => "overlaps",
        OpWord::OverlappedBy => "overlappedby",
    }
}

// Parameters in brackets, where there are any.
#[tactic(auto, using(crate::proofs::Added::params_end))]
fn params(out: &mut Vec<u8>, params: &[i64]) -> Result<(), NoMemory>
    ensures { OnOk result (out.new.items ≡ added out.old.items (param_tokens params.now)) }
{
    if params.is_empty() {
        return Ok(());
    }
    mark(out, Mark::OpenBracket)?;
    write_parted(out, Mark::Comma, params)?;
    mark(out, Mark::CloseBracket)
}

impl Printed for Part {
    ghost use Rattle.drl_show.specs.Canonical.{part_tokens};

    ghost tokens = { part_tokens };

    #[tactic(auto, using(crate::proofs::Added::added_append))]
    fn write(&self, out: &mut Vec<u8>) -> Result<(), NoMemory> {
        match self {
            Part::Bind { var, field } => {
                variable(out, var.as_str())?;
                mark(out, Mark::Colon)?;
                word(out, field.as_str())
            }
            Part::Temporal {
                op,
                params: values,
                other,
            } => {
                word(out, "this")?;
                word(out, op_word(*op))?;
                params(out, values.as_slice())?;
                variable(out, other.as_str())
            }
            Part::AnyOf(groups) => write_parted(out, Mark::Or, groups.as_slice()),
        }
    }
}

// A window, with the word for what it counts.
#[tactic(auto, using(crate::proofs::Added::added_append))]
fn window(out: &mut Vec<u8>, counted: &str, measure: &i64) -> Result<(), NoMemory>
    ensures { OnOk result (out.new.items ≡ added out.old.items (counted_window counted.now measure.now)) }
{
    word(out, "over")?;
    word(out, "window")?;
    mark(out, Mark::Colon)?;
    word(out, counted)?;
    mark(out, Mark::OpenParenthesis)?;
    number(out, *measure)?;
    mark(out, Mark::CloseParenthesis)
}

impl Printed for WindowTree {
    ghost use Rattle.drl_show.specs.Canonical.{window_tokens};

    ghost tokens = { window_tokens };

    fn write(&self, out: &mut Vec<u8>) -> Result<(), NoMemory> {
        match self {
            WindowTree::Time(ms) => window(out, "time", ms),
            WindowTree::Length(count) => window(out, "length", count),
        }
    }
}

fn place(out: &mut Vec<u8>, entry: &Option<Text>) -> Result<(), NoMemory>
    ensures { OnOk result (out.new.items ≡ added out.old.items (maybe place_tokens entry.now)) }
{
    match entry {
        None => Ok(()),
        Some(name) => {
            word(out, "from")?;
            word(out, "entry")?;
            mark(out, Mark::Minus)?;
            word(out, "point")?;
            text(out, name.as_str())
        }
    }
}

/// Appends a variable and a colon, where there is one.
pub(crate) fn binding(out: &mut Vec<u8>, var: &Option<Text>) -> Result<(), NoMemory>
    ensures { OnOk result (out.new.items ≡ added out.old.items (binding_tokens var.now)) }
{
    match var {
        None => Ok(()),
        Some(name) => {
            variable(out, name.as_str())?;
            mark(out, Mark::Colon)
        }
    }
}

impl Printed for SourceTree {
    ghost use Rattle.drl_show.specs.Canonical.{source_tokens};

    ghost tokens = { source_tokens };

    #[tactic(auto, using(crate::proofs::Added::added_append), unfolding(crate::specs::Canonical::source_tokens))]
    fn write(&self, out: &mut Vec<u8>) -> Result<(), NoMemory> {
        binding(out, &self.var)?;
        word(out, self.ty.as_str())?;
        mark(out, Mark::OpenParenthesis)?;
        write_listed(out, self.parts.as_slice())?;
        write_maybe(out, &self.window)?;
        place(out, &self.entry)
    }
}
