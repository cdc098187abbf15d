ghost use Rattle.std.specs.Prelude.{◌≡◌, OnOk};
ghost use Rattle.drl_grammar.specs.Conditions.{fold_text};
ghost use Rattle.drl_show.specs.Canonical.{group_tokens, function_tokens, accumulate_tokens};
ghost use Rattle.drl_show.specs.Texts.{added};

use crate::patterns::binding;
use crate::shapes::{Printed, write_listed};
use crate::tokens::{mark, variable, word};
use drl_grammar::{CondTree, FoldWord, Operand, Piece, SourceTree};
use drl_lex::{Mark, Rel};
use fx_base::NoMemory;

/// A test of the result of an accumulate.
impl Printed for (Rel, Operand) {
    ghost use Rattle.drl_show.specs.Canonical.{test_tokens};

    ghost tokens = { test_tokens };

    fn write(&self, out: &mut Vec<u8>) -> Result<(), NoMemory> {
        word(out, "longValue")?;
        mark(out, Mark::Comparison(self.0))?;
        self.1.write(out)
    }
}

fn fold_word(function: FoldWord) -> &'static str
    ensures { result.now ≡ fold_text function }
{
    match function {
        FoldWord::Count => "count",
        FoldWord::Sum => "sum",
        FoldWord::Min => "min",
        FoldWord::Max => "max",
        FoldWord::Average => "average",
    }
}

// A pattern in parentheses.
#[tactic(auto, using(crate::proofs::Added::added_append))]
fn group(out: &mut Vec<u8>, source: &SourceTree) -> Result<(), NoMemory>
    ensures { OnOk result (out.new.items ≡ added out.old.items (group_tokens source.now)) }
{
    mark(out, Mark::OpenParenthesis)?;
    source.write(out)?;
    mark(out, Mark::CloseParenthesis)
}

// The function of an accumulate, behind the pattern.
#[tactic(auto, unfolding(crate::specs::Canonical::function_tokens))]
fn function(out: &mut Vec<u8>, kind: FoldWord, arg: &str) -> Result<(), NoMemory>
    ensures { OnOk result (out.new.items ≡ added out.old.items (function_tokens kind arg.now)) }
{
    mark(out, Mark::Comma)?;
    word(out, fold_word(kind))?;
    mark(out, Mark::OpenParenthesis)?;
    variable(out, arg)?;
    mark(out, Mark::CloseParenthesis)?;
    mark(out, Mark::CloseParenthesis)
}

// An accumulate behind the tests of its result.
#[tactic(auto, using(crate::proofs::Added::added_append), unfolding(crate::specs::Canonical::accumulate_tokens))]
fn accumulate(
    out: &mut Vec<u8>,
    source: &SourceTree,
    kind: FoldWord,
    arg: &str,
) -> Result<(), NoMemory>
    ensures { OnOk result (out.new.items ≡ added out.old.items (accumulate_tokens source.now kind arg.now)) }
{
    word(out, "from")?;
    word(out, "accumulate")?;
    mark(out, Mark::OpenParenthesis)?;
    source.write(out)?;
    function(out, kind, arg)
}

impl Printed for CondTree {
    ghost use Rattle.drl_show.specs.Canonical.{condition_tokens};

    ghost tokens = { condition_tokens };

    #[tactic(auto, using(crate::proofs::Added::added_append))]
    fn write(&self, out: &mut Vec<u8>) -> Result<(), NoMemory> {
        match self {
            CondTree::Plain(source) => source.write(out),
            CondTree::Negated(source) => {
                word(out, "not")?;
                group(out, source)
            }
            CondTree::Existing(source) => {
                word(out, "exists")?;
                group(out, source)
            }
            CondTree::Folded {
                result,
                source,
                kind,
                arg,
                tests,
            } => {
                binding(out, result)?;
                word(out, "Number")?;
                mark(out, Mark::OpenParenthesis)?;
                write_listed(out, tests.as_slice())?;
                accumulate(out, source, *kind, arg.as_str())
            }
        }
    }
}

impl Printed for Piece {
    ghost use Rattle.drl_show.specs.Canonical.{piece_tokens};

    ghost tokens = { piece_tokens };

    fn write(&self, out: &mut Vec<u8>) -> Result<(), NoMemory> {
        match self {
            Piece::One(condition) => condition.write(out),
            Piece::Open => mark(out, Mark::OpenParenthesis),
            Piece::Or => word(out, "or"),
            Piece::Close => mark(out, Mark::CloseParenthesis),
        }
    }
}
