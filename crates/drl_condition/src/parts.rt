ghost use Rattle.std.specs.Prelude.{◌≡◌, option_map, Option, IfOk};
ghost use Rattle.drl_condition.specs.Reading.{params_at, other_at, temporal_at, any_of_at};

use crate::comparisons::DisjPhrase;
use crate::words::op_word;
use drl_expr::is_ident_word;
use drl_grammar::Part;
use drl_lex::{Mark, TokenKind};
use drl_phrase::{Phrase, Punctuation, Span, behind, separated};
use fx_base::{NoMemory, Seq};
use std::alloc::Global;
use temporal_ops::OpWord;

/// The parameters of a temporal test, in milliseconds; none where no bracket opens.
#[tactic(auto, unfolding(crate::specs::Reading::params_at, drl_phrase::specs::Reading::closed))]
fn params(alloc: Global, tokens: &[TokenKind]) -> Result<Option<(Seq<i64>, &[TokenKind])>, NoMemory>
    ensures { IfOk result (λ found. option_map (λ f. (f.0, f.1.now)) found ≡ params_at tokens.now) }
{
    match tokens {
        [TokenKind::Mark(Mark::OpenBracket), rest @ ..] => {
            let (spans, rest) = match separated::<Span>(alloc, Punctuation::Comma, rest)? {
                None => return Ok(None),
                Some(found) => found,
            };
            match behind(Punctuation::CloseBracket, rest) {
                None => Ok(None),
                Some(rest) => Ok(Some((spans, rest))),
            }
        }
        _ => Ok(Some((Seq::from_vec(Vec::new(alloc)), tokens))),
    }
}

/// The test of this operator, whose other event stands in front.
#[tactic(auto, unfolding(crate::specs::Reading::other_at))]
fn other(
    op: OpWord,
    params: Seq<i64>,
    tokens: &[TokenKind],
) -> Result<Option<(Part, &[TokenKind])>, NoMemory>
    ensures { IfOk result (λ found. option_map (λ f. (f.0, f.1.now)) found ≡ other_at op params tokens.now) }
{
    match tokens {
        [TokenKind::Var(var), rest @ ..] => Ok(Some((
            Part::Temporal {
                op,
                params,
                other: var.clone()?,
            },
            rest,
        ))),
        _ => Ok(None),
    }
}

/// A temporal test, behind the word `this`.
#[tactic(auto, unfolding(crate::specs::Reading::temporal_at))]
fn temporal(alloc: Global, tokens: &[TokenKind]) -> Result<Option<(Part, &[TokenKind])>, NoMemory>
    ensures { IfOk result (λ found. option_map (λ f. (f.0, f.1.now)) found ≡ temporal_at tokens.now) }
{
    match tokens {
        [TokenKind::Word(word), rest @ ..] => match op_word(word.as_str()) {
            None => Ok(None),
            Some(op) => match params(alloc, rest)? {
                None => Ok(None),
                Some((spans, rest)) => other(op, spans, rest),
            },
        },
        _ => Ok(None),
    }
}

/// Comparisons joined by `&&` and `||`.
#[tactic(auto, unfolding(crate::specs::Reading::any_of_at))]
fn any_of(alloc: Global, tokens: &[TokenKind]) -> Result<Option<(Part, &[TokenKind])>, NoMemory>
    ensures { IfOk result (λ found. option_map (λ f. (f.0, f.1.now)) found ≡ any_of_at tokens.now) }
{
    match DisjPhrase::read(alloc, tokens)? {
        None => Ok(None),
        Some((groups, rest)) => Ok(Some((Part::AnyOf(groups), rest))),
    }
}

/// `Var ':' Ident | 'this' OpWord ['[' span (',' span)* ']'] Var | disj`
pub(crate) struct PartPhrase;

impl Phrase for PartPhrase {
    type Tree = Part;

    ghost use Rattle.drl_condition.specs.Reading.{part_at};

    ghost at = { part_at };

    #[tactic(auto, unfolding(crate::specs::Reading::part_at, drl_phrase::specs::Reading::ident))]
    fn read(alloc: Global, tokens: &[TokenKind]) -> Result<Option<(Part, &[TokenKind])>, NoMemory> {
        match tokens {
            [
                TokenKind::Var(var),
                TokenKind::Mark(Mark::Colon),
                TokenKind::Word(field),
                rest @ ..,
            ] if is_ident_word(field.as_str()) => Ok(Some((
                Part::Bind {
                    var: var.clone()?,
                    field: field.clone()?,
                },
                rest,
            ))),
            [TokenKind::Word(word), rest @ ..] => {
                if word.as_str() == "this" {
                    temporal(alloc, rest)
                } else {
                    any_of(alloc, tokens)
                }
            }
            _ => Ok(None),
        }
    }
}
