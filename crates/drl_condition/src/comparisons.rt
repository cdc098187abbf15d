ghost use Rattle.std.specs.Prelude.{◌≡◌, option_map, Option, IfOk};
ghost use Rattle.drl_condition.specs.Reading.{compared_at, one_of_at};

use crate::values::OperandPhrase;
use drl_expr::is_ident_word;
use drl_grammar::Cmp;
use drl_lex::{Mark, Rel, TokenKind};
use drl_phrase::{Phrase, Punctuation, behind, separated};
use fx_base::{NoMemory, Seq, Text};
use std::alloc::Global;

/// A field against an operand, behind the sign between them.
#[tactic(auto, unfolding(crate::specs::Reading::compared_at))]
fn compared<'a>(
    alloc: Global,
    field: &Text,
    rel: Rel,
    tokens: &'a [TokenKind],
) -> Result<Option<(Cmp, &'a [TokenKind])>, NoMemory>
    ensures { IfOk result (λ found. option_map (λ f. (f.0, f.1.now)) found ≡ compared_at field.now rel tokens.now) }
{
    match OperandPhrase::read(alloc, tokens)? {
        None => Ok(None),
        Some((operand, rest)) => Ok(Some((
            Cmp::Rel {
                field: field.clone()?,
                rel,
                operand,
            },
            rest,
        ))),
    }
}

/// A field among operands, behind the opening parenthesis.
#[tactic(auto, unfolding(crate::specs::Reading::one_of_at, drl_phrase::specs::Reading::closed))]
fn one_of<'a>(
    alloc: Global,
    field: &Text,
    tokens: &'a [TokenKind],
) -> Result<Option<(Cmp, &'a [TokenKind])>, NoMemory>
    ensures { IfOk result (λ found. option_map (λ f. (f.0, f.1.now)) found ≡ one_of_at field.now tokens.now) }
{
    let (operands, rest) = match separated::<OperandPhrase>(alloc, Punctuation::Comma, tokens)? {
        None => return Ok(None),
        Some(found) => found,
    };
    match behind(Punctuation::CloseParenthesis, rest) {
        None => Ok(None),
        Some(rest) => Ok(Some((
            Cmp::OneOf {
                field: field.clone()?,
                operands,
            },
            rest,
        ))),
    }
}

/// `Ident rel operand | Ident 'in' '(' operand (',' operand)* ')'`
pub(crate) struct CmpPhrase;

impl Phrase for CmpPhrase {
    type Tree = Cmp;

    ghost use Rattle.drl_condition.specs.Reading.{cmp_at};

    ghost at = { cmp_at };

    #[tactic(auto, unfolding(crate::specs::Reading::cmp_at, drl_phrase::specs::Reading::ident))]
    fn read(alloc: Global, tokens: &[TokenKind]) -> Result<Option<(Cmp, &[TokenKind])>, NoMemory> {
        match tokens {
            [TokenKind::Word(field), rest @ ..] if is_ident_word(field.as_str()) => match rest {
                [TokenKind::Mark(Mark::Comparison(rel)), rest @ ..] => {
                    compared(alloc, field, *rel, rest)
                }
                [
                    TokenKind::Word(word),
                    TokenKind::Mark(Mark::OpenParenthesis),
                    rest @ ..,
                ] if word.as_str() == "in" => { one_of(alloc, field, rest) }
                _ => Ok(None),
            },
            _ => Ok(None),
        }
    }
}

/// `cmp ('&&' cmp)*`
pub(crate) struct ConjPhrase;

impl Phrase for ConjPhrase {
    type Tree = Seq<Cmp>;

    ghost use Rattle.drl_condition.specs.Reading.{conj_at};

    ghost at = { conj_at };

    fn read(
        alloc: Global,
        tokens: &[TokenKind],
    ) -> Result<Option<(Seq<Cmp>, &[TokenKind])>, NoMemory> {
        separated::<CmpPhrase>(alloc, Punctuation::And, tokens)
    }
}

/// `conj ('||' conj)*`
pub(crate) struct DisjPhrase;

impl Phrase for DisjPhrase {
    type Tree = Seq<Seq<Cmp>>;

    ghost use Rattle.drl_condition.specs.Reading.{disj_at};

    ghost at = { disj_at };

    fn read(
        alloc: Global,
        tokens: &[TokenKind],
    ) -> Result<Option<(Seq<Seq<Cmp>>, &[TokenKind])>, NoMemory> {
        separated::<ConjPhrase>(alloc, Punctuation::Or, tokens)
    }
}
