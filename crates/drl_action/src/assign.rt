use crate::setter::setter_field;
use drl_expr::{ExprTree, expression, is_ident_word};
use drl_lex::{Mark, TokenKind};
use drl_phrase::{Phrase, Punctuation, behind};
use fx_base::{NoMemory, Text};
use std::alloc::Global;

/// An expression.
pub struct Expression;

impl Phrase for Expression {
    type Tree = ExprTree;

    ghost use Rattle.drl_expr.specs.Reading.{expression_at};

    ghost at = { expression_at };

    fn read(
        alloc: Global,
        tokens: &[TokenKind],
    ) -> Result<Option<(ExprTree, &[TokenKind])>, NoMemory> {
        expression(alloc, tokens)
    }
}

/// A field and its new value: the field by its name, or by its setter.
pub struct Assignment;

impl Phrase for Assignment {
    type Tree = (Text, ExprTree);

    ghost use Rattle.drl_action.specs.Reading.{assign_at};

    ghost at = { assign_at };

    #[tactic(auto, unfolding(crate::specs::Reading::assign_at, drl_phrase::specs::Reading::ident, drl_phrase::specs::Reading::closed))]
    fn read(
        alloc: Global,
        tokens: &[TokenKind],
    ) -> Result<Option<((Text, ExprTree), &[TokenKind])>, NoMemory> {
        match tokens {
            [
                TokenKind::Word(field),
                TokenKind::Mark(Mark::Assign),
                rest @ ..,
            ] if is_ident_word(field.as_str()) => match expression(alloc, rest)? {
                None => Ok(None),
                Some((value, rest)) => Ok(Some(((field.clone()?, value), rest))),
            },
            [
                TokenKind::Word(word),
                TokenKind::Mark(Mark::OpenParenthesis),
                rest @ ..,
            ] if is_ident_word(word.as_str()) => {
                let field = match setter_field(alloc, word.as_str())? {
                    None => return Ok(None),
                    Some(field) => field,
                };
                let (value, rest) = match expression(alloc, rest)? {
                    None => return Ok(None),
                    Some(found) => found,
                };
                match behind(Punctuation::CloseParenthesis, rest) {
                    None => Ok(None),
                    Some(rest) => Ok(Some(((field, value), rest))),
                }
            }
            _ => Ok(None),
        }
    }
}
