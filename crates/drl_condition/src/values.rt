ghost use Rattle.std.specs.Prelude.{◌≡◌, option_map, Option, IfOk};

use drl_expr::{LitTree, is_ident_word};
use drl_grammar::Operand;
use drl_lex::{Mark, TokenKind};
use drl_phrase::Phrase;
use fx_base::NoMemory;
use std::alloc::Global;

/// `['-'] Number | Text | 'true' | 'false'`
pub(crate) struct LiteralPhrase;

impl Phrase for LiteralPhrase {
    type Tree = LitTree;

    ghost use Rattle.drl_condition.specs.Reading.{literal_at};

    ghost at = { literal_at };

    #[tactic(auto, unfolding(crate::specs::Reading::literal_at))]
    fn read(
        _alloc: Global,
        tokens: &[TokenKind],
    ) -> Result<Option<(LitTree, &[TokenKind])>, NoMemory> {
        match tokens {
            [TokenKind::Number(number), rest @ ..] => {
                Ok(Some((LitTree::Int(number.value()), rest)))
            }
            [
                TokenKind::Mark(Mark::Minus),
                TokenKind::Number(number),
                rest @ ..,
            ] => Ok(Some((LitTree::Int(-number.value()), rest))),
            [TokenKind::Text(text), rest @ ..] => Ok(Some((LitTree::Text(text.clone()?), rest))),
            [TokenKind::Word(word), rest @ ..] => match word.as_str() {
                "true" => Ok(Some((LitTree::Bool(true), rest))),
                "false" => Ok(Some((LitTree::Bool(false), rest))),
                _ => Ok(None),
            },
            _ => Ok(None),
        }
    }
}

/// `literal | Var | Var '.' Ident | Ident`
pub(crate) struct OperandPhrase;

impl Phrase for OperandPhrase {
    type Tree = Operand;

    ghost use Rattle.drl_condition.specs.Reading.{test_operand_at};

    ghost at = { test_operand_at };

    #[tactic(auto, unfolding(crate::specs::Reading::test_operand_at, drl_phrase::specs::Reading::ident))]
    fn read(
        alloc: Global,
        tokens: &[TokenKind],
    ) -> Result<Option<(Operand, &[TokenKind])>, NoMemory> {
        match tokens {
            [TokenKind::Var(var), rest @ ..] => match rest {
                [
                    TokenKind::Mark(Mark::Dot),
                    TokenKind::Word(field),
                    rest @ ..,
                ] if is_ident_word(field.as_str()) => {
                    Ok(Some((Operand::VarField(var.clone()?, field.clone()?), rest)))
                }
                [TokenKind::Mark(Mark::Dot), ..] => Ok(None),
                _ => Ok(Some((Operand::Var(var.clone()?), rest))),
            },
            [TokenKind::Word(word), rest @ ..] if is_ident_word(word.as_str()) => {
                Ok(Some((Operand::Own(word.clone()?), rest)))
            }
            _ => match LiteralPhrase::read(alloc, tokens)? {
                Some((literal, rest)) => Ok(Some((Operand::Lit(literal), rest))),
                None => Ok(None),
            },
        }
    }
}
