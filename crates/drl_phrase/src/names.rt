ghost use Rattle.std.specs.Prelude.{◌≡◌, option_map, Option, IfOk};

use crate::Phrase;
use drl_expr::is_ident_word;
use drl_lex::{Mark, TokenKind};
use fx_base::{NoMemory, Text};
use std::alloc::Global;

/// A length of time in milliseconds, written as a time or as a number, with a minus or without.
pub struct Span;

impl Phrase for Span {
    type Tree = i64;

    ghost use Rattle.drl_phrase.specs.Reading.{span_at};

    ghost at = { span_at };

    #[tactic(auto, unfolding(crate::specs::Reading::span_at))]
    fn read(_alloc: Global, tokens: &[TokenKind]) -> Result<Option<(i64, &[TokenKind])>, NoMemory> {
        match tokens {
            [TokenKind::Number(number), rest @ ..] => Ok(Some((number.value(), rest))),
            [TokenKind::Time(number), rest @ ..] => Ok(Some((number.value(), rest))),
            [
                TokenKind::Mark(Mark::Minus),
                TokenKind::Number(number),
                rest @ ..,
            ] => Ok(Some((-number.value(), rest))),
            [
                TokenKind::Mark(Mark::Minus),
                TokenKind::Time(number),
                rest @ ..,
            ] => Ok(Some((-number.value(), rest))),
            _ => Ok(None),
        }
    }
}

/// A quoted text, or a word that is not reserved.
pub struct Name;

impl Phrase for Name {
    type Tree = Text;

    ghost use Rattle.drl_phrase.specs.Reading.{name_at};

    ghost at = { name_at };

    #[tactic(auto, unfolding(crate::specs::Reading::name_at, crate::specs::Reading::ident))]
    fn read(
        _alloc: Global,
        tokens: &[TokenKind],
    ) -> Result<Option<(Text, &[TokenKind])>, NoMemory> {
        match tokens {
            [TokenKind::Text(text), rest @ ..] => Ok(Some((text.clone()?, rest))),
            [TokenKind::Word(word), rest @ ..] if is_ident_word(word.as_str()) => {
                Ok(Some((word.clone()?, rest)))
            }
            _ => Ok(None),
        }
    }
}
