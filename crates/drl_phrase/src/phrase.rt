ghost use Rattle.std.specs.Prelude.{◌≡◌, List, option_map, Option, IfOk};
ghost use Rattle.drl_lex.specs.declared.token.TokenKind.{TokenKind as TokenKind_data};
ghost use Rattle.drl_expr.specs.Exact.{Read};
ghost use Rattle.drl_phrase.specs.Reading.{after, after_word, whole_at};

use drl_lex::{Mark, TokenKind};
use fx_base::NoMemory;
use std::alloc::Global;

/// A line of the grammar, named by a type without content. `at` says what is read at which tokens, and what follows it.
pub trait Phrase {
    /// The value that such a phrase stands for.
    type Tree: Drop;

    ghost at: { List TokenKind_data → Read Self.Tree };

    /// The value of the phrase at the front and the tokens behind it; `None` where none is read.
    fn read(
        alloc: Global,
        tokens: &[TokenKind],
    ) -> Result<Option<(Self::Tree, &[TokenKind])>, NoMemory>
        ensures { IfOk result (λ found. option_map (λ f. (f.0, f.1.now)) found ≡ at tokens.now) };
}

/// A mark that joins phrases or ends them.
#[derive(Clone, Copy, Debug, PartialEq, Eq)]
pub enum Punctuation {
    Comma,
    Semicolon,
    Or,
    And,
    CloseParenthesis,
    CloseBracket,
    CloseBrace,
}

/// The tokens behind this mark, if it is the first. Takes no memory.
#[tactic(auto, unfolding(crate::specs::Reading::after))]
pub fn behind(mark: Punctuation, tokens: &[TokenKind]) -> Option<&[TokenKind]>
    ensures { option_map (λ rest. rest.now) result ≡ after mark tokens.now }
{
    match (mark, tokens) {
        (Punctuation::Comma, [TokenKind::Mark(Mark::Comma), rest @ ..]) => Some(rest),
        (Punctuation::Semicolon, [TokenKind::Mark(Mark::Semicolon), rest @ ..]) => Some(rest),
        (Punctuation::Or, [TokenKind::Mark(Mark::Or), rest @ ..]) => Some(rest),
        (Punctuation::And, [TokenKind::Mark(Mark::And), rest @ ..]) => Some(rest),
        (Punctuation::CloseParenthesis, [TokenKind::Mark(Mark::CloseParenthesis), rest @ ..]) => {
            Some(rest)
        }
        (Punctuation::CloseBracket, [TokenKind::Mark(Mark::CloseBracket), rest @ ..]) => Some(rest),
        (Punctuation::CloseBrace, [TokenKind::Mark(Mark::CloseBrace), rest @ ..]) => Some(rest),
        _ => None,
    }
}

/// The tokens behind this word, if it is the first. Takes no memory.
#[tactic(auto, unfolding(crate::specs::Reading::after_word))]
pub fn behind_word<'a>(word: &str, tokens: &'a [TokenKind]) -> Option<&'a [TokenKind]>
    ensures { option_map (λ rest. rest.now) result ≡ after_word word.now tokens.now }
{
    match tokens {
        [TokenKind::Word(w), rest @ ..] if w.as_str() == word => Some(rest),
        _ => None,
    }
}

/// What all the tokens are; `None` where they are no phrase, or tokens are left behind one.
#[tactic(auto, unfolding(crate::specs::Reading::whole_at))]
pub fn whole<P: Phrase>(alloc: Global, tokens: &[TokenKind]) -> Result<Option<P::Tree>, NoMemory>
    ensures { IfOk result (λ found. found ≡ whole_at P.at tokens.now) }
{
    let (found, rest) = match P::read(alloc, tokens)? {
        None => return Ok(None),
        Some(found) => found,
    };
    match rest {
        [] => Ok(Some(found)),
        _ => Ok(None),
    }
}
