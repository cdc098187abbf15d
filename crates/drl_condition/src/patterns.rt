ghost use Rattle.std.specs.Prelude.{◌≡◌, option_map, Option, IfOk};
ghost use Rattle.drl_condition.specs.Reading.{extent_at, binding_at, pattern_at, group_at};

use crate::parts::PartPhrase;
use crate::words::{WindowWord, window_word};
use drl_expr::is_ident_word;
use drl_grammar::{SourceTree, WindowTree};
use drl_lex::{Mark, TokenKind};
use drl_phrase::{Name, Phrase, Punctuation, Span, behind, listed, maybe};
use fx_base::{NoMemory, Text};
use std::alloc::Global;

/// What stands in the parentheses of a window, and the closing one.
#[tactic(auto, unfolding(crate::specs::Reading::extent_at, drl_phrase::specs::Reading::closed))]
fn extent(
    alloc: Global,
    word: WindowWord,
    tokens: &[TokenKind],
) -> Result<Option<(WindowTree, &[TokenKind])>, NoMemory>
    ensures { IfOk result (λ found. option_map (λ f. (f.0, f.1.now)) found ≡ extent_at word tokens.now) }
{
    match word {
        WindowWord::TimeWord => {
            let (span, rest) = match Span::read(alloc, tokens)? {
                None => return Ok(None),
                Some(found) => found,
            };
            match behind(Punctuation::CloseParenthesis, rest) {
                None => Ok(None),
                Some(rest) => Ok(Some((WindowTree::Time(span), rest))),
            }
        }
        WindowWord::LengthWord => match tokens {
            [
                TokenKind::Number(number),
                TokenKind::Mark(Mark::CloseParenthesis),
                rest @ ..,
            ] => Ok(Some((WindowTree::Length(number.value()), rest))),
            _ => Ok(None),
        },
    }
}

/// `'over' 'window' ':' 'time' '(' span ')' | 'over' 'window' ':' 'length' '(' Number ')'`
pub(crate) struct WindowPhrase;

impl Phrase for WindowPhrase {
    type Tree = WindowTree;

    ghost use Rattle.drl_condition.specs.Reading.{window_at};

    ghost at = { window_at };

    #[tactic(auto, unfolding(crate::specs::Reading::window_at))]
    fn read(
        alloc: Global,
        tokens: &[TokenKind],
    ) -> Result<Option<(WindowTree, &[TokenKind])>, NoMemory> {
        match tokens {
            [
                TokenKind::Word(over),
                TokenKind::Word(window),
                TokenKind::Mark(Mark::Colon),
                TokenKind::Word(kind),
                TokenKind::Mark(Mark::OpenParenthesis),
                rest @ ..,
            ] if over.as_str() == "over" && window.as_str() == "window" => {
                match window_word(kind.as_str()) {
                    None => Ok(None),
                    Some(word) => extent(alloc, word, rest),
                }
            }
            _ => Ok(None),
        }
    }
}

/// `'from' 'entry' '-' 'point' name`
pub(crate) struct PlacePhrase;

impl Phrase for PlacePhrase {
    type Tree = Text;

    ghost use Rattle.drl_condition.specs.Reading.{place_at};

    ghost at = { place_at };

    #[tactic(auto, unfolding(crate::specs::Reading::place_at))]
    fn read(alloc: Global, tokens: &[TokenKind]) -> Result<Option<(Text, &[TokenKind])>, NoMemory> {
        match tokens {
            [
                TokenKind::Word(from),
                TokenKind::Word(entry),
                TokenKind::Mark(Mark::Minus),
                TokenKind::Word(point),
                rest @ ..,
            ] if from.as_str() == "from"
                && entry.as_str() == "entry"
                && point.as_str() == "point" => { Name::read(alloc, rest) }
            _ => Ok(None),
        }
    }
}

/// The variable in front, if one stands there, and what follows it.
#[tactic(auto, unfolding(crate::specs::Reading::binding_at))]
pub(crate) fn binding(tokens: &[TokenKind]) -> Result<(Option<Text>, &[TokenKind]), NoMemory>
    ensures { IfOk result (λ found. (found.0, found.1.now) ≡ binding_at tokens.now) }
{
    match tokens {
        [TokenKind::Var(var), TokenKind::Mark(Mark::Colon), rest @ ..] => Ok((
            Some(var.clone()?),
            rest,
        )),
        _ => Ok((None, tokens)),
    }
}

/// A pattern, behind its variable.
#[tactic(auto, unfolding(crate::specs::Reading::pattern_at, drl_phrase::specs::Reading::ident))]
fn pattern(
    alloc: Global,
    var: Option<Text>,
    tokens: &[TokenKind],
) -> Result<Option<(SourceTree, &[TokenKind])>, NoMemory>
    ensures { IfOk result (λ found. option_map (λ f. (f.0, f.1.now)) found ≡ pattern_at var tokens.now) }
{
    match tokens {
        [
            TokenKind::Word(ty),
            TokenKind::Mark(Mark::OpenParenthesis),
            rest @ ..,
        ] if is_ident_word(ty.as_str()) => match listed::<PartPhrase>(alloc, rest)? {
            None => Ok(None),
            Some((parts, rest)) => {
                let (window, rest) = maybe::<WindowPhrase>(alloc, rest)?;
                let (entry, rest) = maybe::<PlacePhrase>(alloc, rest)?;
                Ok(Some((
                    SourceTree {
                        var,
                        ty: ty.clone()?,
                        parts,
                        window,
                        entry,
                    },
                    rest,
                )))
            }
        },
        _ => Ok(None),
    }
}

/// `[Var ':'] Ident '(' [part (',' part)*] ')' [window] [place]`
pub(crate) struct SourcePhrase;

impl Phrase for SourcePhrase {
    type Tree = SourceTree;

    ghost use Rattle.drl_condition.specs.Reading.{source_at};

    ghost at = { source_at };

    #[tactic(auto, unfolding(crate::specs::Reading::source_at))]
    fn read(
        alloc: Global,
        tokens: &[TokenKind],
    ) -> Result<Option<(SourceTree, &[TokenKind])>, NoMemory> {
        let (var, rest) = binding(tokens)?;
        pattern(alloc, var, rest)
    }
}

/// A pattern, maybe in parentheses.
#[tactic(auto, unfolding(crate::specs::Reading::group_at, drl_phrase::specs::Reading::closed))]
pub(crate) fn group(
    alloc: Global,
    tokens: &[TokenKind],
) -> Result<Option<(SourceTree, &[TokenKind])>, NoMemory>
    ensures { IfOk result (λ found. option_map (λ f. (f.0, f.1.now)) found ≡ group_at tokens.now) }
{
    match tokens {
        [TokenKind::Mark(Mark::OpenParenthesis), rest @ ..] => {
            let (source, rest) = match SourcePhrase::read(alloc, rest)? {
                None => return Ok(None),
                Some(found) => found,
            };
            match behind(Punctuation::CloseParenthesis, rest) {
                None => Ok(None),
                Some(rest) => Ok(Some((source, rest))),
            }
        }
        _ => SourcePhrase::read(alloc, tokens),
    }
}
