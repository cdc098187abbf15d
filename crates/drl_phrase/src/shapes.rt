ghost use Rattle.std.specs.Prelude.{◌≡◌, option_map, Option, Some, IfOk};
ghost use Rattle.drl_phrase.specs.Reading.{separated_at, listed_at, many_at, maybe_at, optional_at};

use crate::{Phrase, Punctuation, behind};
use drl_lex::TokenKind;
use fx_base::{NoMemory, Seq};
use std::alloc::Global;

/// One phrase or more, this mark between each two of them. `None` where one is missing at the front or behind a mark.
pub fn separated<P: Phrase>(
    alloc: Global,
    separator: Punctuation,
    tokens: &[TokenKind],
) -> Result<Option<(Seq<P::Tree>, &[TokenKind])>, NoMemory>
    ensures { IfOk result (λ found. option_map (λ f. (f.0, f.1.now)) found ≡ separated_at P.at separator tokens.now) }
{
    let (first, after_first) = match P::read(alloc, tokens)? {
        None => return Ok(None),
        Some(found) => found,
    };
    let mut items = Vec::new(alloc);
    items.push(first)?;
    let mut rest = after_first;
    for _ in 0..tokens.len() {
        let next = match behind(separator, rest) {
            None => return Ok(Some((Seq::from_vec(items), rest))),
            Some(next) => next,
        };
        let (item, after_item) = match P::read(alloc, next)? {
            None => return Ok(None),
            Some(found) => found,
        };
        items.push(item)?;
        rest = after_item;
    }
    Ok(Some((Seq::from_vec(items), rest)))
}

/// Phrases with commas between them, maybe none, and the closing parenthesis behind them.
#[tactic(auto, unfolding(crate::specs::Reading::listed_at, crate::specs::Reading::closed))]
pub fn listed<P: Phrase>(
    alloc: Global,
    tokens: &[TokenKind],
) -> Result<Option<(Seq<P::Tree>, &[TokenKind])>, NoMemory>
    ensures { IfOk result (λ found. option_map (λ f. (f.0, f.1.now)) found ≡ listed_at P.at tokens.now) }
{
    if let Some(rest) = behind(Punctuation::CloseParenthesis, tokens) {
        return Ok(Some((Seq::from_vec(Vec::new(alloc)), rest)));
    }
    let (items, rest) = match separated::<P>(alloc, Punctuation::Comma, tokens)? {
        None => return Ok(None),
        Some(found) => found,
    };
    match behind(Punctuation::CloseParenthesis, rest) {
        None => Ok(None),
        Some(rest) => Ok(Some((items, rest))),
    }
}

/// As many phrases as can be read, maybe none.
pub fn many<P: Phrase>(
    alloc: Global,
    tokens: &[TokenKind],
) -> Result<(Seq<P::Tree>, &[TokenKind]), NoMemory>
    ensures { IfOk result (λ found. Some (found.0, found.1.now) ≡ many_at P.at tokens.now) }
{
    let mut items = Vec::new(alloc);
    let mut rest = tokens;
    for _ in 0..tokens.len() {
        let (item, behind) = match P::read(alloc, rest)? {
            None => return Ok((Seq::from_vec(items), rest)),
            Some(found) => found,
        };
        items.push(item)?;
        rest = behind;
    }
    Ok((Seq::from_vec(items), rest))
}

/// The phrase, if one can be read.
#[tactic(auto, unfolding(crate::specs::Reading::maybe_at))]
pub fn maybe<P: Phrase>(
    alloc: Global,
    tokens: &[TokenKind],
) -> Result<(Option<P::Tree>, &[TokenKind]), NoMemory>
    ensures { IfOk result (λ found. Some (found.0, found.1.now) ≡ maybe_at P.at tokens.now) }
{
    match P::read(alloc, tokens)? {
        None => Ok((None, tokens)),
        Some((found, rest)) => Ok((Some(found), rest)),
    }
}

/// The tokens behind this mark, if it is the first, else all of them. Takes no memory.
#[tactic(auto, unfolding(crate::specs::Reading::optional_at))]
pub fn optional(mark: Punctuation, tokens: &[TokenKind]) -> &[TokenKind]
    ensures { result.now ≡ optional_at mark tokens.now }
{
    match behind(mark, tokens) {
        None => tokens,
        Some(rest) => rest,
    }
}
