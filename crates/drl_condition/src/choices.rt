ghost use Rattle.std.specs.Prelude.{◌≡◌, option_map, Option, IfOk};
ghost use Rattle.drl_phrase.specs.Reading.{with_front};
ghost use Rattle.drl_condition.specs.Choices.{ends_all, after_open, all_at, any_at, alternatives_at, choice_at};

use crate::conditions::ConditionPhrase;
use drl_grammar::Piece;
use drl_lex::{Mark, TokenKind};
use drl_phrase::{Phrase, Punctuation, behind, behind_word};
use fx_base::{NoMemory, Seq};
use std::alloc::Global;

// Whether what is asked for together ends before these tokens.
#[tactic(auto, unfolding(crate::specs::Choices::ends_all))]
fn ends_all(tokens: &[TokenKind]) -> bool
    ensures { result ≡ ends_all tokens.now }
{
    match tokens {
        [TokenKind::Word(word), ..] => word.as_str() == "or" || word.as_str() == "then",
        [TokenKind::Mark(Mark::CloseParenthesis), ..] => true,
        _ => false,
    }
}

// The tokens behind an opening parenthesis.
#[tactic(auto, unfolding(crate::specs::Choices::after_open))]
fn behind_open(tokens: &[TokenKind]) -> Option<&[TokenKind]>
    ensures { option_map (λ rest. rest.now) result ≡ after_open tokens.now }
{
    match tokens {
        [TokenKind::Mark(Mark::OpenParenthesis), rest @ ..] => Some(rest),
        _ => None,
    }
}

// A condition, or alternatives that are at most so deep. It appends their pieces.
#[cycle(choices)]
fn choice<'a>(
    alloc: Global,
    depth: u32,
    tokens: &'a [TokenKind],
    pieces: &mut Vec<Piece>,
) -> Result<Option<&'a [TokenKind]>, NoMemory>
    ensures { IfOk result (λ found. option_map (λ rest. (pieces.new.items, rest.now)) found ≡ with_front pieces.old.items (choice_at depth tokens.now)) }
{
    if let Some(inside) = behind_open(tokens) {
        if depth == 0 {
            return Ok(None);
        }
        pieces.push(Piece::Open)?;
        return alternatives(alloc, depth - 1, inside, pieces);
    }
    match ConditionPhrase::read(alloc, tokens)? {
        None => Ok(None),
        Some((condition, rest)) => {
            pieces.push(Piece::One(condition))?;
            Ok(Some(rest))
        }
    }
}

// What stands behind the parenthesis before alternatives: two or more, with `or` between them.
#[cycle(choices)]
fn alternatives<'a>(
    alloc: Global,
    depth: u32,
    tokens: &'a [TokenKind],
    pieces: &mut Vec<Piece>,
) -> Result<Option<&'a [TokenKind]>, NoMemory>
    ensures { IfOk result (λ found. option_map (λ rest. (pieces.new.items, rest.now)) found ≡ with_front pieces.old.items (alternatives_at (choice_at depth) tokens.now)) }
{
    let rest = match all(alloc, depth, tokens, pieces)? {
        None => return Ok(None),
        Some(rest) => rest,
    };
    let rest = match behind_word("or", rest) {
        None => return Ok(None),
        Some(rest) => rest,
    };
    pieces.push(Piece::Or)?;
    let rest = match any(alloc, depth, rest, pieces)? {
        None => return Ok(None),
        Some(rest) => rest,
    };
    match behind(Punctuation::CloseParenthesis, rest) {
        None => Ok(None),
        Some(rest) => {
            pieces.push(Piece::Close)?;
            Ok(Some(rest))
        }
    }
}

// What is asked for together, one choice after the other.
#[cycle(choices)]
fn all<'a>(
    alloc: Global,
    depth: u32,
    tokens: &'a [TokenKind],
    pieces: &mut Vec<Piece>,
) -> Result<Option<&'a [TokenKind]>, NoMemory>
    ensures { IfOk result (λ found. option_map (λ rest. (pieces.new.items, rest.now)) found ≡ with_front pieces.old.items (all_at (choice_at depth) tokens.now)) }
{
    let mut rest = tokens;
    for _ in 0..tokens.len() {
        rest = match choice(alloc, depth, rest, pieces)? {
            None => return Ok(None),
            Some(rest) => rest,
        };
        if ends_all(rest) {
            return Ok(Some(rest));
        }
    }
    Ok(None)
}

// What is asked for together, or others of it, each behind the word `or`.
#[cycle(choices)]
fn any<'a>(
    alloc: Global,
    depth: u32,
    tokens: &'a [TokenKind],
    pieces: &mut Vec<Piece>,
) -> Result<Option<&'a [TokenKind]>, NoMemory>
    ensures { IfOk result (λ found. option_map (λ rest. (pieces.new.items, rest.now)) found ≡ with_front pieces.old.items (any_at (all_at (choice_at depth)) tokens.now)) }
{
    let mut next = tokens;
    for _ in 0..tokens.len() {
        let rest = match all(alloc, depth, next, pieces)? {
            None => return Ok(None),
            Some(rest) => rest,
        };
        next = match behind_word("or", rest) {
            None => return Ok(Some(rest)),
            Some(next) => next,
        };
        pieces.push(Piece::Or)?;
    }
    Ok(None)
}

/// What a rule asks for, up to the word that ends it: conditions, and alternatives of them, at most 16 deep.
pub struct AskedPhrase;

impl Phrase for AskedPhrase {
    type Tree = Seq<Piece>;

    ghost use Rattle.drl_condition.specs.Choices.{pieces_at};

    ghost at = { pieces_at };

    #[tactic(auto, unfolding(crate::specs::Choices::pieces_at))]
    fn read(
        alloc: Global,
        tokens: &[TokenKind],
    ) -> Result<Option<(Seq<Piece>, &[TokenKind])>, NoMemory> {
        let mut pieces = Vec::new(alloc);
        match all(alloc, 16, tokens, &mut pieces)? {
            None => Ok(None),
            Some(rest) => Ok(Some((Seq::from_vec(pieces), rest))),
        }
    }
}
