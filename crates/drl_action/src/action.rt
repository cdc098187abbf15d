ghost use Rattle.std.specs.Prelude.{◌≡◌, option_map, Option, IfOk};
ghost use Rattle.drl_action.specs.Reading.{values_at, sets_at, insert_at, modify_at, retract_at, behind_word_at};

use crate::assign::{Assignment, Expression};
use crate::word::{ActionWord, action_word_of};
use drl_expr::is_ident_word;
use drl_grammar::ActTree;
use drl_lex::{Mark, TokenKind};
use drl_phrase::{Phrase, Punctuation, behind, listed, optional, separated};
use fx_base::{NoMemory, Text};
use std::alloc::Global;

/// What is read, and the tokens behind it.
type Found<'a> = Option<(ActTree, &'a [TokenKind])>;

// The values of an insertion, behind the opening parenthesis.
#[tactic(auto, unfolding(drl_phrase::specs::Reading::closed))]
fn values<'a>(alloc: Global, ty: &Text, tokens: &'a [TokenKind]) -> Result<Found<'a>, NoMemory>
    ensures { IfOk result (λ found. option_map (λ f. (f.0, f.1.now)) found ≡ values_at ty.now tokens.now) }
{
    let (args, rest) = match listed::<Expression>(alloc, tokens)? {
        None => return Ok(None),
        Some(found) => found,
    };
    match behind(Punctuation::CloseParenthesis, rest) {
        None => Ok(None),
        Some(rest) => {
            let ty = ty.clone()?;
            Ok(Some((ActTree::Insert { ty, args }, rest)))
        }
    }
}

// The assignments of a modification, behind the opening brace.
#[tactic(auto, unfolding(drl_phrase::specs::Reading::closed))]
fn assignments<'a>(
    alloc: Global,
    var: &Text,
    tokens: &'a [TokenKind],
) -> Result<Found<'a>, NoMemory>
    ensures { IfOk result (λ found. option_map (λ f. (f.0, f.1.now)) found ≡ sets_at var.now tokens.now) }
{
    let (sets, rest) = match separated::<Assignment>(alloc, Punctuation::Comma, tokens)? {
        None => return Ok(None),
        Some(found) => found,
    };
    match behind(Punctuation::CloseBrace, rest) {
        None => Ok(None),
        Some(rest) => {
            let var = var.clone()?;
            Ok(Some((ActTree::Modify { var, sets }, rest)))
        }
    }
}

#[tactic(auto, unfolding(crate::specs::Reading::insert_at, drl_phrase::specs::Reading::ident))]
fn insertion(alloc: Global, tokens: &[TokenKind]) -> Result<Found<'_>, NoMemory>
    ensures { IfOk result (λ found. option_map (λ f. (f.0, f.1.now)) found ≡ insert_at tokens.now) }
{
    match tokens {
        [
            TokenKind::Mark(Mark::OpenParenthesis),
            TokenKind::Word(new),
            TokenKind::Word(ty),
            TokenKind::Mark(Mark::OpenParenthesis),
            rest @ ..,
        ] if new.as_str() == "new" && is_ident_word(ty.as_str()) => values(alloc, ty, rest),
        _ => Ok(None),
    }
}

#[tactic(auto, unfolding(crate::specs::Reading::modify_at))]
fn modification(alloc: Global, tokens: &[TokenKind]) -> Result<Found<'_>, NoMemory>
    ensures { IfOk result (λ found. option_map (λ f. (f.0, f.1.now)) found ≡ modify_at tokens.now) }
{
    match tokens {
        [
            TokenKind::Mark(Mark::OpenParenthesis),
            TokenKind::Var(var),
            TokenKind::Mark(Mark::CloseParenthesis),
            TokenKind::Mark(Mark::OpenBrace),
            rest @ ..,
        ] => assignments(alloc, var, rest),
        _ => Ok(None),
    }
}

#[tactic(auto, unfolding(crate::specs::Reading::retract_at))]
fn retraction(tokens: &[TokenKind]) -> Result<Found<'_>, NoMemory>
    ensures { IfOk result (λ found. option_map (λ f. (f.0, f.1.now)) found ≡ retract_at tokens.now) }
{
    match tokens {
        [
            TokenKind::Mark(Mark::OpenParenthesis),
            TokenKind::Var(var),
            TokenKind::Mark(Mark::CloseParenthesis),
            rest @ ..,
        ] => Ok(Some((ActTree::Retract(var.clone()?), rest))),
        _ => Ok(None),
    }
}

// An action behind its word, without the semicolon.
fn behind_action(
    alloc: Global,
    word: ActionWord,
    tokens: &[TokenKind],
) -> Result<Found<'_>, NoMemory>
    ensures { IfOk result (λ found. option_map (λ f. (f.0, f.1.now)) found ≡ behind_word_at word tokens.now) }
{
    match word {
        ActionWord::InsertWord => insertion(alloc, tokens),
        ActionWord::ModifyWord => modification(alloc, tokens),
        ActionWord::RetractWord => retraction(tokens),
    }
}

/// An action, with the `;` behind it if there is one.
pub struct Action;

impl Phrase for Action {
    type Tree = ActTree;

    ghost use Rattle.drl_action.specs.Reading.{action_at};

    ghost at = { action_at };

    #[tactic(auto, unfolding(crate::specs::Reading::action_at))]
    fn read(
        alloc: Global,
        tokens: &[TokenKind],
    ) -> Result<Option<(ActTree, &[TokenKind])>, NoMemory> {
        let (word, rest) = match tokens {
            [TokenKind::Word(word), rest @ ..] => (word, rest),
            _ => return Ok(None),
        };
        let word = match action_word_of(word.as_str()) {
            None => return Ok(None),
            Some(word) => word,
        };
        match behind_action(alloc, word, rest)? {
            None => Ok(None),
            Some((action, rest)) => Ok(Some((action, optional(Punctuation::Semicolon, rest)))),
        }
    }
}
