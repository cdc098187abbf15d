ghost use Rattle.std.specs.Prelude.{◌≡◌, option_map, Option, IfOk};
ghost use Rattle.drl_phrase.specs.Reading.{separated_at};
ghost use Rattle.drl_phrase.specs.declared.phrase.Punctuation.TheVariants.{Comma};
ghost use Rattle.drl_condition.specs.Reading.{result_test_at, result_tests_at, call_at, last_call_at, number_call_at, number_source_at, number_tests_at, number_at, result_at, accumulate_call_at, accumulate_at};

use crate::patterns::{SourcePhrase, binding};
use crate::values::OperandPhrase;
use crate::words::{fold_word, result_word};
use drl_grammar::{CondTree, FoldWord, Operand, SourceTree};
use drl_lex::{Mark, Rel, TokenKind};
use drl_phrase::{Phrase, Punctuation, behind, listed};
use fx_base::{NoMemory, Seq, Text};
use std::alloc::Global;

/// `('longValue' | 'intValue') rel operand`
pub(crate) struct ValueTestPhrase;

impl Phrase for ValueTestPhrase {
    type Tree = (Rel, Operand);

    ghost use Rattle.drl_condition.specs.Reading.{value_test_at};

    ghost at = { value_test_at };

    #[tactic(auto, unfolding(crate::specs::Reading::value_test_at))]
    fn read(
        alloc: Global,
        tokens: &[TokenKind],
    ) -> Result<Option<((Rel, Operand), &[TokenKind])>, NoMemory> {
        match tokens {
            [
                TokenKind::Word(word),
                TokenKind::Mark(Mark::Comparison(rel)),
                rest @ ..,
            ] => match result_word(word.as_str()) {
                None => Ok(None),
                Some(_) => match OperandPhrase::read(alloc, rest)? {
                    None => Ok(None),
                    Some((operand, rest)) => Ok(Some(((*rel, operand), rest))),
                },
            },
            _ => Ok(None),
        }
    }
}

/// A test of the result, which has this variable.
#[tactic(auto, unfolding(crate::specs::Reading::result_test_at))]
fn result_test<'a>(
    alloc: Global,
    result_var: &str,
    tokens: &'a [TokenKind],
) -> Result<Option<((Rel, Operand), &'a [TokenKind])>, NoMemory>
    ensures { IfOk result (λ found. option_map (λ f. (f.0, f.1.now)) found ≡ result_test_at result_var.now tokens.now) }
{
    match tokens {
        [
            TokenKind::Var(var),
            TokenKind::Mark(Mark::Comparison(rel)),
            rest @ ..,
        ] if var.as_str() == result_var => match OperandPhrase::read(alloc, rest)? {
            None => Ok(None),
            Some((operand, rest)) => Ok(Some(((*rel, operand), rest))),
        },
        _ => Ok(None),
    }
}

/// Tests of the result with commas between them.
fn result_test_list<'a>(
    alloc: Global,
    result_var: &str,
    tokens: &'a [TokenKind],
) -> Result<Option<(Seq<(Rel, Operand)>, &'a [TokenKind])>, NoMemory>
    ensures { IfOk result (λ found. option_map (λ f. (f.0, f.1.now)) found ≡ separated_at (result_test_at result_var.now) Comma tokens.now) }
{
    let (first, after_first) = match result_test(alloc, result_var, tokens)? {
        None => return Ok(None),
        Some(found) => found,
    };
    let mut items = Vec::new(alloc);
    items.push(first)?;
    let mut rest = after_first;
    for _ in 0..tokens.len() {
        let next = match behind(Punctuation::Comma, rest) {
            None => return Ok(Some((Seq::from_vec(items), rest))),
            Some(next) => next,
        };
        let (item, after_item) = match result_test(alloc, result_var, next)? {
            None => return Ok(None),
            Some(found) => found,
        };
        items.push(item)?;
        rest = after_item;
    }
    Ok(Some((Seq::from_vec(items), rest)))
}

/// The tests of the result, maybe none, and the closing parenthesis.
#[tactic(auto, unfolding(crate::specs::Reading::result_tests_at, drl_phrase::specs::Reading::closed))]
fn result_tests<'a>(
    alloc: Global,
    result_var: &str,
    tokens: &'a [TokenKind],
) -> Result<Option<(Seq<(Rel, Operand)>, &'a [TokenKind])>, NoMemory>
    ensures { IfOk result (λ found. option_map (λ f. (f.0, f.1.now)) found ≡ result_tests_at result_var.now tokens.now) }
{
    match tokens {
        [TokenKind::Mark(Mark::CloseParenthesis), rest @ ..] => {
            Ok(Some((Seq::from_vec(Vec::new(alloc)), rest)))
        }
        [TokenKind::Mark(Mark::Semicolon), rest @ ..] => {
            let (tests, rest) = match result_test_list(alloc, result_var, rest)? {
                None => return Ok(None),
                Some(found) => found,
            };
            match behind(Punctuation::CloseParenthesis, rest) {
                None => Ok(None),
                Some(rest) => Ok(Some((tests, rest))),
            }
        }
        _ => Ok(None),
    }
}

/// A function and its argument in parentheses.
#[tactic(auto, unfolding(crate::specs::Reading::call_at))]
fn call(tokens: &[TokenKind]) -> Result<Option<((FoldWord, Text), &[TokenKind])>, NoMemory>
    ensures { IfOk result (λ found. option_map (λ f. (f.0, f.1.now)) found ≡ call_at tokens.now) }
{
    match tokens {
        [
            TokenKind::Word(word),
            TokenKind::Mark(Mark::OpenParenthesis),
            TokenKind::Var(arg),
            TokenKind::Mark(Mark::CloseParenthesis),
            rest @ ..,
        ] => match fold_word(word.as_str()) {
            None => Ok(None),
            Some(kind) => Ok(Some(((kind, arg.clone()?), rest))),
        },
        _ => Ok(None),
    }
}

/// `',' function '(' Var ')' ')'`
#[tactic(auto, unfolding(crate::specs::Reading::last_call_at, drl_phrase::specs::Reading::closed))]
fn last_call(tokens: &[TokenKind]) -> Result<Option<((FoldWord, Text), &[TokenKind])>, NoMemory>
    ensures { IfOk result (λ found. option_map (λ f. (f.0, f.1.now)) found ≡ last_call_at tokens.now) }
{
    match tokens {
        [TokenKind::Mark(Mark::Comma), rest @ ..] => {
            let (function, rest) = match call(rest)? {
                None => return Ok(None),
                Some(found) => found,
            };
            match behind(Punctuation::CloseParenthesis, rest) {
                None => Ok(None),
                Some(rest) => Ok(Some((function, rest))),
            }
        }
        _ => Ok(None),
    }
}

/// What stands behind the pattern of `Number(..) from accumulate(..)`.
#[tactic(auto, unfolding(crate::specs::Reading::number_call_at))]
fn number_call(
    result_var: Option<Text>,
    tests: Seq<(Rel, Operand)>,
    source: SourceTree,
    tokens: &[TokenKind],
) -> Result<Option<(CondTree, &[TokenKind])>, NoMemory>
    ensures { IfOk result (λ found. option_map (λ f. (f.0, f.1.now)) found ≡ number_call_at result_var tests source tokens.now) }
{
    match last_call(tokens)? {
        None => Ok(None),
        Some(((kind, arg), rest)) => Ok(Some((
            CondTree::Folded {
                result: result_var,
                source,
                kind,
                arg,
                tests,
            },
            rest,
        ))),
    }
}

/// What stands behind `Number(..)`.
#[tactic(auto, unfolding(crate::specs::Reading::number_source_at))]
fn number_source(
    alloc: Global,
    result_var: Option<Text>,
    tests: Seq<(Rel, Operand)>,
    tokens: &[TokenKind],
) -> Result<Option<(CondTree, &[TokenKind])>, NoMemory>
    ensures { IfOk result (λ found. option_map (λ f. (f.0, f.1.now)) found ≡ number_source_at result_var tests tokens.now) }
{
    match tokens {
        [
            TokenKind::Word(from),
            TokenKind::Word(accumulate),
            TokenKind::Mark(Mark::OpenParenthesis),
            rest @ ..,
        ] if from.as_str() == "from" && accumulate.as_str() == "accumulate" => {
            match SourcePhrase::read(alloc, rest)? {
                None => Ok(None),
                Some((source, rest)) => number_call(result_var, tests, source, rest),
            }
        }
        _ => Ok(None),
    }
}

/// `Number(..)` and what stands behind it.
#[tactic(auto, unfolding(crate::specs::Reading::number_tests_at))]
fn number_tests(
    alloc: Global,
    result_var: Option<Text>,
    tokens: &[TokenKind],
) -> Result<Option<(CondTree, &[TokenKind])>, NoMemory>
    ensures { IfOk result (λ found. option_map (λ f. (f.0, f.1.now)) found ≡ number_tests_at result_var tokens.now) }
{
    match tokens {
        [
            TokenKind::Word(word),
            TokenKind::Mark(Mark::OpenParenthesis),
            rest @ ..,
        ] if word.as_str() == "Number" => match listed::<ValueTestPhrase>(alloc, rest)? {
            None => Ok(None),
            Some((tests, rest)) => number_source(alloc, result_var, tests, rest),
        },
        _ => Ok(None),
    }
}

/// `[Var ':'] 'Number' '(' [vtest (',' vtest)*] ')' 'from' 'accumulate' '(' source ',' function '(' Var ')' ')'`
#[tactic(auto, unfolding(crate::specs::Reading::number_at))]
pub(crate) fn number(
    alloc: Global,
    tokens: &[TokenKind],
) -> Result<Option<(CondTree, &[TokenKind])>, NoMemory>
    ensures { IfOk result (λ found. option_map (λ f. (f.0, f.1.now)) found ≡ number_at tokens.now) }
{
    let (result_var, rest) = binding(tokens)?;
    number_tests(alloc, result_var, rest)
}

/// The variable of a result, the function with its argument, and the tests of the result.
type Folding = (Text, (FoldWord, Text), Seq<(Rel, Operand)>);

/// `';' Var ':' function '(' Var ')'`, and the tests of the result.
#[tactic(auto, unfolding(crate::specs::Reading::result_at))]
fn folding(alloc: Global, tokens: &[TokenKind]) -> Result<Option<(Folding, &[TokenKind])>, NoMemory>
    ensures { IfOk result (λ found. option_map (λ f. (f.0, f.1.now)) found ≡ result_at tokens.now) }
{
    match tokens {
        [
            TokenKind::Mark(Mark::Semicolon),
            TokenKind::Var(var),
            TokenKind::Mark(Mark::Colon),
            rest @ ..,
        ] => match call(rest)? {
            None => Ok(None),
            Some((function, rest)) => match result_tests(alloc, var.as_str(), rest)? {
                None => Ok(None),
                Some((tests, rest)) => Ok(Some(((var.clone()?, function, tests), rest))),
            },
        },
        _ => Ok(None),
    }
}

/// What stands behind the pattern of `accumulate(..)`.
#[tactic(auto, unfolding(crate::specs::Reading::accumulate_call_at))]
fn accumulate_call(
    alloc: Global,
    source: SourceTree,
    tokens: &[TokenKind],
) -> Result<Option<(CondTree, &[TokenKind])>, NoMemory>
    ensures { IfOk result (λ found. option_map (λ f. (f.0, f.1.now)) found ≡ accumulate_call_at source tokens.now) }
{
    match folding(alloc, tokens)? {
        None => Ok(None),
        Some(((result, (kind, arg), tests), rest)) => Ok(Some((
            CondTree::Folded {
                result: Some(result),
                source,
                kind,
                arg,
                tests,
            },
            rest,
        ))),
    }
}

/// `'accumulate' '(' source ';' Var ':' function '(' Var ')' [';' rtest (',' rtest)*] ')'`, behind its first word.
#[tactic(auto, unfolding(crate::specs::Reading::accumulate_at))]
pub(crate) fn accumulate(
    alloc: Global,
    tokens: &[TokenKind],
) -> Result<Option<(CondTree, &[TokenKind])>, NoMemory>
    ensures { IfOk result (λ found. option_map (λ f. (f.0, f.1.now)) found ≡ accumulate_at tokens.now) }
{
    match tokens {
        [TokenKind::Mark(Mark::OpenParenthesis), rest @ ..] => {
            match SourcePhrase::read(alloc, rest)? {
                None => Ok(None),
                Some((source, rest)) => accumulate_call(alloc, source, rest),
            }
        }
        _ => Ok(None),
    }
}
