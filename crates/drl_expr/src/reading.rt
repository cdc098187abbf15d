ghost use Rattle.std.specs.Prelude.{◌≡◌, ◌≤◌, List, [], option_map, Option, Some, IfOk, IfSome, IfNone};
ghost use Rattle.drl_expr.specs.Exact.{expression_binds};
ghost use Rattle.drl_expr.specs.Tree.{Tree};
ghost use Rattle.drl_expr.specs.Grammar.{IsExpression};
ghost use Rattle.drl_expr.specs.Reading.{factor_at, operand_at, level_at, inside_at, expression_at};

use crate::ExprTree;
use crate::atoms::atom;
use crate::marks::{Level, Opening, behind_close, opening_of, operator};
use crate::measured::{Measured, join, negated};
use drl_lex::TokenKind;
use fx_base::NoMemory;
use std::alloc::Global;

// A factor at most this high, with parentheses at most this deep.
#[cycle(operations)]
#[tactic(auto, using(crate::proofs::Steps::factor_zero, crate::proofs::Steps::factor_none, crate::proofs::Steps::factor_negative, crate::proofs::Steps::factor_parenthesis))]
fn factor(
    alloc: Global,
    tokens: &[TokenKind],
    depth: u32,
    height: u32,
) -> Result<Option<(Measured, &[TokenKind])>, NoMemory>
    requires { height ≤ 32 }
    ensures reads { IfOk result (λ found. option_map (λ f. (f.0.tree, f.1.now)) found ≡ factor_at (inside_at depth) height tokens.now) }
    ensures low { IfOk result (λ found. IfSome found (λ f. f.0.height ≤ height)) }
{
    if height == 0 {
        return Ok(None);
    }
    let (opening, rest) = match opening_of(tokens) {
        None => return atom(tokens),
        Some(found) => found,
    };
    match opening {
        Opening::Negative => {
            let (inner, rest) = match factor(alloc, rest, depth, height - 1)? {
                None => return Ok(None),
                Some(found) => found,
            };
            Ok(Some((negated(alloc, inner)?, rest)))
        }
        Opening::Parenthesis => {
            if depth == 0 {
                return Ok(None);
            }
            let (inner, rest) = match chain(alloc, Level::Sums, rest, depth - 1, height)? {
                None => return Ok(None),
                Some(found) => found,
            };
            match behind_close(rest) {
                None => Ok(None),
                Some(rest) => Ok(Some((inner, rest))),
            }
        }
    }
}

// A term of a sum, or a factor of a product.
#[cycle(operations)]
#[tactic(auto, unfolding(crate::specs::Reading::term_at))]
fn operand(
    alloc: Global,
    level: Level,
    tokens: &[TokenKind],
    depth: u32,
    height: u32,
) -> Result<Option<(Measured, &[TokenKind])>, NoMemory>
    requires { height ≤ 32 }
    ensures reads { IfOk result (λ found. option_map (λ f. (f.0.tree, f.1.now)) found ≡ operand_at level (inside_at depth) height tokens.now) }
    ensures low { IfOk result (λ found. IfSome found (λ f. f.0.height ≤ height)) }
{
    match level {
        Level::Sums => chain(alloc, Level::Products, tokens, depth, height),
        Level::Products => factor(alloc, tokens, depth, height),
    }
}

// A sum or a product, or an operand alone.
#[cycle(operations)]
fn chain(
    alloc: Global,
    level: Level,
    tokens: &[TokenKind],
    depth: u32,
    height: u32,
) -> Result<Option<(Measured, &[TokenKind])>, NoMemory>
    requires { height ≤ 32 }
    ensures reads { IfOk result (λ found. option_map (λ f. (f.0.tree, f.1.now)) found ≡ level_at level (inside_at depth) height tokens.now) }
    ensures low { IfOk result (λ found. IfSome found (λ f. f.0.height ≤ height)) }
{
    let (first, behind_first) = match operand(alloc, level, tokens, depth, height)? {
        None => return Ok(None),
        Some(found) => found,
    };
    let mut left = first;
    let mut rest = behind_first;
    for _ in 0..height {
        let (operation, next) = match operator(level, rest) {
            None => return Ok(Some((left, rest))),
            Some(found) => found,
        };
        if height <= left.height {
            return Ok(None);
        }
        let (right, behind) = match operand(alloc, level, next, depth, height - 1)? {
            None => return Ok(None),
            Some(found) => found,
        };
        left = join(alloc, operation, left, right)?;
        rest = behind;
    }
    match operator(level, rest) {
        None => Ok(Some((left, rest))),
        Some(_) => Ok(None),
    }
}

/// The expression at the front of the tokens, as far as its operators go on, with the tokens behind it. `None` where none
/// stands there, where an operator has no operand, and beyond the limits: a tree has height at most 32, parentheses are at
/// most 32 deep. It takes one walk over the tokens that it reads, on a stack of bounded depth.
#[tactic(auto, unfolding(crate::specs::Reading::expression_at, crate::specs::Reading::expr_at))]
pub fn expression(
    alloc: Global,
    tokens: &[TokenKind],
) -> Result<Option<(ExprTree, &[TokenKind])>, NoMemory>
    ensures reads { IfOk result (λ found. option_map (λ f. (f.0, f.1.now)) found ≡ expression_at tokens.now) }
    ensures found { IfOk result (λ found. IfSome found (λ f. IsExpression f.0 tokens.now f.1.now)) }
    ensures none_missed { IfOk result (λ found. (tree : Tree) → (rest : List TokenKind) → IsExpression tree tokens.now rest → 3 ≤ expression_binds rest
        → option_map {U = Tree × List TokenKind} (λ f. (f.0, f.1.now)) found ≡ Some (tree, rest)) }
{
    match chain(alloc, Level::Sums, tokens, 32, 32)? {
        None => Ok(None),
        Some((found, rest)) => Ok(Some((found.tree, rest))),
    }
}
