ghost use Rattle.std.specs.Prelude.{◌≡◌, option_map, Option};
ghost use Rattle.drl_expr.specs.Reading.{plus_at, star_at, operator_at, joined, opening_at, after_close};

use drl_lex::{Mark, TokenKind};

/// What joins two operands.
#[derive(Clone, Copy, Debug)]
pub(crate) enum Operation {
    Sum,
    Difference,
    Product,
}

/// The operator of a sum at the front.
#[tactic(auto, unfolding(crate::specs::Reading::plus_at))]
fn plus(tokens: &[TokenKind]) -> Option<(Operation, &[TokenKind])>
    ensures { option_map (λ f. (joined f.0, f.1.now)) result ≡ plus_at tokens.now }
{
    match tokens {
        [TokenKind::Mark(Mark::Plus), rest @ ..] => Some((Operation::Sum, rest)),
        [TokenKind::Mark(Mark::Minus), rest @ ..] => Some((Operation::Difference, rest)),
        _ => None,
    }
}

/// The operator of a product at the front.
#[tactic(auto, unfolding(crate::specs::Reading::star_at))]
fn star(tokens: &[TokenKind]) -> Option<(Operation, &[TokenKind])>
    ensures { option_map (λ f. (joined f.0, f.1.now)) result ≡ star_at tokens.now }
{
    match tokens {
        [TokenKind::Mark(Mark::Star), rest @ ..] => Some((Operation::Product, rest)),
        _ => None,
    }
}

/// What operators join: terms to a sum, or factors to a product.
#[derive(Clone, Copy, Debug)]
pub(crate) enum Level {
    Sums,
    Products,
}

/// The operator of this level at the front.
pub(crate) fn operator(level: Level, tokens: &[TokenKind]) -> Option<(Operation, &[TokenKind])>
    ensures { option_map (λ f. (joined f.0, f.1.now)) result ≡ operator_at level tokens.now }
{
    match level {
        Level::Sums => plus(tokens),
        Level::Products => star(tokens),
    }
}

/// A mark before a factor or an expression.
#[derive(Clone, Copy, Debug)]
pub(crate) enum Opening {
    Negative,
    Parenthesis,
}

#[tactic(auto, unfolding(crate::specs::Reading::opening_at))]
pub(crate) fn opening_of(tokens: &[TokenKind]) -> Option<(Opening, &[TokenKind])>
    ensures { option_map (λ f. (f.0, f.1.now)) result ≡ opening_at tokens.now }
{
    match tokens {
        [TokenKind::Mark(Mark::Minus), rest @ ..] => Some((Opening::Negative, rest)),
        [TokenKind::Mark(Mark::OpenParenthesis), rest @ ..] => Some((Opening::Parenthesis, rest)),
        _ => None,
    }
}

#[tactic(auto, unfolding(crate::specs::Reading::after_close))]
pub(crate) fn behind_close(tokens: &[TokenKind]) -> Option<&[TokenKind]>
    ensures { option_map (λ rest. rest.now) result ≡ after_close tokens.now }
{
    match tokens {
        [TokenKind::Mark(Mark::CloseParenthesis), rest @ ..] => Some(rest),
        _ => None,
    }
}
