ghost use Rattle.std.specs.Prelude.{◌≡◌, option_map};
ghost use Rattle.drl_lex.specs.MarkReading.{single_mark, double_mark, mark_at};

use crate::{Mark, Rel};

#[tactic(auto, unfolding(crate::specs::MarkReading::single_mark))]
fn single_mark(b: u8) -> Option<Mark>
    ensures { result ≡ single_mark b }
{
    match b {
        b'(' => Some(Mark::OpenParenthesis),
        b')' => Some(Mark::CloseParenthesis),
        b'{' => Some(Mark::OpenBrace),
        b'}' => Some(Mark::CloseBrace),
        b'[' => Some(Mark::OpenBracket),
        b']' => Some(Mark::CloseBracket),
        b',' => Some(Mark::Comma),
        b';' => Some(Mark::Semicolon),
        b':' => Some(Mark::Colon),
        b'.' => Some(Mark::Dot),
        b'@' => Some(Mark::At),
        b'+' => Some(Mark::Plus),
        b'-' => Some(Mark::Minus),
        b'*' => Some(Mark::Star),
        b'=' => Some(Mark::Assign),
        b'<' => Some(Mark::Comparison(Rel::Less)),
        b'>' => Some(Mark::Comparison(Rel::Greater)),
        _ => None,
    }
}

#[tactic(auto, unfolding(crate::specs::MarkReading::double_mark))]
fn double_mark(first: u8, second: u8) -> Option<Mark>
    ensures { result ≡ double_mark first second }
{
    match (first, second) {
        (b'=', b'=') => Some(Mark::Comparison(Rel::Equal)),
        (b'!', b'=') => Some(Mark::Comparison(Rel::NotEqual)),
        (b'<', b'=') => Some(Mark::Comparison(Rel::LessOrEqual)),
        (b'>', b'=') => Some(Mark::Comparison(Rel::GreaterOrEqual)),
        (b'|', b'|') => Some(Mark::Or),
        (b'&', b'&') => Some(Mark::And),
        _ => None,
    }
}

/// The longest mark that begins with the byte, and the bytes behind it.
#[tactic(auto, unfolding(crate::specs::MarkReading::mark_at))]
pub(crate) fn mark_at(first: u8, bytes: &[u8]) -> Option<(Mark, &[u8])>
    ensures { option_map (λ read. (read.0, read.1.now)) result ≡ mark_at first bytes.now }
{
    if let [second, rest @ ..] = bytes {
        if let Some(mark) = double_mark(first, *second) {
            return Some((mark, rest));
        }
    }
    match single_mark(first) {
        Some(mark) => Some((mark, bytes)),
        None => None,
    }
}
