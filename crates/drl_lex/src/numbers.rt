ghost use Rattle.std.specs.Prelude.{◌≡◌, true, option_map};
ghost use Rattle.std.specs.List.{list_all};
ghost use Rattle.std.specs.Char.{is_ascii_digit};
ghost use Rattle.std.specs.Str.Parse.{digits_value};
ghost use Rattle.drl_lex.specs.Answers.{GivesTokens};
ghost use Rattle.drl_lex.specs.Reading.{run_kind, run_at};
ghost use Rattle.drl_lex.specs.TimeReading.{capped, unit_part_at, last_at, time_of};

use crate::bytes::{Class, split_front};
use crate::{LexCode, LexFault, Natural, TokenKind};

/// The greatest number.
const NUMBER_MAX: u64 = (1 << 63) - 1;
/// The greatest length of time, in milliseconds.
const TIME_MAX: u64 = 1 << 53;

/// The number that the digits write, or the greatest one of 64 bits where it is greater.
#[tactic(auto, unfolding(crate::specs::TimeReading::capped))]
fn number_of(digits: &[u8]) -> u64
    requires { list_all is_ascii_digit digits.now ≡ true }
    ensures { result ≡ capped (digits_value 10 digits.now) }
{
    let mut number: u64 = 0;
    for digit in digits {
        number = number
            .saturating_mul(10)
            .saturating_add(u64::from(*digit - b'0'));
    }
    number
}

/// How many of the unit stand at the front, and the bytes behind them.
#[tactic(auto, unfolding(crate::specs::TimeReading::unit_part_at, crate::specs::TimeReading::capped))]
fn part_at<'a>(unit: &[u8], bytes: &'a [u8]) -> (u64, &'a [u8])
    ensures number { result.0 ≡ capped (unit_part_at unit.now bytes.now).0 }
    ensures rest { result.1.now ≡ (unit_part_at unit.now bytes.now).1 }
{
    let (digits, behind) = split_front(Class::Digits, bytes);
    let (letters, rest) = split_front(Class::UnitBytes, behind);
    if !digits.is_empty() && letters == unit {
        (number_of(digits), rest)
    } else {
        (0, bytes)
    }
}

/// The milliseconds that the last bytes of a run write; `others` says whether parts stand before them.
#[tactic(auto, unfolding(crate::specs::TimeReading::last_at))]
fn last_at(others: bool, bytes: &[u8]) -> Option<u64>
    ensures { result ≡ option_map capped (last_at others bytes.now) }
{
    let (digits, letters) = split_front(Class::Digits, bytes);
    if (!digits.is_empty() && letters == b"ms".as_slice()) || (letters.is_empty() && others) {
        Some(number_of(digits))
    } else {
        None
    }
}

/// The length of time that a run writes, in milliseconds.
#[tactic(auto, unfolding(crate::specs::TimeReading::time_of))]
fn time_of(run: &[u8]) -> Option<u64>
    ensures { result ≡ option_map capped (time_of run.now) }
{
    let (days, rest) = part_at(b"d", run);
    let (hours, rest) = part_at(b"h", rest);
    let (minutes, rest) = part_at(b"m", rest);
    let (seconds, rest) = part_at(b"s", rest);
    match last_at(rest.len() < run.len(), rest) {
        Some(millis) => Some(
            days.saturating_mul(86_400_000)
                .saturating_add(hours.saturating_mul(3_600_000))
                .saturating_add(minutes.saturating_mul(60_000))
                .saturating_add(seconds.saturating_mul(1_000))
                .saturating_add(millis),
        ),
        None => None,
    }
}

/// The number or the time that a run which begins with a digit at offset `at` is.
#[tactic(auto, unfolding(crate::specs::Reading::run_kind, crate::specs::TimeReading::capped))]
fn run_kind(at: usize, run: &[u8]) -> Result<TokenKind, LexFault>
    ensures { GivesTokens (λ kind. kind) result (run_kind at run.now) }
{
    let (digits, letters) = split_front(Class::Digits, run);
    if letters.is_empty() {
        let number = number_of(digits);
        return if number <= NUMBER_MAX {
            Ok(TokenKind::Number(Natural::new(number)))
        } else {
            Err(LexFault::refused(LexCode::NumberLarge, at))
        };
    }
    match time_of(run) {
        Some(millis) if millis <= TIME_MAX => Ok(TokenKind::Time(Natural::new(millis))),
        Some(_) => Err(LexFault::refused(LexCode::NumberLarge, at)),
        None => Err(LexFault::refused(LexCode::BadChar, at)),
    }
}

/// The number or the time that begins with these bytes, and the bytes behind it.
#[tactic(auto, unfolding(crate::specs::Reading::run_at))]
pub(crate) fn run_at(at: usize, bytes: &[u8]) -> Result<(TokenKind, &[u8]), LexFault>
    ensures { GivesTokens (λ read. (read.0, read.1.now)) result (run_at at bytes.now) }
{
    let (run, rest) = split_front(Class::RunBytes, bytes);
    Ok((run_kind(at, run)?, rest))
}
