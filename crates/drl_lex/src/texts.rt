ghost use Rattle.std.specs.Prelude.{◌≡◌, ℕ, ◌+◌, ◌<◌, ◌^◌, length, true, option_map, IfOk};
ghost use Rattle.std.specs.List.{list_all};
ghost use Rattle.drl_lex.specs.Answers.{GivesTokens};
ghost use Rattle.drl_lex.specs.Bytes.{is_word_byte};
ghost use Rattle.drl_lex.specs.Reading.{content_at, text_at, word_at, var_at};
ghost use Rattle.drl_lex.specs.TextSteps.{step_read, TakesBytes};
ghost use Rattle.drl_lex.specs.Texts.{escaped_byte, utf8_text};

use crate::bytes::{Class, TextByte, split_front, text_byte_of};
use crate::{LexCode, LexFault, TokenKind};
use fx_base::{NoMemory, Text};
use std::alloc::Global;

/// The byte that the letter behind a `\` stands for.
#[tactic(auto, unfolding(crate::specs::Texts::escaped_byte))]
fn escaped_byte(letter: u8) -> Option<u8>
    ensures { result ≡ escaped_byte letter }
{
    match letter {
        b'"' => Some(b'"'),
        b'\'' => Some(b'\''),
        b'\\' => Some(b'\\'),
        b'n' => Some(b'\n'),
        b't' => Some(b'\t'),
        b'r' => Some(b'\r'),
        _ => None,
    }
}

/// What the bytes behind an opening quote begin with.
enum TextStep<'a> {
    /// The closing quote, and the bytes behind it.
    Closed(&'a [u8]),
    /// A byte of the content, how many bytes write it, and the bytes behind them.
    Byte {
        meant: u8,
        taken: usize,
        rest: &'a [u8],
    },
    /// A `\` that begins no escape.
    BadEscape,
    /// A newline or the end of the file.
    Open,
}

#[tactic(auto, unfolding(crate::specs::Reading::content_at))]
fn text_step(quote: u8, bytes: &[u8]) -> TextStep<'_>
    ensures read { (at place : ℕ) → content_at at quote place bytes.now ≡ step_read at quote place result }
    ensures takes { TakesBytes (length bytes.now) result }
{
    let [first, rest @ ..] = bytes else {
        return TextStep::Open;
    };
    match text_byte_of(quote, *first) {
        TextByte::Closing => TextStep::Closed(rest),
        TextByte::Newline => TextStep::Open,
        TextByte::Plain => TextStep::Byte {
            meant: *first,
            taken: 1,
            rest,
        },
        TextByte::Backslash => match rest {
            [letter, behind @ ..] => match escaped_byte(*letter) {
                Some(meant) => TextStep::Byte {
                    meant,
                    taken: 2,
                    rest: behind,
                },
                None => TextStep::BadEscape,
            },
            [] => TextStep::BadEscape,
        },
    }
}

/// What stands before the closing quote, and the bytes behind it. The opening quote stands at offset `at`, right
/// before the bytes.
fn content_at(
    alloc: Global,
    at: usize,
    quote: u8,
    bytes: &[u8],
) -> Result<(Vec<u8>, &[u8]), LexFault>
    requires { at + 1 + length bytes.now < 2 ^ 64 }
    ensures { GivesTokens (λ read. (read.0.items, read.1.now)) result (content_at at quote (at + 1) bytes.now) }
{
    let mut content = Vec::new(alloc);
    let mut place = at + 1;
    let mut rest = bytes;
    loop {
        match text_step(quote, rest) {
            TextStep::Byte {
                meant,
                taken,
                rest: behind,
            } => {
                content.push(meant)?;
                place += taken;
                rest = behind;
            }
            TextStep::Closed(behind) => return Ok((content, behind)),
            TextStep::BadEscape => {
                return Err(LexFault::refused(LexCode::BadChar, place));
            }
            TextStep::Open => return Err(LexFault::refused(LexCode::OpenText, at)),
        }
    }
}

/// The bytes as text, where they are UTF-8.
fn as_text(bytes: &[u8]) -> Option<&str>
    ensures { option_map (λ text. text.now) result ≡ utf8_text bytes.now }
{
    std::str::from_utf8(bytes).ok()
}

/// The text that the quote at offset `at` opens before these bytes, and the bytes behind it.
#[tactic(auto, unfolding(crate::specs::Reading::text_at))]
pub(crate) fn text_at(
    alloc: Global,
    at: usize,
    quote: u8,
    bytes: &[u8],
) -> Result<(TokenKind, &[u8]), LexFault>
    requires { at + 1 + length bytes.now < 2 ^ 64 }
    ensures { GivesTokens (λ read. (read.0, read.1.now)) result (text_at at quote bytes.now) }
{
    let (content, rest) = content_at(alloc, at, quote, bytes)?;
    match as_text(&content) {
        Some(text) => Ok((TokenKind::Text(Text::new(alloc, text)?), rest)),
        None => Err(LexFault::refused(LexCode::BadChar, at)),
    }
}

/// The bytes of a word as a text.
fn name_of(alloc: Global, bytes: &[u8]) -> Result<Text, NoMemory>
    requires { list_all is_word_byte bytes.now ≡ true }
    ensures { IfOk result (λ text. text ≡ bytes.now) }
{
    Text::new(alloc, std::str::from_utf8(bytes).unwrap())
}

/// The word that begins with these bytes, and the bytes behind it.
#[tactic(auto, unfolding(crate::specs::Reading::word_at))]
pub(crate) fn word_at(alloc: Global, bytes: &[u8]) -> Result<(TokenKind, &[u8]), LexFault>
    ensures { GivesTokens (λ read. (read.0, read.1.now)) result (word_at bytes.now) }
{
    let (name, rest) = split_front(Class::WordBytes, bytes);
    Ok((TokenKind::Word(name_of(alloc, name)?), rest))
}

/// The variable whose `$` stands at offset `at`, right before these bytes, and the bytes behind it.
#[tactic(auto, unfolding(crate::specs::Reading::var_at))]
pub(crate) fn var_at(alloc: Global, at: usize, bytes: &[u8]) -> Result<(TokenKind, &[u8]), LexFault>
    ensures { GivesTokens (λ read. (read.0, read.1.now)) result (var_at at bytes.now) }
{
    let (name, rest) = split_front(Class::WordBytes, bytes);
    if name.is_empty() {
        return Err(LexFault::refused(LexCode::BadChar, at));
    }
    Ok((TokenKind::Var(name_of(alloc, name)?), rest))
}
