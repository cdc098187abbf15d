ghost use Rattle.std.specs.Prelude.{◌≡◌, ℕ, ◌+◌, ◌<◌, ◌^◌, ◌++◌, length, IfOk, IfErr, OnOk};
ghost use Rattle.drl_lex.specs.Answers.{GivesTokens, kept};
ghost use Rattle.drl_lex.specs.Faults.{IsFirstFault};
ghost use Rattle.drl_lex.specs.Reading.{slash_at, piece_at, lexed};
ghost use Rattle.drl_lex.specs.Tokens.{AreTokens};

use crate::bytes::{Class, Lead, behind_close, lead_of, split_front};
use crate::marks::mark_at;
use crate::numbers::run_at;
use crate::texts::{text_at, var_at, word_at};
use crate::{LexCode, LexFault, Token, TokenKind};
use fx_base::Seq;
use std::alloc::Global;

/// What stands behind the comment that the slash at offset `at`, right before the bytes, begins.
#[tactic(auto, unfolding(crate::specs::Reading::slash_at))]
fn slash_at(at: usize, bytes: &[u8]) -> Result<&[u8], LexFault>
    ensures { GivesTokens (λ rest. rest.now) result (slash_at at bytes.now) }
{
    match bytes {
        [b'/', line @ ..] => Ok(split_front(Class::LineBytes, line).1),
        [b'*', body @ ..] => match behind_close(body) {
            Some(rest) => Ok(rest),
            None => Err(LexFault::refused(LexCode::OpenComment, at)),
        },
        _ => Err(LexFault::refused(LexCode::BadChar, at)),
    }
}

/// A piece of the file: a token, or a blank or a comment, which are none; and the bytes behind it.
type Piece<'a> = (Option<TokenKind>, &'a [u8]);

/// The piece at the front of the bytes, of which the first stands at offset `at`.
#[tactic(auto, unfolding(crate::specs::Reading::piece_at, crate::specs::Reading::piece_of))]
fn piece_at(alloc: Global, at: usize, bytes: &[u8]) -> Result<Piece<'_>, LexFault>
    requires some { 0 < length bytes.now }
    requires fits { at + length bytes.now < 2 ^ 64 }
    ensures { GivesTokens (λ piece. (piece.0, piece.1.now)) result (piece_at at bytes.now) }
{
    let first = bytes[0];
    let behind = &bytes[1..];
    let (kind, rest) = match lead_of(first) {
        Lead::Blank => return Ok((None, behind)),
        Lead::Hash => return Ok((None, split_front(Class::LineBytes, behind).1)),
        Lead::Slash => return Ok((None, slash_at(at, behind)?)),
        Lead::Quote => text_at(alloc, at, first, behind)?,
        Lead::Dollar => var_at(alloc, at, behind)?,
        Lead::Digit => run_at(at, bytes)?,
        Lead::Letter => word_at(alloc, bytes)?,
        Lead::Other => match mark_at(first, behind) {
            Some((mark, rest)) => (TokenKind::Mark(mark), rest),
            None => return Err(LexFault::refused(LexCode::BadChar, at)),
        },
    };
    Ok((Some(kind), rest))
}

/// Adds the token that a piece is, if it is one.
fn keep(
    tokens: &mut Vec<Token>,
    kind: Option<TokenKind>,
    at: usize,
    len: usize,
) -> Result<(), LexFault>
    ensures ok { OnOk result (tokens.new.items ≡ tokens.old.items ++ kept at len kind) }
    ensures err { IfErr result (λ fault. fault ≡ LexFault.NoMemory) }
{
    if let Some(kind) = kind {
        tokens.push(Token { kind, at, len })?;
    }
    Ok(())
}

/// The tokens of a file, in order, or the fault that stands first in it.
pub fn lex(alloc: Global, bytes: &[u8]) -> Result<Seq<Token>, LexFault>
    // The bytes are these tokens, parted by blanks and comments; or tokens stand up to the fault.
    ensures tokens { IfOk result (λ tokens. AreTokens tokens bytes.now) }
    ensures refused { IfErr result (λ fault. IsFirstFault fault bytes.now) }

    // The same, as a function of the bytes.
    ensures read { GivesTokens (λ tokens. tokens) result (lexed bytes.now) }
{
    let mut tokens = Vec::new(alloc);
    let mut rest = bytes;
    while !rest.is_empty() {
        let at = bytes.len() - rest.len();
        let (kind, behind) = piece_at(alloc, at, rest)?;
        keep(&mut tokens, kind, at, rest.len() - behind.len())?;
        rest = behind;
    }
    Ok(Seq::from_vec(tokens))
}
