ghost use Rattle.std.specs.Prelude.{◌≡◌, IfOk};
ghost use Rattle.drl_lex.specs.Kinds.{kinds, starts};

use crate::{Token, TokenKind};
use fx_base::{NoMemory, Seq};
use std::alloc::Global;

/// What the tokens say and the offset at which each begins, as two lists of one length: a grammar is matched on the
/// first alone.
pub fn kinds_and_starts(
    alloc: Global,
    tokens: Seq<Token>,
) -> Result<(Seq<TokenKind>, Seq<usize>), NoMemory>
    ensures kinds { IfOk result (λ parts. parts.0 ≡ kinds tokens) }
    ensures starts { IfOk result (λ parts. parts.1 ≡ starts tokens) }
{
    let tokens = tokens.into_vec();
    let mut said = Vec::with_capacity(alloc, tokens.len())?;
    let mut offsets = Vec::with_capacity(alloc, tokens.len())?;
    for Token { kind, at, len: _ } in tokens {
        said.push(kind)?;
        offsets.push(at)?;
    }
    Ok((Seq::from_vec(said), Seq::from_vec(offsets)))
}
