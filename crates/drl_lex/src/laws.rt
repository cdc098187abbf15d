ghost use Rattle.std.specs.Prelude.{◌≡◌, ◌↔◌, ℕ, List, Ok, Err};
ghost use Rattle.drl_lex.specs.Faults.{IsRefused};
ghost use Rattle.drl_lex.specs.Reading.{lexed};
ghost use Rattle.drl_lex.specs.Tokens.{AreTokens};
ghost use Rattle.drl_lex.specs.declared.fault.LexCode.{LexCode as LexCodeData};
ghost use Rattle.drl_lex.specs.declared.token.Token.{Token as TokenData};

/// A law of the definitions: every list of bytes is one list of tokens or has one first fault, never both, and
/// `lexed` gives it. The call does nothing.
pub fn lexed_is_exact(bytes: &[u8])
    ensures tokens { (tokens : List TokenData) → AreTokens tokens bytes.now ↔ (lexed bytes.now ≡ Ok tokens) }
    ensures refused { (code : LexCodeData) (place : ℕ)
        → IsRefused code place bytes.now ↔ (lexed bytes.now ≡ Err (code, place)) }
{}
