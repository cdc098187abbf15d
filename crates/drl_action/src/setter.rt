ghost use Rattle.std.specs.Prelude.{◌≡◌, ◌≤◌, List, ℕ, IfOk, codes, take, length, IsTrue};
ghost use Rattle.std.specs.Str.{bytes_eq};
ghost use Rattle.drl_lex.specs.Bytes.{begins_word};
ghost use Rattle.drl_action.specs.Reading.{setter_at};

use drl_expr::is_ident_word;
use fx_base::{NoMemory, Text};
use std::alloc::Global;

fn begins_with_set(word: &[u8]) -> bool
    ensures set { result ≡ bytes_eq (take 3 word.now) (codes "set") }
    ensures long { IsTrue result → 3 ≤ length word.now }
{
    word.len() >= 3 && &word[..3] == b"set".as_slice()
}

#[tactic(auto, unfolding(drl_lex::specs::Bytes::begins_word))]
fn begins_word(b: u8) -> bool
    ensures { result ≡ begins_word b }
{
    b.is_ascii_alphabetic() || b == b'_'
}

/// The field that a setter names: `set`, and a name whose first letter is made small. `None` where the word is none.
#[tactic(auto, unfolding(crate::specs::Reading::setter_at))]
pub(crate) fn setter_field(alloc: Global, word: &str) -> Result<Option<Text>, NoMemory>
    ensures { IfOk result (λ found. found ≡ setter_at word.now) }
{
    let bytes = word.as_bytes();
    if !begins_with_set(bytes) {
        return Ok(None);
    }
    let [first, behind @ ..] = &bytes[3..] else {
        return Ok(None);
    };
    let first = first.to_ascii_lowercase();
    let mut name = Vec::with_capacity(alloc, behind.len() + 1)?;
    name.push(first)?;
    name.extend_from_slice(behind)?;
    let name = std::str::from_utf8(&name).unwrap();
    if begins_word(first) && is_ident_word(name) {
        Ok(Some(Text::new(alloc, name)?))
    } else {
        Ok(None)
    }
}
