ghost use Rattle.std.specs.Prelude.{◌≡◌, [], ◌∷◌, ◌++◌, OnOk, pos};
ghost use Rattle.drl_lex.specs.declared.token.TokenKind.TheVariants.{Word, Var, Number, Text, Mark as MarkToken};
ghost use Rattle.drl_show.specs.Canonical.{number_tokens};
ghost use Rattle.drl_show.specs.Texts.{added, escape, escaped, token_text};
ghost use Rattle.drl_lex.specs.Marks.{mark_text, rel_text};

use drl_lex::{Mark, Rel};
use fx_base::NoMemory;
use itoa::Buffer;

fn rel_bytes(rel: Rel) -> &'static [u8]
    ensures { result.now ≡ rel_text rel }
{
    match rel {
        Rel::Equal => b"==",
        Rel::NotEqual => b"!=",
        Rel::Less => b"<",
        Rel::LessOrEqual => b"<=",
        Rel::Greater => b">",
        Rel::GreaterOrEqual => b">=",
    }
}

fn mark_bytes(mark: Mark) -> &'static [u8]
    ensures { result.now ≡ mark_text mark }
{
    match mark {
        Mark::OpenParenthesis => b"(",
        Mark::CloseParenthesis => b")",
        Mark::OpenBrace => b"{",
        Mark::CloseBrace => b"}",
        Mark::OpenBracket => b"[",
        Mark::CloseBracket => b"]",
        Mark::Comma => b",",
        Mark::Semicolon => b";",
        Mark::Colon => b":",
        Mark::Dot => b".",
        Mark::At => b"@",
        Mark::Plus => b"+",
        Mark::Minus => b"-",
        Mark::Star => b"*",
        Mark::Assign => b"=",
        Mark::Comparison(rel) => rel_bytes(rel),
        Mark::Or => b"||",
        Mark::And => b"&&",
    }
}

/// Appends a space and the mark.
#[tactic(auto, unfolding(crate::specs::Texts::token_text))]
pub(crate) fn mark(out: &mut Vec<u8>, mark: Mark) -> Result<(), NoMemory>
    ensures { OnOk result (out.new.items ≡ added out.old.items (MarkToken mark ∷ [])) }
{
    out.push(b' ')?;
    out.extend_from_slice(mark_bytes(mark))?;
    Ok(())
}

/// Appends a space and the word.
#[tactic(auto, unfolding(crate::specs::Texts::token_text))]
pub(crate) fn word(out: &mut Vec<u8>, word: &str) -> Result<(), NoMemory>
    ensures { OnOk result (out.new.items ≡ added out.old.items (Word word.now ∷ [])) }
{
    out.push(b' ')?;
    out.extend_from_slice(word.as_bytes())?;
    Ok(())
}

/// Appends a space and the variable.
#[tactic(auto, unfolding(crate::specs::Texts::token_text))]
pub(crate) fn variable(out: &mut Vec<u8>, name: &str) -> Result<(), NoMemory>
    ensures { OnOk result (out.new.items ≡ added out.old.items (Var name.now ∷ [])) }
{
    out.extend_from_slice(b" $")?;
    out.extend_from_slice(name.as_bytes())?;
    Ok(())
}

#[tactic(auto, unfolding(crate::specs::Texts::token_text))]
fn natural(out: &mut Vec<u8>, number: u64) -> Result<(), NoMemory>
    ensures { OnOk result (out.new.items ≡ added out.old.items (Number number ∷ [])) }
{
    let mut digits = Buffer::new();
    out.push(b' ')?;
    out.extend_from_slice(digits.format(number).as_bytes())?;
    Ok(())
}

/// Appends the number, each of its tokens with a space before it.
pub(crate) fn number(out: &mut Vec<u8>, number: i64) -> Result<(), NoMemory>
    ensures { OnOk result (out.new.items ≡ added out.old.items (number_tokens number)) }
{
    if number < 0 {
        mark(out, Mark::Minus)?;
    }
    natural(out, number.unsigned_abs())
}

/// Appends a byte as it is written between double quotes.
#[tactic(auto, unfolding(crate::specs::Texts::escape))]
fn text_byte(out: &mut Vec<u8>, byte: u8) -> Result<(), NoMemory>
    ensures { OnOk result (out.new.items ≡ out.old.items ++ escape byte) }
{
    match byte {
        b'\\' => out.extend_from_slice(b"\\\\")?,
        b'"' => out.extend_from_slice(b"\\\"")?,
        b'\n' => out.extend_from_slice(b"\\n")?,
        b'\t' => out.extend_from_slice(b"\\t")?,
        b'\r' => out.extend_from_slice(b"\\r")?,
        _ => out.push(byte)?,
    }
    Ok(())
}

/// Appends the bytes of a text as they are written between double quotes.
fn text_bytes(out: &mut Vec<u8>, content: &[u8]) -> Result<(), NoMemory>
    ensures { OnOk result (out.new.items ≡ out.old.items ++ escaped content.now) }
{
    for byte in content {
        text_byte(out, *byte)?;
    }
    Ok(())
}

/// Appends a space and the text in double quotes.
#[tactic(auto, unfolding(crate::specs::Texts::token_text))]
pub(crate) fn text(out: &mut Vec<u8>, content: &str) -> Result<(), NoMemory>
    ensures { OnOk result (out.new.items ≡ added out.old.items (Text content.now ∷ [])) }
{
    out.extend_from_slice(b" \"")?;
    text_bytes(out, content.as_bytes())?;
    out.push(b'"')?;
    Ok(())
}
