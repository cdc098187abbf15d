ghost use Rattle.std.specs.Prelude.{◌≡◌, ◌++◌, ◌∷◌, OnOk, List};
ghost use Rattle.drl_lex.specs.declared.token.TokenKind.{TokenKind as TokenKind_data};
ghost use Rattle.drl_lex.specs.declared.token.TokenKind.TheVariants.{Mark as MarkToken};
ghost use Rattle.drl_show.specs.Canonical.{each, parted, listed, maybe};
ghost use Rattle.drl_show.specs.Texts.{added};

use crate::tokens::mark;
use drl_lex::Mark;
use fx_base::NoMemory;

/// What is printed as tokens.
pub(crate) trait Printed {
    ghost tokens: { Self → List TokenKind_data };

    /// Appends the tokens, each with a space before it.
    fn write(&self, out: &mut Vec<u8>) -> Result<(), NoMemory>
        ensures { OnOk result (out.new.items ≡ added out.old.items (tokens self.now)) };
}

/// Appends each, one behind the other.
#[tactic(auto, using(crate::proofs::Added::added_append))]
pub(crate) fn write_each<T: Printed>(out: &mut Vec<u8>, items: &[T]) -> Result<(), NoMemory>
    ensures { OnOk result (out.new.items ≡ added out.old.items (each T.tokens items.now)) }
{
    for item in items {
        item.write(out)?;
    }
    Ok(())
}

// Appends each with the mark before it.
#[tactic(auto, using(crate::proofs::Added::added_append))]
fn write_behind<T: Printed>(out: &mut Vec<u8>, separator: Mark, items: &[T]) -> Result<(), NoMemory>
    ensures { OnOk result (out.new.items ≡ added out.old.items (each (λ y. MarkToken separator ∷ T.tokens y) items.now)) }
{
    for item in items {
        mark(out, separator)?;
        item.write(out)?;
    }
    Ok(())
}

/// Appends each, with the mark between two.
#[tactic(auto, using(crate::proofs::Added::added_append))]
pub(crate) fn write_parted<T: Printed>(
    out: &mut Vec<u8>,
    separator: Mark,
    items: &[T],
) -> Result<(), NoMemory>
    ensures { OnOk result (out.new.items ≡ added out.old.items (parted separator T.tokens items.now)) }
{
    match items {
        [] => Ok(()),
        [first, rest @ ..] => {
            first.write(out)?;
            write_behind(out, separator, rest)
        }
    }
}

/// Appends each, with commas between them, and a closing parenthesis.
#[tactic(auto, using(crate::proofs::Added::added_append))]
pub(crate) fn write_listed<T: Printed>(out: &mut Vec<u8>, items: &[T]) -> Result<(), NoMemory>
    ensures { OnOk result (out.new.items ≡ added out.old.items (listed T.tokens items.now)) }
{
    write_parted(out, Mark::Comma, items)?;
    mark(out, Mark::CloseParenthesis)
}

/// Appends it, where it is there.
pub(crate) fn write_maybe<T: Printed>(out: &mut Vec<u8>, item: &Option<T>) -> Result<(), NoMemory>
    ensures { OnOk result (out.new.items ≡ added out.old.items (maybe T.tokens item.now)) }
{
    match item {
        None => Ok(()),
        Some(item) => item.write(out),
    }
}
