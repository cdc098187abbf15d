ghost use Rattle.std.specs.Prelude.{◌≡◌, ◌++◌, IfOk, OnOk, codes};
ghost use Rattle.drl_show.specs.Canonical.{behind_word, item_word_shown, tokens_of_item};
ghost use Rattle.drl_show.specs.Shown.{shown};
ghost use Rattle.drl_show.specs.Texts.{added, joined};

use crate::items::{entry, star};
use crate::shapes::{Printed, write_parted};
use crate::tokens::text;
use drl_grammar::{Written, WrittenBody};
use drl_lex::Mark;
use fx_base::NoMemory;
use std::alloc::Global;

// The word that an item begins with.
fn first_word(body: &WrittenBody) -> &'static [u8]
    ensures { result.now ≡ item_word_shown body.now }
{
    match body {
        WrittenBody::Package(_) => b"package",
        WrittenBody::Import { .. } => b"import",
        WrittenBody::Dialect(_) => b"dialect",
        WrittenBody::Declare(_) | WrittenBody::Entry { .. } => b"declare",
        WrittenBody::Rule(_) => b"rule",
    }
}

// What stands behind the word.
#[tactic(auto, using(crate::proofs::Added::added_append))]
fn behind_first(out: &mut Vec<u8>, body: &WrittenBody) -> Result<(), NoMemory>
    ensures { OnOk result (out.new.items ≡ added out.old.items (behind_word body.now)) }
{
    match body {
        WrittenBody::Package(path) => write_parted(out, Mark::Dot, path.as_slice()),
        WrittenBody::Import { path, star: all } => {
            write_parted(out, Mark::Dot, path.as_slice())?;
            star(out, *all)
        }
        WrittenBody::Dialect(dialect) => text(out, dialect.as_str()),
        WrittenBody::Declare(declared) => declared.write(out),
        WrittenBody::Entry { name, lateness } => entry(out, name, lateness),
        WrittenBody::Rule(rule) => rule.write(out),
    }
}

// An item in a line of its own.
#[tactic(auto, using(crate::proofs::Added::line_is))]
fn line(out: &mut Vec<u8>, body: &WrittenBody) -> Result<(), NoMemory>
    ensures { OnOk result (out.new.items ≡ out.old.items ++ (joined (tokens_of_item body.now) ++ codes "\n")) }
{
    out.extend_from_slice(first_word(body))?;
    behind_first(out, body)?;
    out.push(b'\n')?;
    Ok(())
}

/// The text of a file: each item in a line of its own, its tokens with one space between two. Spans are in milliseconds.
/// It takes time in the length of the text; an expression takes stack in its height.
#[tactic(auto, unfolding(crate::specs::Shown::shown))]
pub fn show(alloc: Global, file: &Written) -> Result<Vec<u8>, NoMemory>
    ensures text { IfOk result (λ bytes. bytes.items ≡ shown file.now) }
{
    let mut out = Vec::new(alloc);
    for item in file.items.as_slice() {
        line(&mut out, &item.body)?;
    }
    Ok(out)
}
