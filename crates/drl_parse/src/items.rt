ghost use Rattle.std.specs.Prelude.{◌≡◌, option_map, Option, IfOk};
ghost use Rattle.drl_parse.specs.Reading.{declare_at, behind_item};

use crate::paths::{Path, star};
use crate::rules::RuleLine;
use crate::types::{EntryLine, TypeLine};
use crate::words::{ItemWord, word_of_item};
use drl_grammar::WrittenBody;
use drl_lex::{Mark, TokenKind};
use drl_phrase::{Phrase, Punctuation, optional};
use fx_base::NoMemory;
use std::alloc::Global;

// What stands behind the word `declare`: an entry point, if a minus stands second, else a type.
#[tactic(auto, unfolding(crate::specs::Reading::declare_at))]
fn declaration(
    alloc: Global,
    tokens: &[TokenKind],
) -> Result<Option<(WrittenBody, &[TokenKind])>, NoMemory>
    ensures { IfOk result (λ found. option_map (λ f. (f.0, f.1.now)) found ≡ declare_at tokens.now) }
{
    match tokens {
        [TokenKind::Word(_), TokenKind::Mark(Mark::Minus), ..] => {
            match EntryLine::read(alloc, tokens)? {
                None => Ok(None),
                Some(((name, lateness), rest)) => Ok(Some((
                    WrittenBody::Entry { name, lateness },
                    rest,
                ))),
            }
        }
        _ => match TypeLine::read(alloc, tokens)? {
            None => Ok(None),
            Some((tree, rest)) => Ok(Some((WrittenBody::Declare(tree), rest))),
        },
    }
}

// What stands behind the first word of an item.
#[tactic(auto, unfolding(crate::specs::Reading::behind_item))]
fn behind_first(
    alloc: Global,
    word: ItemWord,
    tokens: &[TokenKind],
) -> Result<Option<(WrittenBody, &[TokenKind])>, NoMemory>
    ensures { IfOk result (λ found. option_map (λ f. (f.0, f.1.now)) found ≡ behind_item word tokens.now) }
{
    match word {
        ItemWord::PackageWord => match Path::read(alloc, tokens)? {
            None => Ok(None),
            Some((path, rest)) => Ok(Some((
                WrittenBody::Package(path),
                optional(Punctuation::Semicolon, rest),
            ))),
        },
        ItemWord::ImportWord => match Path::read(alloc, tokens)? {
            None => Ok(None),
            Some((path, rest)) => {
                let (star, rest) = star(rest);
                Ok(Some((
                    WrittenBody::Import { path, star },
                    optional(Punctuation::Semicolon, rest),
                )))
            }
        },
        ItemWord::DialectWord => match tokens {
            [TokenKind::Text(text), rest @ ..] => {
                let dialect = text.clone()?;
                Ok(Some((
                    WrittenBody::Dialect(dialect),
                    optional(Punctuation::Semicolon, rest),
                )))
            }
            _ => Ok(None),
        },
        ItemWord::DeclareWord => declaration(alloc, tokens),
        ItemWord::RuleWord => match RuleLine::read(alloc, tokens)? {
            None => Ok(None),
            Some((rule, rest)) => Ok(Some((WrittenBody::Rule(rule), rest))),
        },
    }
}

/// An item of a file.
pub(crate) struct ItemLine;

impl Phrase for ItemLine {
    type Tree = WrittenBody;

    ghost use Rattle.drl_parse.specs.Reading.{item_at};

    ghost at = { item_at };

    #[tactic(auto, unfolding(crate::specs::Reading::item_at))]
    fn read(
        alloc: Global,
        tokens: &[TokenKind],
    ) -> Result<Option<(WrittenBody, &[TokenKind])>, NoMemory> {
        match tokens {
            [TokenKind::Word(word), rest @ ..] => match word_of_item(word.as_str()) {
                None => Ok(None),
                Some(word) => behind_first(alloc, word, rest),
            },
            _ => Ok(None),
        }
    }
}
