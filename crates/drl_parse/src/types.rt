ghost use Rattle.std.specs.Prelude.{◌≡◌, option_map, Option, IfOk};
ghost use Rattle.drl_parse.specs.Reading.{behind_meta, behind_point};

use crate::words::{MetaWord, role_of, word_of_meta};
use drl_expr::is_ident_word;
use drl_grammar::{Meta, WrittenType};
use drl_lex::{Mark, TokenKind};
use drl_phrase::{Name, Phrase, Punctuation, Span, behind, behind_word, many, maybe};
use fx_base::{NoMemory, Text};
use std::alloc::Global;

// What stands behind the word of an annotation.
#[tactic(auto, unfolding(crate::specs::Reading::behind_meta, drl_phrase::specs::Reading::ident, drl_phrase::specs::Reading::closed))]
fn behind_meta_word(
    alloc: Global,
    word: MetaWord,
    tokens: &[TokenKind],
) -> Result<Option<(Meta, &[TokenKind])>, NoMemory>
    ensures { IfOk result (λ found. option_map (λ f. (f.0, f.1.now)) found ≡ behind_meta word tokens.now) }
{
    match (word, tokens) {
        (
            MetaWord::RoleWord,
            [
                TokenKind::Mark(Mark::OpenParenthesis),
                TokenKind::Word(role),
                TokenKind::Mark(Mark::CloseParenthesis),
                rest @ ..,
            ],
        ) => match role_of(role.as_str()) {
            None => Ok(None),
            Some(event) => Ok(Some((Meta::Role(event), rest))),
        },
        (
            MetaWord::TimestampWord,
            [
                TokenKind::Mark(Mark::OpenParenthesis),
                TokenKind::Word(field),
                TokenKind::Mark(Mark::CloseParenthesis),
                rest @ ..,
            ],
        ) => {
            if !is_ident_word(field.as_str()) {
                return Ok(None);
            }
            Ok(Some((Meta::Timestamp(field.clone()?), rest)))
        }
        (
            MetaWord::DurationWord,
            [
                TokenKind::Mark(Mark::OpenParenthesis),
                TokenKind::Word(field),
                TokenKind::Mark(Mark::CloseParenthesis),
                rest @ ..,
            ],
        ) => {
            if !is_ident_word(field.as_str()) {
                return Ok(None);
            }
            Ok(Some((Meta::Duration(field.clone()?), rest)))
        }
        (MetaWord::ExpiresWord, [TokenKind::Mark(Mark::OpenParenthesis), inside @ ..]) => {
            let (span, rest) = match Span::read(alloc, inside)? {
                None => return Ok(None),
                Some(found) => found,
            };
            match behind(Punctuation::CloseParenthesis, rest) {
                None => Ok(None),
                Some(rest) => Ok(Some((Meta::Expires(span), rest))),
            }
        }
        (MetaWord::ReferenceWord, rest) => Ok(Some((Meta::Reference, rest))),
        _ => Ok(None),
    }
}

/// An annotation of a type.
pub(crate) struct MetaLine;

impl Phrase for MetaLine {
    type Tree = Meta;

    ghost use Rattle.drl_parse.specs.Reading.{meta_at};

    ghost at = { meta_at };

    #[tactic(auto, unfolding(crate::specs::Reading::meta_at))]
    fn read(alloc: Global, tokens: &[TokenKind]) -> Result<Option<(Meta, &[TokenKind])>, NoMemory> {
        match tokens {
            [TokenKind::Mark(Mark::At), TokenKind::Word(word), rest @ ..] => match word_of_meta(
                word.as_str(),
            ) {
                None => Ok(None),
                Some(word) => behind_meta_word(alloc, word, rest),
            },
            _ => Ok(None),
        }
    }
}

/// A field of a type, and the word of its kind.
pub(crate) struct FieldLine;

impl Phrase for FieldLine {
    type Tree = (Text, Text);

    ghost use Rattle.drl_parse.specs.Reading.{field_at};

    ghost at = { field_at };

    #[tactic(auto, unfolding(crate::specs::Reading::field_at, drl_phrase::specs::Reading::ident))]
    fn read(
        _alloc: Global,
        tokens: &[TokenKind],
    ) -> Result<Option<((Text, Text), &[TokenKind])>, NoMemory> {
        match tokens {
            [
                TokenKind::Word(name),
                TokenKind::Mark(Mark::Colon),
                TokenKind::Word(kind),
                rest @ ..,
            ] if is_ident_word(name.as_str()) && is_ident_word(kind.as_str()) => {
                Ok(Some(((name.clone()?, kind.clone()?), rest)))
            }
            _ => Ok(None),
        }
    }
}

/// The type that a type extends.
pub(crate) struct Parent;

impl Phrase for Parent {
    type Tree = Text;

    ghost use Rattle.drl_parse.specs.Reading.{parent_at};

    ghost at = { parent_at };

    #[tactic(auto, unfolding(crate::specs::Reading::parent_at, drl_phrase::specs::Reading::ident))]
    fn read(
        _alloc: Global,
        tokens: &[TokenKind],
    ) -> Result<Option<(Text, &[TokenKind])>, NoMemory> {
        match tokens {
            [TokenKind::Word(extends), TokenKind::Word(name), rest @ ..]
                if extends.as_str() == "extends" && is_ident_word(name.as_str()) => {
                Ok(Some((name.clone()?, rest)))
            }
            _ => Ok(None),
        }
    }
}

/// A type behind the word `declare`.
pub(crate) struct TypeLine;

impl Phrase for TypeLine {
    type Tree = WrittenType;

    ghost use Rattle.drl_parse.specs.Reading.{type_at};

    ghost at = { type_at };

    #[tactic(auto, unfolding(crate::specs::Reading::type_at, drl_phrase::specs::Reading::ident, drl_phrase::specs::Reading::ended))]
    fn read(
        alloc: Global,
        tokens: &[TokenKind],
    ) -> Result<Option<(WrittenType, &[TokenKind])>, NoMemory> {
        match tokens {
            [TokenKind::Word(name), rest @ ..] if is_ident_word(name.as_str()) => {
                let (parent, rest) = maybe::<Parent>(alloc, rest)?;
                let (metas, rest) = many::<MetaLine>(alloc, rest)?;
                let (fields, rest) = many::<FieldLine>(alloc, rest)?;
                let rest = match behind_word("end", rest) {
                    None => return Ok(None),
                    Some(rest) => rest,
                };
                let name = name.clone()?;
                Ok(Some((
                    WrittenType {
                        name,
                        parent,
                        metas,
                        fields,
                    },
                    rest,
                )))
            }
            _ => Ok(None),
        }
    }
}

/// How late events of an entry point may come, in milliseconds.
pub(crate) struct Lateness;

impl Phrase for Lateness {
    type Tree = i64;

    ghost use Rattle.drl_parse.specs.Reading.{lateness_at};

    ghost at = { lateness_at };

    #[tactic(auto, unfolding(crate::specs::Reading::lateness_at, drl_phrase::specs::Reading::closed))]
    fn read(alloc: Global, tokens: &[TokenKind]) -> Result<Option<(i64, &[TokenKind])>, NoMemory> {
        match tokens {
            [
                TokenKind::Mark(Mark::At),
                TokenKind::Word(word),
                TokenKind::Mark(Mark::OpenParenthesis),
                inside @ ..,
            ] if word.as_str() == "lateness" => {
                let (span, rest) = match Span::read(alloc, inside)? {
                    None => return Ok(None),
                    Some(found) => found,
                };
                match behind(Punctuation::CloseParenthesis, rest) {
                    None => Ok(None),
                    Some(rest) => Ok(Some((span, rest))),
                }
            }
            _ => Ok(None),
        }
    }
}

// What stands behind the words of an entry point.
#[tactic(auto, unfolding(crate::specs::Reading::behind_point, drl_phrase::specs::Reading::ended))]
fn behind_point(
    alloc: Global,
    tokens: &[TokenKind],
) -> Result<Option<((Text, Option<i64>), &[TokenKind])>, NoMemory>
    ensures { IfOk result (λ found. option_map (λ f. (f.0, f.1.now)) found ≡ behind_point tokens.now) }
{
    let (name, rest) = match Name::read(alloc, tokens)? {
        None => return Ok(None),
        Some(found) => found,
    };
    let (lateness, rest) = maybe::<Lateness>(alloc, rest)?;
    match behind_word("end", rest) {
        None => Ok(None),
        Some(rest) => Ok(Some(((name, lateness), rest))),
    }
}

/// An entry point behind the word `declare`.
pub(crate) struct EntryLine;

impl Phrase for EntryLine {
    type Tree = (Text, Option<i64>);

    ghost use Rattle.drl_parse.specs.Reading.{entry_at};

    ghost at = { entry_at };

    #[tactic(auto, unfolding(crate::specs::Reading::entry_at))]
    fn read(
        alloc: Global,
        tokens: &[TokenKind],
    ) -> Result<Option<((Text, Option<i64>), &[TokenKind])>, NoMemory> {
        match tokens {
            [
                TokenKind::Word(entry),
                TokenKind::Mark(Mark::Minus),
                TokenKind::Word(point),
                rest @ ..,
            ] if entry.as_str() == "entry" && point.as_str() == "point" => {
                behind_point(alloc, rest)
            }
            _ => Ok(None),
        }
    }
}
