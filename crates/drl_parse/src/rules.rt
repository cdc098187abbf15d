ghost use Rattle.std.specs.Prelude.{◌≡◌, option_map, Option, IfOk};
ghost use Rattle.drl_parse.specs.Reading.{actions_at, conditions_at};

use drl_action::Action;
use drl_condition::AskedPhrase;
use drl_grammar::{Attr, Piece, WrittenRule};
use drl_lex::{Mark, TokenKind};
use drl_phrase::{Name, Phrase, Punctuation, behind_word, many, optional};
use fx_base::{NoMemory, Seq, Text};
use std::alloc::Global;

/// The number of a rule's salience, with a minus or without.
pub(crate) struct Salience;

impl Phrase for Salience {
    type Tree = i64;

    ghost use Rattle.drl_parse.specs.Reading.{salience_at};

    ghost at = { salience_at };

    #[tactic(auto, unfolding(crate::specs::Reading::salience_at))]
    fn read(_alloc: Global, tokens: &[TokenKind]) -> Result<Option<(i64, &[TokenKind])>, NoMemory> {
        match tokens {
            [TokenKind::Number(number), rest @ ..] => Ok(Some((number.value(), rest))),
            [
                TokenKind::Mark(Mark::Minus),
                TokenKind::Number(number),
                rest @ ..,
            ] => Ok(Some((-number.value(), rest))),
            _ => Ok(None),
        }
    }
}

/// An attribute of a rule, with a comma behind it or without.
pub(crate) struct AttrLine;

impl Phrase for AttrLine {
    type Tree = Attr;

    ghost use Rattle.drl_parse.specs.Reading.{attr_at};

    ghost at = { attr_at };

    #[tactic(auto, unfolding(crate::specs::Reading::attr_at))]
    fn read(alloc: Global, tokens: &[TokenKind]) -> Result<Option<(Attr, &[TokenKind])>, NoMemory> {
        match tokens {
            [TokenKind::Word(word), TokenKind::Text(text), rest @ ..] => {
                if word.as_str() != "dialect" {
                    return Ok(None);
                }
                let dialect = text.clone()?;
                Ok(Some((Attr::Dialect(dialect), optional(Punctuation::Comma, rest))))
            }
            [TokenKind::Word(word), rest @ ..] => {
                if word.as_str() != "salience" {
                    return Ok(None);
                }
                match Salience::read(alloc, rest)? {
                    None => Ok(None),
                    Some((number, rest)) => {
                        Ok(Some((Attr::Salience(number), optional(Punctuation::Comma, rest))))
                    }
                }
            }
            _ => Ok(None),
        }
    }
}

// What stands behind the word `then`.
#[tactic(auto, unfolding(crate::specs::Reading::actions_at, drl_phrase::specs::Reading::ended))]
fn with_actions(
    alloc: Global,
    name: Text,
    attrs: Seq<Attr>,
    pieces: Seq<Piece>,
    tokens: &[TokenKind],
) -> Result<Option<(WrittenRule, &[TokenKind])>, NoMemory>
    ensures { IfOk result (λ found. option_map (λ f. (f.0, f.1.now)) found ≡ actions_at name attrs pieces tokens.now) }
{
    let (actions, rest) = many::<Action>(alloc, tokens)?;
    match behind_word("end", rest) {
        None => Ok(None),
        Some(rest) => Ok(Some((
            WrittenRule {
                name,
                attrs,
                pieces,
                actions,
            },
            rest,
        ))),
    }
}

// What stands behind the word `when`.
#[tactic(auto, unfolding(crate::specs::Reading::conditions_at))]
fn with_conditions(
    alloc: Global,
    name: Text,
    attrs: Seq<Attr>,
    tokens: &[TokenKind],
) -> Result<Option<(WrittenRule, &[TokenKind])>, NoMemory>
    ensures { IfOk result (λ found. option_map (λ f. (f.0, f.1.now)) found ≡ conditions_at name attrs tokens.now) }
{
    let (pieces, rest) = match AskedPhrase::read(alloc, tokens)? {
        None => return Ok(None),
        Some(found) => found,
    };
    match behind_word("then", rest) {
        None => Ok(None),
        Some(rest) => with_actions(alloc, name, attrs, pieces, rest),
    }
}

/// A rule behind its first word.
pub(crate) struct RuleLine;

impl Phrase for RuleLine {
    type Tree = WrittenRule;

    ghost use Rattle.drl_parse.specs.Reading.{rule_at};

    ghost at = { rule_at };

    #[tactic(auto, unfolding(crate::specs::Reading::rule_at))]
    fn read(
        alloc: Global,
        tokens: &[TokenKind],
    ) -> Result<Option<(WrittenRule, &[TokenKind])>, NoMemory> {
        let (name, rest) = match Name::read(alloc, tokens)? {
            None => return Ok(None),
            Some(found) => found,
        };
        let (attrs, rest) = many::<AttrLine>(alloc, rest)?;
        match behind_word("when", rest) {
            None => Ok(None),
            Some(rest) => with_conditions(alloc, name, attrs, rest),
        }
    }
}
