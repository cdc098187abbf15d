ghost use Rattle.std.specs.Prelude.{◌≡◌, [], option_map, Option, IfOk, IfSome, IfNone};
ghost use Rattle.drl_grammar.specs.declared.condition.CondTree.{CondTree as CondTree_data};
ghost use Rattle.drl_grammar.specs.Conditions.{IsCondition};
ghost use Rattle.drl_condition.specs.Reading.{form_at};

use crate::folds::{accumulate, number};
use crate::patterns::{SourcePhrase, group};
use crate::words::{Form, word_form};
use drl_grammar::CondTree;
use drl_lex::{Mark, TokenKind};
use drl_phrase::{Phrase, whole};
use fx_base::NoMemory;
use std::alloc::Global;

/// The form of the condition in front, by its first word.
#[tactic(auto, unfolding(crate::specs::Reading::form_at))]
fn form_of(tokens: &[TokenKind]) -> Form
    ensures { result ≡ form_at tokens.now }
{
    match tokens {
        [
            TokenKind::Var(_),
            TokenKind::Mark(Mark::Colon),
            TokenKind::Word(word),
            ..
        ] => {
            if word.as_str() == "Number" {
                Form::Number
            } else {
                Form::Pattern
            }
        }
        [TokenKind::Word(word), ..] => word_form(word.as_str()),
        _ => Form::Pattern,
    }
}

/// `source | ('not' | 'exists') group | folded`
pub struct ConditionPhrase;

impl Phrase for ConditionPhrase {
    type Tree = CondTree;

    ghost use Rattle.drl_condition.specs.Reading.{condition_at};

    ghost at = { condition_at };

    #[tactic(auto, unfolding(crate::specs::Reading::condition_at, crate::specs::Reading::formed_at))]
    fn read(
        alloc: Global,
        tokens: &[TokenKind],
    ) -> Result<Option<(CondTree, &[TokenKind])>, NoMemory> {
        match (form_of(tokens), tokens) {
            (Form::Pattern, _) => match SourcePhrase::read(alloc, tokens)? {
                None => Ok(None),
                Some((source, rest)) => Ok(Some((CondTree::Plain(source), rest))),
            },
            (Form::Number, _) => number(alloc, tokens),
            (Form::Negation, [_, rest @ ..]) => match group(alloc, rest)? {
                None => Ok(None),
                Some((source, rest)) => Ok(Some((CondTree::Negated(source), rest))),
            },
            (Form::Existence, [_, rest @ ..]) => match group(alloc, rest)? {
                None => Ok(None),
                Some((source, rest)) => Ok(Some((CondTree::Existing(source), rest))),
            },
            (Form::Accumulate, [_, rest @ ..]) => accumulate(alloc, rest),
            (_, []) => Ok(None),
        }
    }
}

/// The condition that all the tokens are; `None` where they are none. It takes one walk over the tokens.
pub fn condition(alloc: Global, tokens: &[TokenKind]) -> Result<Option<CondTree>, NoMemory>
    ensures found { IfOk result (λ found. IfSome found (λ tree. IsCondition tree tokens.now [])) }
    ensures none { IfOk result (λ found. IfNone found ((tree : CondTree_data) → IsCondition tree tokens.now [] → ⊥)) }
{
    whole::<ConditionPhrase>(alloc, tokens)
}
