ghost use Rattle.std.specs.Prelude.{◌≡◌, ◌∷◌, option_map, Option, IfOk};
ghost use Rattle.drl_parse.specs.Reading.{path_at, path_star_at};

use drl_expr::is_ident_word;
use drl_lex::{Mark, TokenKind};
use drl_phrase::{Phrase, many};
use fx_base::{NoMemory, Seq, Text};
use std::alloc::Global;

/// A dot and a name.
pub(crate) struct Step;

impl Phrase for Step {
    type Tree = Text;

    ghost use Rattle.drl_parse.specs.Reading.{step_at};

    ghost at = { step_at };

    #[tactic(auto, unfolding(crate::specs::Reading::step_at, drl_phrase::specs::Reading::ident))]
    fn read(
        _alloc: Global,
        tokens: &[TokenKind],
    ) -> Result<Option<(Text, &[TokenKind])>, NoMemory> {
        match tokens {
            [TokenKind::Mark(Mark::Dot), TokenKind::Word(name), rest @ ..]
                if is_ident_word(name.as_str()) => Ok(Some((name.clone()?, rest))),
            _ => Ok(None),
        }
    }
}

// The names, this one before the others.
fn with_first(first: Text, names: Seq<Text>) -> Result<Seq<Text>, NoMemory>
    ensures { IfOk result (λ path. path ≡ first ∷ names) }
{
    let mut path = names.into_vec();
    path.insert(0, first)?;
    Ok(Seq::from_vec(path))
}

/// A name with dots.
pub(crate) struct Path;

impl Phrase for Path {
    type Tree = Seq<Text>;

    ghost use Rattle.drl_parse.specs.Reading.{path_at};

    ghost at = { path_at };

    #[tactic(auto, unfolding(crate::specs::Reading::path_at, drl_phrase::specs::Reading::ident))]
    fn read(
        alloc: Global,
        tokens: &[TokenKind],
    ) -> Result<Option<(Seq<Text>, &[TokenKind])>, NoMemory> {
        match tokens {
            [TokenKind::Word(first), rest @ ..] if is_ident_word(first.as_str()) => {
                let (names, rest) = many::<Step>(alloc, rest)?;
                Ok(Some((with_first(first.clone()?, names)?, rest)))
            }
            _ => Ok(None),
        }
    }
}

/// Whether a dot and a star stand there, and the tokens behind them.
#[tactic(auto, unfolding(crate::specs::Reading::path_star_at))]
pub(crate) fn star(tokens: &[TokenKind]) -> (bool, &[TokenKind])
    ensures { (result.0, result.1.now) ≡ path_star_at tokens.now }
{
    match tokens {
        [
            TokenKind::Mark(Mark::Dot),
            TokenKind::Mark(Mark::Star),
            rest @ ..,
        ] => (true, rest),
        _ => (false, tokens),
    }
}
