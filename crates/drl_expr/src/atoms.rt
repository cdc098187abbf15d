ghost use Rattle.std.specs.Prelude.{◌≡◌, option_map, Option, IfOk, IfSome};
ghost use Rattle.drl_expr.specs.Reading.{atom_at};

use crate::measured::{Measured, leaf};
use crate::words::is_ident_word;
use crate::{LitTree, Node};
use drl_lex::{Mark, TokenKind};
use fx_base::NoMemory;

/// The literal or the variable at the front.
#[tactic(auto, unfolding(crate::specs::Reading::atom_at))]
pub(crate) fn atom(tokens: &[TokenKind]) -> Result<Option<(Measured, &[TokenKind])>, NoMemory>
    ensures reads { IfOk result (λ found. option_map (λ f. (f.0.tree, f.1.now)) found ≡ atom_at tokens.now) }
    ensures high { IfOk result (λ found. IfSome found (λ f. f.0.height ≡ 1)) }
{
    let (node, rest) = match tokens {
        [TokenKind::Number(number), rest @ ..] => {
            (Node::Lit(LitTree::Int(number.value())), rest)
        }
        [TokenKind::Text(text), rest @ ..] => (Node::Lit(LitTree::Text(text.clone()?)), rest),
        [TokenKind::Word(word), rest @ ..] if word.as_str() == "true" => {
            (Node::Lit(LitTree::Bool(true)), rest)
        }
        [TokenKind::Word(word), rest @ ..] if word.as_str() == "false" => {
            (Node::Lit(LitTree::Bool(false)), rest)
        }
        [
            TokenKind::Var(var),
            TokenKind::Mark(Mark::Dot),
            TokenKind::Word(field),
            rest @ ..,
        ] if is_ident_word(field.as_str()) => (Node::VarField(var.clone()?, field.clone()?), rest),
        [TokenKind::Var(_), TokenKind::Mark(Mark::Dot), ..] => return Ok(None),
        [TokenKind::Var(var), rest @ ..] => (Node::Var(var.clone()?), rest),
        _ => return Ok(None),
    };
    Ok(Some((leaf(node), rest)))
}
