ghost use Rattle.std.specs.Prelude.{◌≡◌, ◌+◌, ◌<◌, ◌≤◌, length, option_map, IfSome};
ghost use Rattle.drl_grammar.specs.Files.{opens_block, begins_item, ends_block, count_before, extent};
ghost use Rattle.drl_parse.specs.Items.{first_item};

use drl_lex::TokenKind;

#[tactic(auto, unfolding(drl_grammar::specs::Files::opens_block))]
fn is_block_start(token: &TokenKind) -> bool
    ensures { result ≡ opens_block token.now }
{
    match token {
        TokenKind::Word(w) => w.as_str() == "declare" || w.as_str() == "rule",
        _ => false,
    }
}

#[tactic(auto, unfolding(drl_grammar::specs::Files::ends_block))]
fn is_block_end(token: &TokenKind) -> bool
    ensures { result ≡ ends_block token.now }
{
    match token {
        TokenKind::Word(w) => w.as_str() == "end",
        _ => false,
    }
}

#[tactic(auto, unfolding(drl_grammar::specs::Files::begins_item))]
fn is_item_start(token: &TokenKind) -> bool
    ensures { result ≡ begins_item token.now }
{
    match token {
        TokenKind::Word(w) => {
            w.as_str() == "package"
                || w.as_str() == "import"
                || w.as_str() == "dialect"
                || w.as_str() == "declare"
                || w.as_str() == "rule"
        }
        _ => false,
    }
}

fn before_end(tokens: &[TokenKind]) -> usize
    ensures { result ≡ count_before ends_block tokens.now }
{
    tokens
        .iter()
        .take_while(|token| !is_block_end(token))
        .count()
}

fn before_item(tokens: &[TokenKind]) -> usize
    ensures { result ≡ count_before begins_item tokens.now }
{
    tokens
        .iter()
        .take_while(|token| !is_item_start(token))
        .count()
}

// How many of the tokens behind an item's first one belong to it.
#[tactic(auto, unfolding(drl_grammar::specs::Files::extent))]
fn extent_of(first: &TokenKind, behind: &[TokenKind]) -> usize
    ensures len { result ≡ extent first.now behind.now }
    ensures within { result ≤ length behind.now }
{
    if is_block_start(first) {
        return (before_end(behind) + 1).min(behind.len());
    }
    before_item(behind)
}

/// The tokens of the first item, and what follows it.
#[tactic(auto, using(crate::proofs::ItemTurns::cut_at), unfolding(crate::specs::Items::first_item))]
pub(crate) fn split_item(tokens: &[TokenKind]) -> Option<(&[TokenKind], &[TokenKind])>
    ensures parts { option_map (λ parts. (parts.0.now, parts.1.now)) result ≡ first_item tokens.now }
    ensures some { IfSome result (λ parts. 0 < length parts.0.now) }
    ensures all { IfSome result (λ parts. length parts.0.now + length parts.1.now ≡ length tokens.now) }
{
    let [first, behind @ ..] = tokens else {
        return None;
    };
    Some(tokens.split_at(extent_of(first, behind) + 1))
}
