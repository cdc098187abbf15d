ghost use Rattle.std.specs.Prelude.{◌≡◌};
ghost use Rattle.std.specs.List.{list_any};
ghost use Rattle.subrules.specs.Faults.{is_varied};

use crate::hierarchy::Hierarchy;
use drl_grammar::{CondTree, Piece};

// Whether a piece makes more of a rule than it says.
fn is_varied(types: &Hierarchy, piece: &Piece) -> bool
    ensures { result ≡ is_varied types.now piece.now }
{
    match piece {
        Piece::One(CondTree::Plain(source)) => types.has_subtypes(&source.ty),
        Piece::One(CondTree::Negated(source)) => types.has_subtypes(&source.ty),
        Piece::One(CondTree::Existing(_)) => false,
        Piece::One(CondTree::Folded { .. }) => false,
        Piece::Open => true,
        Piece::Or => true,
        Piece::Close => true,
    }
}

/// Whether one of the pieces does. Takes no memory.
pub(crate) fn any_varied(types: &Hierarchy, pieces: &[Piece]) -> bool
    ensures { result ≡ list_any (is_varied types.now) pieces.now }
{
    for piece in pieces {
        if is_varied(types, piece) {
            return true;
        }
    }
    false
}
