ghost use Rattle.std.specs.Prelude.{◌≡◌, [], ◌∷◌, IfSome, IfNone};
ghost use Rattle.range_index.specs.Nodes.{leaves, AreBlocks};
ghost use Rattle.range_index.specs.Ranges.{places_with};

use crate::node::Node;
use std::marker::Model;

/// The places, still to be taken, of the ranges that have a number: seen as a list.
#[derive(Drop)]
pub struct Hits<'a> {
    rest: &'a [Node],
    number: i64,
}

impl<'a> Model for Hits<'a> {
    ghost use Rattle.std.specs.Prelude.{ℕ, List};
    ghost use Rattle.range_index.specs.Nodes.{leaves, AreBlocks};
    ghost use Rattle.range_index.specs.Ranges.{places_with};

    ghost Value = { List ℕ };

    ghost view = { λ hits. places_with hits.number (leaves hits.rest.now) };

    ghost invariant = { λ hits. AreBlocks hits.rest.now };
}

impl<'a> Hits<'a> {
    pub(crate) fn new(nodes: &'a [Node], number: i64) -> Hits<'a>
        requires { AreBlocks nodes.now }
        ensures { result ≡ places_with number (leaves nodes.now) }
    {
        Hits {
            rest: nodes,
            number,
        }
    }

    /// Takes the first place, where there is one. Takes no memory.
    pub fn next(&mut self) -> Option<usize>
        ensures some { IfSome result (λ place. self.old ≡ place ∷ self.new) }
        ensures none { IfNone result (self.old ≡ []) }
    {
        while let [node, behind @ ..] = self.rest {
            match node {
                Node::Range(range) => {
                    self.rest = behind;
                    if range.has(self.number) {
                        return Some(range.place);
                    }
                }
                Node::Block(block) => {
                    self.rest = block.onward(behind, self.number);
                }
            }
        }
        None
    }
}
