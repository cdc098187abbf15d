ghost use Rattle.std.specs.Prelude.{◌≡◌, ◌&&◌, ◌||◌, ◌++◌, [], ◌∷◌, ℕ, ℤ, nat_eq, IfOk, OnOk, OnErr};
ghost use Rattle.std.specs.List.Sorted.{IsPermutation};
ghost use Rattle.range_index.specs.Nodes.{leaves};
ghost use Rattle.range_index.specs.Ranges.{has_number, is_found, places_with};

use crate::hits::Hits;
use crate::node::{Node, put_tree};
use crate::placed::PlacedRange;
use fx_base::NoMemory;
use std::alloc::Global;
use std::marker::Model;

/// Ranges with their places, seen as a list. A range that is put in is looked at by each question, until all are put in their order and blocks over
/// them: from then on a question costs the logarithm for each range that it finds, and once more.
#[derive(Drop)]
pub struct RangeIndex {
    nodes: Vec<Node>,
}

impl Model for RangeIndex {
    ghost use Rattle.std.specs.Prelude.{List};
    ghost use Rattle.range_index.specs.Nodes.{leaves, AreBlocks};
    ghost use Rattle.range_index.specs.declared.placed.PlacedRange.{PlacedRange};

    ghost Value = { List PlacedRange };

    ghost view = { λ index. leaves index.nodes.items };

    ghost invariant = { λ index. AreBlocks index.nodes.items };
}

impl RangeIndex {
    /// No range. Takes no memory.
    pub fn new(alloc: Global) -> RangeIndex
        ensures { result ≡ [] }
    {
        RangeIndex {
            nodes: Vec::new(alloc),
        }
    }

    /// The index of these ranges, put in their order. It costs the logarithm for each.
    #[tactic(auto, using(crate::proofs::Finding::found_alike))]
    pub fn of(alloc: Global, mut ranges: Vec<PlacedRange>) -> Result<RangeIndex, NoMemory>
        ensures same { IfOk result (IsPermutation ranges.items) }
        ensures found { IfOk result (λ index. (number : ℤ) (place : ℕ) → is_found number index place ≡ is_found number ranges.items place) }
    {
        ranges.sort_unstable_by_key(|range| (range.least, range.most, range.place));
        let mut nodes = Vec::new(alloc);
        put_tree(&mut nodes, ranges.as_slice())?;
        Ok(RangeIndex { nodes })
    }

    /// Puts a range to the others.
    pub fn put(&mut self, range: PlacedRange) -> Result<(), NoMemory>
        ensures ok { OnOk result (self.new ≡ self.old ++ range ∷ []) }
        ensures found { OnOk result ((number : ℤ) (place : ℕ) → is_found number self.new place ≡ (is_found number self.old place || (has_number range number && nat_eq place range.place))) }
        ensures err { OnErr result (self.new ≡ self.old) }
    {
        self.nodes.push(Node::Range(range))?;
        Ok(())
    }

    /// Puts all ranges in their order. It costs the logarithm for each.
    pub fn settle(&mut self, alloc: Global) -> Result<(), NoMemory>
        ensures ok { OnOk result (IsPermutation self.old self.new) }
        ensures found { OnOk result ((number : ℤ) (place : ℕ) → is_found number self.new place ≡ is_found number self.old place) }
        ensures err { OnErr result (self.new ≡ self.old) }
    {
        *self = RangeIndex::of(alloc, ranges_of(alloc, &self.nodes)?)?;
        Ok(())
    }

    /// The places of the ranges that have the number. Takes no memory.
    pub fn hits(&self, number: i64) -> Hits
        ensures { result ≡ places_with number self.now }
    {
        Hits::new(self.nodes.as_slice(), number)
    }
}

// The ranges among these nodes.
fn ranges_of(alloc: Global, nodes: &[Node]) -> Result<Vec<PlacedRange>, NoMemory>
    ensures { IfOk result (λ ranges. ranges.items ≡ leaves nodes.now) }
{
    let mut ranges = Vec::new(alloc);
    for node in nodes {
        put_range(&mut ranges, node)?;
    }
    Ok(ranges)
}

fn put_range(ranges: &mut Vec<PlacedRange>, node: &Node) -> Result<(), NoMemory>
    ensures { OnOk result (ranges.new.items ≡ ranges.old.items ++ leaves (node.now ∷ [])) }
{
    match node {
        Node::Range(range) => {
            ranges.push(*range)?;
            Ok(())
        }
        Node::Block(_) => Ok(()),
    }
}
