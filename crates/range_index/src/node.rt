ghost use Rattle.std.specs.Prelude.{◌≡◌, ◌≤◌, ◌<◌, ◌+◌, ◌*◌, ◌≤ℤ◌, ◌∷◌, ◌++◌, length, List, OnOk};
ghost use Rattle.range_index.specs.Nodes.{block_has, leaves, AreBlocks, Bounds, IsTreeOf};
ghost use Rattle.range_index.specs.Ranges.{places_with};
ghost use Rattle.range_index.specs.declared.node.Node.{Node as NodeData};
ghost use Rattle.range_index.specs.declared.node.Node.TheVariants.{Block as BlockNode};

use crate::placed::PlacedRange;
use fx_base::NoMemory;

/// A node of the tree over ranges, which stands in front of what is below it: a range, or a block.
#[derive(Clone, Copy)]
pub(crate) enum Node {
    Range(PlacedRange),
    Block(Block),
}

/// What is below a node: so many nodes, which stand behind it, and all their ranges from the least to the most number.
#[derive(Clone, Copy)]
pub(crate) struct Block {
    pub(crate) least: i64,
    pub(crate) most: i64,
    pub(crate) below: usize,
}

impl Block {
    // Whether a range below may have the number.
    fn may_have(&self, number: i64) -> bool
        ensures { result ≡ block_has self.now number }
    {
        self.least <= number && number <= self.most
    }

    // The block with the bounds that the range needs besides.
    fn with(self, range: &PlacedRange) -> Block
        ensures least { (result.least ≤ℤ self.least) × (result.least ≤ℤ range.now.least) }
        ensures most { (self.most ≤ℤ result.most) × (range.now.most ≤ℤ result.most) }
        ensures below { result.below ≡ self.below }
    {
        Block {
            least: self.least.min(range.least),
            most: self.most.max(range.most),
            below: self.below,
        }
    }

    /// Of the nodes behind this one those with which a search for a number goes on. Takes no memory.
    pub(crate) fn onward<'n>(&self, behind: &'n [Node], number: i64) -> &'n [Node]
        requires { AreBlocks (BlockNode self.now ∷ behind.now) }
        ensures places { places_with number (leaves result.now) ≡ places_with number (leaves behind.now) }
        ensures blocks { AreBlocks result.now }
        ensures fewer { length result.now ≤ length behind.now }
    {
        if self.may_have(number) {
            return behind;
        }
        let (_, past) = behind.split_at(self.below);
        past
    }
}

// The block over ranges that are two at least, with the nodes that their two halves become.
fn block_over(ranges: &[PlacedRange]) -> Block
    requires { 1 < length ranges.now }
    ensures bounds { Bounds result ranges.now }
    ensures below { result.below + 2 ≡ 2 * length ranges.now }
{
    let mut block = Block {
        least: i64::MAX,
        most: i64::MIN,
        below: 2 * (ranges.len() - 1),
    };
    for range in ranges {
        block = block.with(range);
    }
    block
}

/// Puts the tree over these ranges behind the other nodes. It costs the logarithm for each range.
pub(crate) fn put_tree(nodes: &mut Vec<Node>, ranges: &[PlacedRange]) -> Result<(), NoMemory>
    ensures { OnOk result ((tree : List NodeData) × (nodes.new.items ≡ nodes.old.items ++ tree) × IsTreeOf ranges.now tree) }
{
    match ranges {
        [] => Ok(()),
        [range] => {
            nodes.push(Node::Range(*range))?;
            Ok(())
        }
        _ => {
            let (front, behind) = ranges.split_at(ranges.len() / 2);
            nodes.push(Node::Block(block_over(ranges)))?;
            put_tree(nodes, front)?;
            put_tree(nodes, behind)
        }
    }
}
