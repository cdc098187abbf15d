ghost use Rattle.std.specs.Prelude.{◌≡◌, ◌++◌, ◌∷◌, ◌-◌, [], length, take, map, slice_get, IfOk, OnOk};
ghost use Rattle.drl_grammar.specs.declared.condition.CondTree.TheVariants.{Plain as PlainTree, Negated as NegatedTree};
ghost use Rattle.subrules.specs.Hierarchy.{kinds_of};
ghost use Rattle.std.specs.List.{flat_map};
ghost use Rattle.subrules.specs.Ways.{conditions_of, each_behind, times, over_type as pattern_over, choices, begun, all_ways, asks, closed_in, taken, walked, at_begin, ways_of};

use crate::hierarchy::Hierarchy;
use crate::kinds::kinds;
use crate::varied::any_varied;
use drl_grammar::{CondTree, Piece, SourceTree};
use fx_base::{Copies, NoMemory, Seq, Text};
use std::alloc::Global;

/// Alternatives on the way from the first to the last: the ways of those that are done, and of what has been asked for so far in the
/// one that is open.
#[derive(Drop)]
pub(crate) struct Alternatives {
    pub(crate) done: Seq<Seq<CondTree>>,
    pub(crate) here: Seq<Seq<CondTree>>,
}

/// How far a walk over the pieces of a rule is: the alternatives that it is in, the innermost and those around them, the outermost
/// first.
#[derive(Drop)]
pub(crate) struct Walk {
    pub(crate) inner: Alternatives,
    pub(crate) outer: Seq<Alternatives>,
}

// The way in which nothing is asked for.
fn free_way(alloc: Global) -> Result<Seq<Seq<CondTree>>, NoMemory>
    ensures { IfOk result (λ ways. ways ≡ [] ∷ []) }
{
    let mut ways = Vec::new(alloc);
    ways.push(Seq::from_vec(Vec::new(alloc)))?;
    Ok(Seq::from_vec(ways))
}

fn begin(alloc: Global) -> Result<Alternatives, NoMemory>
    ensures { IfOk result (λ a. a ≡ begun) }
{
    let here = free_way(alloc)?;
    let done = Seq::from_vec(Vec::new(alloc));
    Ok(Alternatives { done, here })
}

// A way of one condition.
fn single(alloc: Global, condition: CondTree) -> Result<Seq<CondTree>, NoMemory>
    ensures { IfOk result (λ way. way ≡ condition ∷ []) }
{
    let mut way = Vec::with_capacity(alloc, 1)?;
    way.push(condition)?;
    Ok(Seq::from_vec(way))
}

// The same pattern on the type of this name.
fn over_type(alloc: Global, source: &SourceTree, name: &Text) -> Result<SourceTree, NoMemory>
    ensures { IfOk result (λ made. made ≡ pattern_over source.now name.now) }
{
    let mut made = source.copy(alloc)?;
    made.ty = name.copy(alloc)?;
    Ok(made)
}

// A way for each of these types.
fn ways_over(
    alloc: Global,
    source: &SourceTree,
    names: &[Text],
) -> Result<Vec<Seq<CondTree>>, NoMemory>
    ensures { IfOk result (λ ways. ways.items ≡ map (λ name. PlainTree (pattern_over source.now name) ∷ []) names.now) }
{
    let mut ways = Vec::with_capacity(alloc, names.len())?;
    for name in names {
        let pattern = over_type(alloc, source, name)?;
        ways.push(single(alloc, CondTree::Plain(pattern))?)?;
    }
    Ok(ways)
}

// A `not` for each of these types.
fn all_negated(
    alloc: Global,
    source: &SourceTree,
    names: &[Text],
) -> Result<Vec<CondTree>, NoMemory>
    ensures { IfOk result (λ way. way.items ≡ map (λ name. NegatedTree (pattern_over source.now name)) names.now) }
{
    let mut way = Vec::with_capacity(alloc, names.len())?;
    for name in names {
        way.push(CondTree::Negated(over_type(alloc, source, name)?))?;
    }
    Ok(way)
}

/// The ways of a condition.
pub(crate) fn choices_of(
    alloc: Global,
    types: &Hierarchy,
    condition: &CondTree,
) -> Result<Vec<Seq<CondTree>>, NoMemory>
    ensures { IfOk result (λ ways. ways.items ≡ choices types.now condition.now) }
{
    match condition {
        CondTree::Plain(source) => {
            let kinds = kinds(alloc, types, &source.ty)?;
            ways_over(alloc, source, &kinds)
        }
        CondTree::Negated(source) => {
            let kinds = kinds(alloc, types, &source.ty)?;
            let way = all_negated(alloc, source, &kinds)?;
            let mut ways = Vec::with_capacity(alloc, 1)?;
            ways.push(Seq::from_vec(way))?;
            Ok(ways)
        }
        CondTree::Existing(_) | CondTree::Folded { .. } => {
            let way = single(alloc, condition.copy(alloc)?)?;
            let mut ways = Vec::with_capacity(alloc, 1)?;
            ways.push(way)?;
            Ok(ways)
        }
    }
}

// The conditions of a way, and behind them those of another one.
fn joined(
    alloc: Global,
    first: &Seq<CondTree>,
    second: &Seq<CondTree>,
) -> Result<Seq<CondTree>, NoMemory>
    ensures { IfOk result (λ way. way ≡ first.now ++ second.now) }
{
    let mut way = first.copy(alloc)?.into_vec();
    for condition in second.as_slice() {
        way.push(condition.copy(alloc)?)?;
    }
    Ok(Seq::from_vec(way))
}

// Adds a way with each of the second ones behind it.
#[tactic(auto, unfolding(crate::specs::Ways::each_behind))]
fn add_joined(
    alloc: Global,
    ways: &mut Vec<Seq<CondTree>>,
    first: &Seq<CondTree>,
    seconds: &[Seq<CondTree>],
) -> Result<(), NoMemory>
    ensures { OnOk result (ways.new.items ≡ ways.old.items ++ each_behind seconds.now first.now) }
{
    for second in seconds {
        ways.push(joined(alloc, first, second)?)?;
    }
    Ok(())
}

// One of the first and one of the second, the first varying slowest.
fn product(
    alloc: Global,
    firsts: &[Seq<CondTree>],
    seconds: &[Seq<CondTree>],
) -> Result<Vec<Seq<CondTree>>, NoMemory>
    ensures { IfOk result (λ ways. ways.items ≡ times firsts.now seconds.now) }
{
    let mut ways = Vec::new(alloc);
    for first in firsts {
        add_joined(alloc, &mut ways, first, seconds)?;
    }
    Ok(ways)
}

// What is asked for so far, and one of these ways besides.
fn asking(
    alloc: Global,
    asked: Alternatives,
    ways: &[Seq<CondTree>],
) -> Result<Alternatives, NoMemory>
    ensures { IfOk result (λ a. a ≡ asks asked ways.now) }
{
    let here = product(alloc, asked.here.as_slice(), ways)?;
    Ok(Alternatives {
        done: asked.done,
        here: Seq::from_vec(here),
    })
}

// The ways of all alternatives.
fn ended(asked: Alternatives) -> Result<Seq<Seq<CondTree>>, NoMemory>
    ensures { IfOk result (λ ways. ways ≡ all_ways asked) }
{
    let mut ways = asked.done.into_vec();
    for way in asked.here.into_vec() {
        ways.push(way)?;
    }
    Ok(Seq::from_vec(ways))
}

// The innermost alternatives end.
fn close(alloc: Global, walk: Walk) -> Result<Walk, NoMemory>
    ensures { IfOk result (λ w. w ≡ closed_in walk (slice_get walk.outer (length walk.outer - 1))) }
{
    let Walk { inner, outer } = walk;
    let mut outer = outer.into_vec();
    match outer.pop() {
        None => Ok(Walk {
            inner,
            outer: Seq::from_vec(outer),
        }),
        Some(around) => {
            let ways = ended(inner)?;
            let inner = asking(alloc, around, ways.as_slice())?;
            Ok(Walk {
                inner,
                outer: Seq::from_vec(outer),
            })
        }
    }
}

// Alternatives begin inside those that are open.
fn open(alloc: Global, walk: Walk) -> Result<Walk, NoMemory>
    ensures { IfOk result (λ w. (w.inner ≡ begun) × (w.outer ≡ walk.outer ++ walk.inner ∷ [])) }
{
    let Walk { inner, outer } = walk;
    let mut outer = outer.into_vec();
    outer.push(inner)?;
    let inner = begin(alloc)?;
    Ok(Walk {
        inner,
        outer: Seq::from_vec(outer),
    })
}

// The walk takes one more piece.
fn take_piece(alloc: Global, types: &Hierarchy, walk: Walk, piece: &Piece) -> Result<Walk, NoMemory>
    ensures { IfOk result (λ w. w ≡ taken types.now walk piece.now) }
{
    match piece {
        Piece::One(condition) => {
            let ways = choices_of(alloc, types, condition)?;
            let Walk { inner, outer } = walk;
            let inner = asking(alloc, inner, &ways)?;
            Ok(Walk { inner, outer })
        }
        Piece::Open => open(alloc, walk),
        Piece::Or => {
            let Walk { inner, outer } = walk;
            let done = ended(inner)?;
            let here = free_way(alloc)?;
            Ok(Walk {
                inner: Alternatives { done, here },
                outer,
            })
        }
        Piece::Close => close(alloc, walk),
    }
}

// The conditions of pieces.
fn conditions_in(alloc: Global, pieces: &[Piece]) -> Result<Vec<CondTree>, NoMemory>
    ensures { IfOk result (λ way. way.items ≡ flat_map conditions_of pieces.now) }
{
    let mut way = Vec::with_capacity(alloc, pieces.len())?;
    for piece in pieces {
        match piece {
            Piece::One(condition) => way.push(condition.copy(alloc)?)?,
            Piece::Open | Piece::Or | Piece::Close => {}
        }
    }
    Ok(way)
}

// The ways in which what a rule asks for can be met, by a walk over its pieces.
#[tactic(auto, unfolding(crate::specs::Ways::ways_of, crate::specs::Ways::walked))]
fn ways_of_walk(
    alloc: Global,
    types: &Hierarchy,
    pieces: &[Piece],
) -> Result<Seq<Seq<CondTree>>, NoMemory>
    ensures { IfOk result (λ ways. ways ≡ ways_of types.now pieces.now) }
{
    let mut walk = Walk {
        inner: begin(alloc)?,
        outer: Seq::from_vec(Vec::new(alloc)),
    };
    for piece in pieces {
        walk = take_piece(alloc, types, walk, piece)?;
    }
    ended(walk.inner)
}

/// The ways in which what a rule asks for can be met. One that has no alternatives, and no pattern or `not` on a type with subtypes, can be met in one
/// way, and costs a copy of its conditions. Of others each piece costs a copy of the ways so far, and what the kinds of its type cost.
#[tactic(auto, using(crate::proofs::OneWay::one_way))]
pub(crate) fn ways_in(
    alloc: Global,
    types: &Hierarchy,
    pieces: &[Piece],
) -> Result<Seq<Seq<CondTree>>, NoMemory>
    ensures { IfOk result (λ ways. ways ≡ ways_of types.now pieces.now) }
{
    if any_varied(types, pieces) {
        return ways_of_walk(alloc, types, pieces);
    }
    let way = conditions_in(alloc, pieces)?;
    let mut ways = Vec::with_capacity(alloc, 1)?;
    ways.push(Seq::from_vec(way))?;
    Ok(Seq::from_vec(ways))
}
