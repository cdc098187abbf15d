//! How many ways there are to meet what a rule asks for, and how long the longest is, without writing them out.
ghost use Rattle.std.specs.Prelude.{◌≡◌, ◌++◌, ◌∷◌, ◌-◌, [], length, slice_get, IfOk};
ghost use Rattle.subrules.specs.Faults.{are_too_many};
ghost use Rattle.subrules.specs.Sizes.{sized, size_times, size_plus, size_of_choices, begun_size, all_size, asks_size, closed_size, measured, all_measured, at_no_piece, passes_limits};
ghost use Rattle.subrules.specs.Ways.{ways_of};

use crate::hierarchy::Hierarchy;
use crate::kinds::kinds;
use drl_grammar::{CondTree, Piece};
use fx_base::{NoMemory, Seq};
use std::alloc::Global;

/// The most rules that a rule may be written out to.
const COUNT_MAX: u32 = 256;

/// The most conditions that such a rule may have.
const LENGTH_MAX: u32 = 8;

/// How many ways there are, and the most conditions of one; both stand still one above their limits.
#[derive(Clone, Copy, Debug, PartialEq, Eq)]
pub(crate) struct Size {
    pub(crate) count: u32,
    pub(crate) longest: u32,
}

/// The sizes of alternatives on the way from the first to the last.
#[derive(Clone, Copy, Debug, PartialEq, Eq)]
pub(crate) struct SizeOfAlternatives {
    pub(crate) done: Size,
    pub(crate) here: Size,
}

/// How far a walk over the pieces of a rule is that takes sizes alone.
#[derive(Drop)]
pub(crate) struct SizeWalk {
    pub(crate) inner: SizeOfAlternatives,
    pub(crate) outer: Seq<SizeOfAlternatives>,
}

// The size of so many ways, of which the longest has so many conditions.
fn sized(count: u64, longest: u64) -> Size
    ensures { result ≡ sized count longest }
{
    Size {
        count: count.min(257) as u32,
        longest: longest.min(9) as u32,
    }
}

// The size of no way.
const NOTHING: Size = Size {
    count: 0,
    longest: 0,
};

// The size of the way in which nothing is asked for.
const FREE: Size = Size {
    count: 1,
    longest: 0,
};

// One of the first and one of the second.
fn product(first: Size, second: Size) -> Size
    ensures { result ≡ size_times first second }
{
    if first.count == 0 || second.count == 0 {
        return NOTHING;
    }
    sized(
        u64::from(first.count) * u64::from(second.count),
        u64::from(first.longest) + u64::from(second.longest),
    )
}

// All of both.
fn together(first: Size, second: Size) -> Size
    ensures { result ≡ size_plus first second }
{
    sized(
        u64::from(first.count) + u64::from(second.count),
        u64::from(first.longest.max(second.longest)),
    )
}

// The size of the ways of a condition, for one that is asked for besides ways of this size: where a number stands still, the kinds of the
// type, by which it would grow, are not looked for.
fn size_of_choices(
    alloc: Global,
    types: &Hierarchy,
    here: Size,
    condition: &CondTree,
) -> Result<Size, NoMemory>
    ensures { IfOk result (λ size. size_times here size ≡ size_times here (size_of_choices types.now condition.now)) }
{
    match condition {
        CondTree::Plain(source) if here.count != COUNT_MAX + 1 => {
            let kinds = kinds(alloc, types, &source.ty)?;
            Ok(sized(kinds.len() as u64, 1))
        }
        CondTree::Negated(source) if here.longest != LENGTH_MAX + 1 => {
            let kinds = kinds(alloc, types, &source.ty)?;
            Ok(sized(1, kinds.len() as u64))
        }
        _ => Ok(sized(1, 1)),
    }
}

// What is asked for so far, and one of so many ways besides.
fn asking(asked: SizeOfAlternatives, size: Size) -> SizeOfAlternatives
    ensures { result ≡ asks_size asked size }
{
    SizeOfAlternatives {
        done: asked.done,
        here: product(asked.here, size),
    }
}

// The ways of all alternatives.
fn ended(asked: SizeOfAlternatives) -> Size
    ensures { result ≡ all_size asked }
{
    together(asked.done, asked.here)
}

// The innermost alternatives end.
fn close(walk: SizeWalk) -> SizeWalk
    ensures { result ≡ closed_size walk (slice_get walk.outer (length walk.outer - 1)) }
{
    let SizeWalk { inner, outer } = walk;
    let mut outer = outer.into_vec();
    match outer.pop() {
        None => SizeWalk {
            inner,
            outer: Seq::from_vec(outer),
        },
        Some(around) => SizeWalk {
            inner: asking(around, ended(inner)),
            outer: Seq::from_vec(outer),
        },
    }
}

// Alternatives begin inside those that are open.
fn open(walk: SizeWalk) -> Result<SizeWalk, NoMemory>
    ensures { IfOk result (λ w. (w.inner ≡ begun_size) × (w.outer ≡ walk.outer ++ walk.inner ∷ [])) }
{
    let SizeWalk { inner, outer } = walk;
    let mut outer = outer.into_vec();
    outer.push(inner)?;
    Ok(SizeWalk {
        inner: SizeOfAlternatives {
            done: NOTHING,
            here: FREE,
        },
        outer: Seq::from_vec(outer),
    })
}

// The walk takes one more piece.
fn take_piece(
    alloc: Global,
    types: &Hierarchy,
    walk: SizeWalk,
    piece: &Piece,
) -> Result<SizeWalk, NoMemory>
    ensures { IfOk result (λ w. w ≡ measured types.now walk piece.now) }
{
    match piece {
        Piece::One(condition) => {
            let SizeWalk { inner, outer } = walk;
            let size = size_of_choices(alloc, types, inner.here, condition)?;
            let inner = asking(inner, size);
            Ok(SizeWalk { inner, outer })
        }
        Piece::Open => open(walk),
        Piece::Or => {
            let SizeWalk { inner, outer } = walk;
            let inner = SizeOfAlternatives {
                done: ended(inner),
                here: FREE,
            };
            Ok(SizeWalk { inner, outer })
        }
        Piece::Close => Ok(close(walk)),
    }
}

#[tactic(auto, unfolding(crate::specs::Sizes::all_measured))]
fn measure(alloc: Global, types: &Hierarchy, pieces: &[Piece]) -> Result<Size, NoMemory>
    ensures { IfOk result (λ size. size ≡ all_size (all_measured types.now at_no_piece pieces.now).inner) }
{
    let mut walk = SizeWalk {
        inner: SizeOfAlternatives {
            done: NOTHING,
            here: FREE,
        },
        outer: Seq::from_vec(Vec::new(alloc)),
    };
    for piece in pieces {
        walk = take_piece(alloc, types, walk, piece)?;
    }
    Ok(ended(walk.inner))
}

// Whether a size is beyond the limits.
fn passes_limits(size: Size) -> bool
    ensures { result ≡ passes_limits size }
{
    size.count > COUNT_MAX || size.longest > LENGTH_MAX
}

/// Whether a rule would be written out to more than 256 rules, or to one of more than 8 conditions. It costs a step for each piece,
/// and, where its type has subtypes and a number does not stand still, what the kinds of its type cost.
#[tactic(auto, using(crate::proofs::SizeLaws::passes_alike))]
pub(crate) fn are_too_many(
    alloc: Global,
    types: &Hierarchy,
    pieces: &[Piece],
) -> Result<bool, NoMemory>
    ensures { IfOk result (λ many. many ≡ are_too_many (ways_of types.now pieces.now)) }
{
    let size = measure(alloc, types, pieces)?;
    Ok(passes_limits(size))
}
