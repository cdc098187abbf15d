//! The edges of each word, as the rows of the table give them. Each function answers `None` where the table has
//! no row for that many parameters.
ghost use Rattle.std.specs.Prelude.{◌≡◌, ◌^◌, not, option_map, IfSome};
ghost use Rattle.std.specs.List.{All};
ghost use Rattle.temporal_ops.specs.Edges.{is_tested, IsOpEdge, IsWithin};
ghost use Rattle.temporal_ops.specs.Operators.{at_most as upper_edge, least_difference as lower_edge, earlier as order_edge, near as near_edges, tolerance as tolerance_of, gap_edges, coincide_edges, during_edges, inside_edges, order_edges, overlaps_edges, edges_of};

use crate::Corner::{self, AEnd, AStart, BEnd, BStart};
use crate::{Op, OpEdge, OpWord};
use fx_base::Millis;

/// The operator of this word.
#[tactic(auto, unfolding(crate::specs::Operators::edges_of))]
pub(crate) fn row(word: OpWord, params: &[Millis]) -> Option<Op>
    requires { All (IsWithin (2 ^ 53)) params.now }
    ensures { result ≡ edges_of word params.now }
{
    match word {
        OpWord::After => gap(AStart, BEnd, params),
        OpWord::Before => gap(BStart, AEnd, params),
        OpWord::Coincides => coincides(params),
        OpWord::During => during(params),
        OpWord::Includes => Some(during(params)?.exchanged()),
        OpWord::Finishes => in_order(BStart, AStart, AEnd, BEnd, params),
        OpWord::FinishedBy => in_order(AStart, BStart, AEnd, BEnd, params),
        OpWord::Starts => in_order(AEnd, BEnd, AStart, BStart, params),
        OpWord::StartedBy => in_order(BEnd, AEnd, AStart, BStart, params),
        OpWord::Meets => near(AEnd, BStart, params),
        OpWord::MetBy => near(AStart, BEnd, params),
        OpWord::Overlaps => overlaps(params),
        OpWord::OverlappedBy => Some(overlaps(params)?.exchanged()),
    }
}

/// `x - y <= most`.
fn at_most(x: Corner, y: Corner, most: Millis) -> OpEdge
    requires joins { is_tested x ≡ not (is_tested y) }
    requires sized { IsWithin (2 ^ 53) most }
    ensures edge { result ≡ upper_edge x y most }
    ensures op { IsOpEdge result }
{
    OpEdge { x, y, most }
}

/// `least <= x - y`.
fn at_least(x: Corner, y: Corner, least: Millis) -> OpEdge
    requires joins { is_tested y ≡ not (is_tested x) }
    requires sized { IsWithin (2 ^ 53) least }
    ensures edge { result ≡ lower_edge x y least }
    ensures op { IsOpEdge result }
{
    at_most(y, x, -least)
}

/// `x < y`.
fn earlier(x: Corner, y: Corner) -> OpEdge
    requires joins { is_tested x ≡ not (is_tested y) }
    ensures edge { result ≡ order_edge x y }
    ensures op { IsOpEdge result }
{
    at_most(x, y, -1)
}

/// The distance from `y` to `x`. Two parameters are the least and the greatest distance, in either order.
#[tactic(auto, using(crate::proofs::Ops::op_lists))]
fn gap(x: Corner, y: Corner, params: &[Millis]) -> Option<Op>
    requires joins { is_tested x ≡ not (is_tested y) }
    requires back { is_tested y ≡ not (is_tested x) }
    requires sized { All (IsWithin (2 ^ 53)) params.now }
    ensures { result ≡ gap_edges x y params.now }
{
    match params {
        [] => Some(Op::new(&[at_least(x, y, 1)])),
        [least] => Some(Op::new(&[at_least(x, y, *least)])),
        [p, q] => Some(Op::new(&[at_least(x, y, *p.min(q)), at_most(x, y, *p.max(q))])),
        _ => None,
    }
}

/// Equal starts and equal ends, up to the parameters.
#[tactic(auto, using(crate::proofs::Ops::op_lists))]
fn coincides(params: &[Millis]) -> Option<Op>
    requires { All (IsWithin (2 ^ 53)) params.now }
    ensures { result ≡ coincide_edges params.now }
{
    let (most, end_most) = match params {
        [] => (0, 0),
        [most] => (*most, *most),
        [most, end_most] => (*most, *end_most),
        _ => return None,
    };
    Some(Op::new(&[
        at_most(AStart, BStart, most),
        at_most(BStart, AStart, most),
        at_most(AEnd, BEnd, end_most),
        at_most(BEnd, AEnd, end_most),
    ]))
}

/// A inside B.
#[tactic(auto, using(crate::proofs::Ops::op_lists))]
fn during(params: &[Millis]) -> Option<Op>
    requires { All (IsWithin (2 ^ 53)) params.now }
    ensures { result ≡ during_edges params.now }
{
    match params {
        [] => Some(Op::new(&[earlier(BStart, AStart), earlier(AEnd, BEnd)])),
        [most] => Some(Op::new(&[
            earlier(BStart, AStart),
            at_most(AStart, BStart, *most),
            earlier(AEnd, BEnd),
            at_most(BEnd, AEnd, *most),
        ])),
        [least, most] => Some(inside(*least, *most, *least, *most)),
        [least, most, end_least, end_most] => Some(inside(*least, *most, *end_least, *end_most)),
        _ => None,
    }
}

/// A inside B, with bounds on how far apart the starts and the ends are.
#[tactic(auto, using(crate::proofs::Ops::op_lists))]
fn inside(least: Millis, most: Millis, end_least: Millis, end_most: Millis) -> Op
    requires least { IsWithin (2 ^ 53) least }
    requires most { IsWithin (2 ^ 53) most }
    requires end_least { IsWithin (2 ^ 53) end_least }
    requires end_most { IsWithin (2 ^ 53) end_most }
    ensures { result ≡ inside_edges least most end_least end_most }
{
    Op::new(&[
        at_least(AStart, BStart, least),
        at_most(AStart, BStart, most),
        at_least(BEnd, AEnd, end_least),
        at_most(BEnd, AEnd, end_most),
    ])
}

/// How far apart two points may be that should be equal.
fn tolerance(params: &[Millis]) -> Option<Millis>
    requires { All (IsWithin (2 ^ 53)) params.now }
    ensures value { result ≡ tolerance_of params.now }
    ensures sized { IfSome result (IsWithin (2 ^ 53)) }
{
    match params {
        [] => Some(0),
        [most] => Some(*most),
        _ => None,
    }
}

/// `first` before `second`, and equal `x` and `y` up to the parameter.
#[tactic(auto, using(crate::proofs::Ops::op_lists))]
fn in_order(first: Corner, second: Corner, x: Corner, y: Corner, params: &[Millis]) -> Option<Op>
    requires order { is_tested first ≡ not (is_tested second) }
    requires joins { is_tested x ≡ not (is_tested y) }
    requires back { is_tested y ≡ not (is_tested x) }
    requires sized { All (IsWithin (2 ^ 53)) params.now }
    ensures { result ≡ order_edges first second x y params.now }
{
    let most = tolerance(params)?;
    Some(Op::new(&[
        earlier(first, second),
        at_most(x, y, most),
        at_most(y, x, most),
    ]))
}

/// Equal `x` and `y`, up to the parameter.
#[tactic(auto, using(crate::proofs::Ops::op_lists))]
fn near(x: Corner, y: Corner, params: &[Millis]) -> Option<Op>
    requires joins { is_tested x ≡ not (is_tested y) }
    requires back { is_tested y ≡ not (is_tested x) }
    requires sized { All (IsWithin (2 ^ 53)) params.now }
    ensures { result ≡ option_map (near_edges x y) (tolerance_of params.now) }
{
    let most = tolerance(params)?;
    Some(Op::new(&[at_most(x, y, most), at_most(y, x, most)]))
}

/// A begins before B and ends within it. The parameters bound how long the two overlap.
#[tactic(auto, using(crate::proofs::Ops::op_lists))]
fn overlaps(params: &[Millis]) -> Option<Op>
    requires { All (IsWithin (2 ^ 53)) params.now }
    ensures { result ≡ overlaps_edges params.now }
{
    let [starts, meets, ends] = [
        earlier(AStart, BStart),
        earlier(BStart, AEnd),
        earlier(AEnd, BEnd),
    ];
    let (least, most) = match params {
        [] => return Some(Op::new(&[starts, meets, ends])),
        [most] => (0, *most),
        [least, most] => (*least, *most),
        _ => return None,
    };
    Some(Op::new(&[
        starts,
        meets,
        ends,
        at_least(AEnd, BStart, least),
        at_most(AEnd, BStart, most),
    ]))
}
