//! The range of time in which a candidate must lie to an event that a row names.
ghost use Rattle.std.specs.Prelude.{◌≡◌, ◌+ℤ◌};
ghost use Rattle.join_tests.specs.TimeKeys.{candidate_corner, event_corner, same_corner, most_between, key_of_span, key_at, key_of_edges, key_of_times};

use fx_base::Millis;
use rule_model::TimeTest;
use temporal_ops::{Corner, OpEdge};

/// The start or the end of an event.
#[derive(Clone, Copy, Debug, PartialEq, Eq)]
pub enum Point {
    Start,
    End,
}

/// A range of time in which a candidate must lie to an event that a row names: where x is a point of the candidate and y one of the
/// event, `-back <= x - y <= span - back`, in milliseconds.
#[derive(Clone, Copy, Debug, PartialEq, Eq)]
pub struct TimeKey {
    /// The event, by its place from 0 among the facts of the row.
    pub fact: u8,
    /// The point of the candidate.
    pub own: Point,
    /// The point of the event.
    pub event: Point,
    /// How far the event's point may lie behind the candidate's.
    pub back: Millis,
    /// The length of the range, less 1.
    pub span: u64,
}

impl Point {
    fn of_candidate(self) -> Corner
        ensures { result ≡ candidate_corner self }
    {
        match self {
            Point::Start => Corner::AStart,
            Point::End => Corner::AEnd,
        }
    }

    fn of_event(self) -> Corner
        ensures { result ≡ event_corner self }
    {
        match self {
            Point::Start => Corner::BStart,
            Point::End => Corner::BEnd,
        }
    }
}

/// The range of the first temporal test that has one: that bounds the difference of two points from both sides. Takes no memory.
pub(crate) fn key_of_times(tests: &[TimeTest]) -> Option<TimeKey>
    ensures { result ≡ key_of_times tests.now }
{
    for test in tests {
        match key_of_test(test) {
            Some(key) => return Some(key),
            None => {}
        }
    }
    None
}

fn key_of_test(test: &TimeTest) -> Option<TimeKey>
    ensures { result ≡ key_of_edges test.now.fact test.now.op }
{
    let edges = test.op.edges();
    key_of_edges(test.fact, &edges.items[..edges.count])
}

fn key_of_edges(fact: u8, edges: &[OpEdge]) -> Option<TimeKey>
    ensures { result ≡ key_of_edges fact edges.now }
{
    key_at(fact, edges, Point::Start, Point::Start)
        .or(key_at(fact, edges, Point::Start, Point::End))
        .or(key_at(fact, edges, Point::End, Point::Start))
        .or(key_at(fact, edges, Point::End, Point::End))
}

fn key_at(fact: u8, edges: &[OpEdge], own: Point, event: Point) -> Option<TimeKey>
    ensures { result ≡ key_at fact edges.now own event }
{
    let (x, y) = (own.of_candidate(), event.of_event());
    match (most_between(x, y, edges), most_between(y, x, edges)) {
        (Some(most), Some(back)) => key_of_span(fact, own, event, most, back),
        _ => None,
    }
}

fn key_of_span(fact: u8, own: Point, event: Point, most: Millis, back: Millis) -> Option<TimeKey>
    ensures { result ≡ key_of_span fact own event back (most +ℤ back) }
{
    match u64::try_from(i128::from(most) + i128::from(back)) {
        Ok(span) => Some(TimeKey {
            fact,
            own,
            event,
            back,
            span,
        }),
        Err(_) => None,
    }
}

fn most_between(x: Corner, y: Corner, edges: &[OpEdge]) -> Option<Millis>
    ensures { result ≡ most_between x y edges.now }
{
    for edge in edges {
        if same_corner(x, edge.x) && same_corner(y, edge.y) {
            return Some(edge.most);
        }
    }
    None
}

fn same_corner(a: Corner, b: Corner) -> bool
    ensures { result ≡ same_corner a b }
{
    match (a, b) {
        (Corner::AStart, Corner::AStart) => true,
        (Corner::AEnd, Corner::AEnd) => true,
        (Corner::BStart, Corner::BStart) => true,
        (Corner::BEnd, Corner::BEnd) => true,
        _ => false,
    }
}
