ghost use Rattle.std.specs.Prelude.{◌↔◌, ℤ};
ghost use Rattle.temporal_ops.specs.Room.{IsAboveLimit, IsBelow};

use crate::edge::Corner::{AEnd, AStart, BEnd, BStart};
use crate::window::Window;
use crate::{Op, OpEdge};
use fx_base::Times;

/// The limits of a point in time, in milliseconds of the clock. A sum of a time and a bound may leave 64 bits.
#[derive(Clone, Copy)]
pub(crate) struct Limits {
    least: Option<i128>,
    greatest: Option<i128>,
}

impl Limits {
    ghost use Rattle.std.specs.Prelude.{◌≡◌, ◌↔◌, ◌≤ℤ◌, ℤ};
    ghost use Rattle.temporal_ops.specs.Room.{LiesBetweenLimits, is_empty as is_empty_of};

    /// Takes out what lies before `least`.
    fn begin_at(&mut self, least: i128)
        ensures { (z : ℤ) → LiesBetweenLimits self.new z ↔ (LiesBetweenLimits self.old z × (least ≤ℤ z)) }
    {
        self.least = higher(self.least, Some(least));
    }

    /// Whether nothing lies between them.
    fn is_empty(&self) -> bool
        ensures { result ≡ is_empty_of self.now.least self.now.greatest }
    {
        matches!((self.least, self.greatest), (Some(least), Some(greatest)) if greatest < least)
    }

    /// Takes out what lies after `greatest`.
    fn end_by(&mut self, greatest: i128)
        ensures { (z : ℤ) → LiesBetweenLimits self.new z ↔ (LiesBetweenLimits self.old z × (z ≤ℤ greatest)) }
    {
        self.greatest = lower(self.greatest, Some(greatest));
    }
}

/// The greater of two lower limits.
fn higher(a: Option<i128>, b: Option<i128>) -> Option<i128>
    ensures { (z : ℤ) → IsAboveLimit result z ↔ (IsAboveLimit a z × IsAboveLimit b z) }
{
    match (a, b) {
        (Some(a), Some(b)) => Some(a.max(b)),
        (Some(limit), None) | (None, Some(limit)) => Some(limit),
        (None, None) => None,
    }
}

/// The lesser of two upper limits.
fn lower(a: Option<i128>, b: Option<i128>) -> Option<i128>
    ensures { (z : ℤ) → IsBelow result z ↔ (IsBelow a z × IsBelow b z) }
{
    match (a, b) {
        (Some(a), Some(b)) => Some(a.min(b)),
        (Some(limit), None) | (None, Some(limit)) => Some(limit),
        (None, None) => None,
    }
}

/// The room that edges leave for the start and the end of an event.
#[derive(Clone, Copy)]
pub(crate) struct Room {
    start: Limits,
    end: Limits,
}

impl Room {
    ghost use Rattle.std.specs.Prelude.{◌≡◌, ◌↔◌, true};
    ghost use Rattle.fx_base.specs.declared.times.Times.{Times};
    ghost use Rattle.temporal_ops.specs.Edges.{edge_holds, edges_hold, IsOpEdge};
    ghost use Rattle.temporal_ops.specs.Possible.{AreStarts};
    ghost use Rattle.temporal_ops.specs.Room.{AreStartLimits, FitsRoom, FitsEvent};

    /// All events.
    pub(crate) fn new() -> Room
        ensures { (y : Times) → FitsRoom result y }
    {
        let all = Limits {
            least: None,
            greatest: None,
        };
        Room {
            start: all,
            end: all,
        }
    }

    /// Takes out the events of which the operator does not hold with the bound event `b`.
    #[tactic(auto, unfolding(crate::specs::Edges::edges_hold))]
    pub(crate) fn keep(&mut self, op: &Op, b: Times)
        ensures { (y : Times) → FitsRoom self.new y ↔ (FitsRoom self.old y × (edges_hold op.now y b ≡ true)) }
    {
        for edge in op.as_slice() {
            self.keep_edge(edge, b);
        }
    }

    /// Takes out the events of which the edge does not hold with the bound event `b`.
    fn keep_edge(&mut self, edge: &OpEdge, b: Times)
        requires { IsOpEdge edge.now }
        ensures { (y : Times) → FitsRoom self.new y ↔ (FitsRoom self.old y × (edge_holds y b edge.now ≡ true)) }
    {
        let (start, end) = (i128::from(b.start), i128::from(b.end));
        let most = i128::from(edge.most);
        match (edge.x, edge.y) {
            (AStart, BStart) => self.start.end_by(start + most),
            (AStart, BEnd) => self.start.end_by(end + most),
            (AEnd, BStart) => self.end.end_by(start + most),
            (AEnd, BEnd) => self.end.end_by(end + most),
            (BStart, AStart) => self.start.begin_at(start - most),
            (BEnd, AStart) => self.start.begin_at(end - most),
            (BStart, AEnd) => self.end.begin_at(start - most),
            (BEnd, AEnd) => self.end.begin_at(end - most),
            _ => unreachable!(),
        }
    }

    /// The starts of the events that fit, of a point type where `point` says so.
    pub(crate) fn window(&self, point: bool) -> Window
        ensures { AreStarts (FitsEvent self.now point) result }
    {
        let starts = self.starts(point);
        if starts.is_empty() || self.end.is_empty() {
            return Window::Never;
        }
        match starts.greatest {
            None => Window::Unbounded,
            Some(latest) => Window::UpTo(latest),
        }
    }

    /// The limits of these starts, where the end has room.
    fn starts(&self, point: bool) -> Limits
        ensures { AreStartLimits self.now point result }
    {
        Limits {
            least: if point {
                higher(self.start.least, self.end.least)
            } else {
                self.start.least
            },
            greatest: lower(self.start.greatest, self.end.greatest),
        }
    }
}
