ghost use Rattle.std.specs.Prelude.{◌≡◌, ◌↔◌, ℤ};
ghost use Rattle.temporal_ops.specs.Possible.{IsLatest, IsNone, ArePossibleTimes, AreStartsUnbounded, IsStartWindow};

use crate::Op;
use crate::room::Room;
use fx_base::Times;

/// The starts of the possible events of a negative pattern.
#[derive(Clone, Copy, Debug, PartialEq, Eq)]
pub enum Window {
    /// There is no possible event.
    Never,
    /// The latest start, in milliseconds of the clock; it may leave 64 bits.
    UpTo(i128),
    /// There is no latest start.
    Unbounded,
}

/// The starts of the possible events of a negative pattern: the pairs of whole numbers, of a point type those
/// that end where they start, of which each operator holds with its bound event. Takes no memory.
pub fn possible_start(bounds: &[(Op, Times)], point: bool) -> Window
    ensures window { IsStartWindow bounds.now point result }
    ensures never { (result ≡ Window.Never) ↔ IsNone (ArePossibleTimes bounds.now point) }
    ensures up_to { (u : ℤ) → (result ≡ Window.UpTo u) ↔ IsLatest (ArePossibleTimes bounds.now point) u }
    ensures unbounded { (result ≡ Window.Unbounded) ↔ AreStartsUnbounded (ArePossibleTimes bounds.now point) }
{
    let mut room = Room::new();
    for (op, times) in bounds {
        room.keep(op, *times);
    }
    room.window(point)
}
