//! The slots of time in which rows and candidates are kept and sought.
ghost use Rattle.std.specs.Prelude.{◌≡◌, option_map};
ghost use Rattle.join_tests.specs.Slots.{slot_value, moment_at_point, first_event, last_event, first_candidate, last_candidate};

use crate::part::number_or_true;
use crate::time_key::{Point, TimeKey};
use fx_base::{Fact, Millis, Value};

/// The point of a fact that may be missing. Takes no memory.
pub(crate) fn moment_at(point: Point, fact: Option<&Fact>) -> Millis
    ensures { result ≡ moment_at_point point (option_map (λ f. f.now) fact.entry) }
{
    match (fact, point) {
        (Some(fact), Point::Start) => fact.times.start,
        (Some(fact), Point::End) => fact.times.end,
        (None, _) => 0,
    }
}

impl TimeKey {
    /// The slot of a moment. Takes no memory.
    pub(crate) fn slot(self, moment: Millis) -> Value
        ensures { result ≡ slot_value self.span moment }
    {
        slot_at(self.span, i128::from(moment))
    }

    /// The slots of the first and the last moment of an event to which a candidate of this moment fits.
    pub(crate) fn event_slots(self, moment: Millis) -> (Value, Value)
        ensures first { result.0 ≡ slot_value self.span (first_event self moment) }
        ensures last { result.1 ≡ slot_value self.span (last_event self moment) }
    {
        let last = i128::from(moment) + i128::from(self.back);
        (
            slot_at(self.span, last - i128::from(self.span)),
            slot_at(self.span, last),
        )
    }

    /// The slots of the first and the last moment of a candidate that fits to an event of this moment.
    pub(crate) fn candidate_slots(self, moment: Millis) -> (Value, Value)
        ensures first { result.0 ≡ slot_value self.span (first_candidate self moment) }
        ensures last { result.1 ≡ slot_value self.span (last_candidate self moment) }
    {
        let first = i128::from(moment) - i128::from(self.back);
        (
            slot_at(self.span, first),
            slot_at(self.span, first + i128::from(self.span)),
        )
    }
}

/// The slot of a moment among slots of this length, less 1. Takes no memory.
pub(crate) fn slot_at(span: u64, moment: i128) -> Value
    ensures { result ≡ slot_value span moment }
{
    let slot = moment.div_euclid(i128::from(span) + 1);
    number_or_true(i64::try_from(slot).ok())
}
