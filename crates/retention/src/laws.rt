//! Laws of retentions: each function's contract is the law, and its body is empty.
ghost use Rattle.retention.specs.RetentionLaws.{NewLaw, LaterLaw, HoldLaw, ReleaseLaw, PastLaw, TagsLeftLaw, SameCovered, SameWatched};

/// What a retention watches when a call returns it covers in the next call, which holds and releases events.
pub fn events_are_held_and_released()
    ensures new { NewLaw }
    ensures later { LaterLaw }
    ensures hold { HoldLaw }
    ensures release { ReleaseLaw }
{}

/// `Retention::past` answers exactly the events past their lives that no pending match names, and then watches the others.
pub fn past_answers_the_old_events()
    ensures { PastLaw }
{}

/// It is enough to look at the tags of the matches that have stopped pending.
pub fn what_is_no_longer_named_has_left()
    ensures { TagsLeftLaw }
{}

/// What is covered and watched is asked event by event.
pub fn events_are_covered_one_by_one()
    ensures covered { SameCovered }
    ensures watched { SameWatched }
{}
