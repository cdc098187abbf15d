//! Laws of sessions: each function's contract is the law, and its body is empty.
ghost use Rattle.session.specs.Holds.{HoldsWhatIsKept, OldEventsAreNamed};

/// A session holds exactly what is kept of each world for which it stands; so an event past its life is held only while a match names it
/// that is still to fire.
pub fn a_session_holds_what_is_kept()
    ensures kept { HoldsWhatIsKept }
    ensures old { OldEventsAreNamed }
{}
