//! Laws of forgetting: each function's contract is the law, and its body is empty.
ghost use Rattle.forgetting_laws.specs.Sights.{EndLaw};
ghost use Rattle.forgetting_laws.specs.Covering.{LaterCovers, FreeCovers, InsertCovers, RetractCovers, EndlessCovers};
ghost use Rattle.forgetting_laws.specs.Firings.{FireLaw};
ghost use Rattle.forgetting_laws.specs.Steps.{EmptySessionLaw, KeptBeforeLaw, MatchesLeftLaw, DropFiredLaw, TwoPhaseLaw};
ghost use Rattle.forgetting_laws.specs.Tables.{SameKept, SameClean, PlainEndless, ExpiredEndless, ModifyEndless, StepComesClean, NextClean, WorldStepKept, WorldFireKept};
ghost use Rattle.forgetting_laws.specs.WorldSights.{SightLaw, WorldStepLaw, RetractsOne, WorldFireLaw};

/// An event of a finite life is within it up to that long behind its end.
pub fn lives_end_as_said()
    ensures { EndLaw }
{}

/// A session begins with what is kept.
pub fn a_session_begins_with_what_is_kept()
    ensures { EmptySessionLaw }
{}

/// What was there and is kept behind a step was kept before it, where the matches that come name nothing forgotten.
pub fn what_is_kept_was_kept()
    ensures { KeptBeforeLaw }
{}

/// What a step has to look at: of what has left, the tags of the matches that go; of what is dropped, the fired matches.
pub fn differences_tell_what_left_and_what_to_drop()
    ensures left { MatchesLeftLaw }
    ensures dropped { DropFiredLaw }
{}

/// A step in two phases, the change and then the forgetting, leaves exactly what is kept behind the step.
pub fn a_step_leaves_what_is_kept()
    ensures { TwoPhaseLaw }
{}

/// So does a firing.
pub fn a_firing_leaves_what_is_kept()
    ensures { FireLaw }
{}

/// A call of the session begins with what its retention covers; then the store and the retention take together what comes and what goes
/// out.
pub fn the_first_phase_covers_the_store()
    ensures later { LaterCovers }
    ensures free { FreeCovers }
    ensures insert { InsertCovers }
    ensures retract { RetractCovers }
    ensures endless { EndlessCovers }
{}

/// How forgetting sees the worlds of a program, their steps and their firings.
pub fn worlds_are_seen_by_tags()
    ensures sight { SightLaw }
    ensures step { WorldStepLaw }
    ensures retracted { RetractsOne }
    ensures firing { WorldFireLaw }
{}

/// With a safe table of lives the sight of a world keeps what is kept of the world, and the lives of plain facts and of what is
/// not present any more do not end.
pub fn what_is_kept_is_that_of_the_world()
    ensures kept { SameKept }
    ensures clean { SameClean }
    ensures plain { PlainEndless }
    ensures expired { ExpiredEndless }
    ensures modified { ModifyEndless }
{}

/// Then a match that comes in a step names nothing forgotten, so a step and a firing in two phases leave exactly what is kept of the next
/// world, with no premise on matches.
pub fn a_world_is_left_as_it_is_kept()
    ensures clean { StepComesClean }
    ensures next { NextClean }
    ensures step { WorldStepKept }
    ensures firing { WorldFireKept }
{}
