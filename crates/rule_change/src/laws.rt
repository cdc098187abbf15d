//! Laws of other rules over a running state, each the contract of a function that does nothing.
ghost use Rattle.rule_change.specs.Alike.{SamePending, AlikeAtChange, AlikeMarked, AlikeWithout, SameFault, AlikeSteps};
ghost use Rattle.rule_change.specs.Lives.{CarriedIsSafe};
ghost use Rattle.rule_change.specs.Told.{ToldIsExact, ToldOnce};

/// In worlds that are alike the rules that stay have the same pending matches.
pub fn same_pending()
    ensures { SamePending }
{}

/// The world under the new rules is lawful, and alike.
pub fn alike_at_change()
    ensures { AlikeAtChange }
{}

/// Worlds that are alike stay so where a match of a rule that stays is marked in both, and where one of a rule that is new, or gone, is
/// marked in one of them alone.
pub fn alike_with_marks()
    ensures stays { AlikeMarked }
    ensures alone { AlikeWithout }
{}

/// In worlds that are alike the same steps have the same faults, as far as the same events are observed, and lead to worlds that are
/// alike.
pub fn alike_with_steps()
    ensures faults { SameFault }
    ensures worlds { AlikeSteps }
{}

/// The lives by which a world goes on are safe for the new rules.
pub fn carried_lives_are_safe()
    ensures { CarriedIsSafe }
{}

/// Of the rules is told which of the new ones stay and which are new, and which of the old ones are gone, each once.
pub fn rules_are_told()
    ensures exact { ToldIsExact }
    ensures once { ToldOnce }
{}
