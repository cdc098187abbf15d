//! Laws of the node: each function's contract is the law, and its body is empty.
ghost use Rattle.beta_join.specs.Laws.{JoinStepLaw, JoinForgetLaw};

/// A step answers the true difference of the rows that name no forgotten fact, for all sets for which the node stands.
pub fn a_step_answers_the_true_difference()
    ensures { JoinStepLaw (Unit {0}) }
{}

/// After forgetting, the node stands for the same sets with more facts forgotten.
pub fn forgetting_keeps_the_sets()
    ensures { JoinForgetLaw (Unit {0}) }
{}
