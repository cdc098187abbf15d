//! Laws of fans: each function's contract is the law, and its body is empty.
ghost use Rattle.fan_join.specs.Laws.{EmptyLaw, MemberForgetLaw, MemberStepLaw};

/// A member of a fan that keeps nothing stands for no rows and no candidates.
pub fn an_empty_member_stands_for_nothing()
    ensures { EmptyLaw }
{}

/// Both halves of a step are for a member what a step is for a node of its own.
pub fn both_halves_are_the_step_of_a_node()
    ensures { MemberStepLaw }
{}

/// And so it is with forgetting.
pub fn both_halves_forget_as_a_node_does()
    ensures { MemberForgetLaw }
{}
