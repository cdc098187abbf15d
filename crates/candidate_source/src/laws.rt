//! Laws of candidates that are kept once: each function's contract is the law, and its body is empty.
ghost use Rattle.candidate_source.specs.Lending.{LentLaw};
ghost use Rattle.candidate_source.specs.Sources.{TurnAtLaw, ForgetAtLaw};
ghost use Rattle.candidate_source.specs.Turns.{TurnLaw, ForgetLaw};

/// Whatever a node keeps for its left rows, if it keeps candidates alike and is found under the values of its left rows: after a turn it
/// takes over the candidates with what is handed to it, which is enough for it.
pub fn what_is_handed_is_enough()
    ensures { TurnLaw (Unit {0}) }
{}

/// So it does after forgetting.
pub fn what_is_forgotten_is_handed()
    ensures { ForgetLaw (Unit {0}) }
{}

/// So it is for one node of sources that have turned, if it is found under the values of the left rows that it has.
pub fn what_is_handed_to_one_is_enough()
    ensures { TurnAtLaw (Unit {0}) }
{}

/// And after forgetting.
pub fn what_is_forgotten_is_handed_to_one()
    ensures { ForgetAtLaw (Unit {0}) }
{}

/// Sources stay apart where one of them is lent for the turn of a node, and other nodes are found in it as they were.
pub fn what_is_lent_stays_apart()
    ensures { LentLaw }
{}
