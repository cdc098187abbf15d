//! Laws of the program of a file, for the proofs of crates above. The functions do nothing.
ghost use Rattle.drl_compile.specs.Laws.{OneForEach, EachHasOperator, ObservedAreFlagged};

/// Each condition of a rule is one condition of the program.
pub fn each_condition_is_one()
    ensures { OneForEach }
{}

/// Each temporal test of the program has the edges of an operator.
pub fn temporal_tests_have_operators()
    ensures { EachHasOperator }
{}

/// The observed types are flagged, and no others.
pub fn observed_types_are_flagged()
    ensures { ObservedAreFlagged }
{}
