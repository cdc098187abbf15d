//! Laws of windows and candidates: each function's contract is the law, and its body is empty.
ghost use Rattle.std.specs.Prelude.{◌≡◌, map};
ghost use Rattle.std.specs.List.Sorted.{IsStrictlySortedBy};
ghost use Rattle.std.specs.Ordering.{nat_cmp};
ghost use Rattle.fx_base.specs.declared.fact.Fact.{Fact};
ghost use Rattle.row_delta.specs.Rows.{has};
ghost use Rattle.row_delta.specs.declared.row.Named.{Named};
ghost use Rattle.rule_model.specs.Snapshots.{Snapshot};
ghost use Rattle.rule_model.specs.declared.condition.Pattern.{Pattern};
ghost use Rattle.rule_model.specs.declared.program.Program.{Program};
ghost use Rattle.join_memory.specs.Inputs.{row_naming};
ghost use Rattle.condition_rows.specs.Sets.{candidates_of};
ghost use Rattle.window_gate.specs.Windows.{rows_inside};
ghost use Rattle.pattern_gate.specs.Alike.{SameCandidatesLaw, SameGateLaw, SameMeantLaw, SameWindowLaw};
ghost use Rattle.pattern_gate.specs.Fronts.{HasInFront};
ghost use Rattle.pattern_gate.specs.Gates.{GateStands, arrivals, window_kind_of};
ghost use Rattle.pattern_gate.specs.Moves.{IsOrderly};
ghost use Rattle.pattern_gate.specs.declared.gate.PatternGate.{PatternGate};

/// Over facts in the order of their tags, what is inside the window of a pattern, of the facts that fit it, is what is of its
/// candidates.
pub fn what_is_inside_is_of_the_candidates()
    ensures { (p : Program) (pattern : Pattern) (s : Snapshot) → IsStrictlySortedBy nat_cmp (map (λ (f : Fact). f.tag.0) s.facts) → (who : Named)
        → has (rows_inside (window_kind_of pattern.window) s.clock (arrivals p pattern s)) (row_naming who) ≡ candidates_of p pattern s who }
{}

/// A gate that stands for the facts of a snapshot but for some that its window lets be stands for all of them.
pub fn a_gate_needs_what_its_window_does_not_let_be()
    ensures { (p : Program) (q : Pattern) (gate : PatternGate) (s : Snapshot) (t : Snapshot) → IsOrderly p s → IsOrderly p t → HasInFront p q s t
        → GateStands p q gate t → GateStands p q gate s }
{}

/// Patterns that take alike have the same candidates in each snapshot, and one gate stands for both of them.
pub fn patterns_that_take_alike_have_one_gate()
    ensures candidates { SameCandidatesLaw }
    ensures gate { SameGateLaw }
    ensures meant { SameMeantLaw }
    ensures window { SameWindowLaw }
{}
