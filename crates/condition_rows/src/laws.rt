//! Laws of the rows of conditions: each function's contract is the law, and its body is empty.
ghost use Rattle.std.specs.Prelude.{◌≡◌, ◌↔◌, true, List, [], ◌∷◌, ◌++◌, Some};
ghost use Rattle.fx_base.specs.Lists.{In};
ghost use Rattle.fx_base.specs.declared.fact.Fact.{Fact};
ghost use Rattle.row_delta.specs.declared.row.Named.{Named};
ghost use Rattle.row_delta.specs.declared.row.Row.{Row};
ghost use Rattle.rule_model.specs.declared.condition.Condition.{Condition};
ghost use Rattle.rule_model.specs.declared.condition.Pattern.{Pattern};
ghost use Rattle.rule_model.specs.declared.program.Program.{Program};
ghost use Rattle.rule_model.specs.declared.program.Rule.{Rule};
ghost use Rattle.rule_model.specs.Candidates.{is_candidate};
ghost use Rattle.rule_model.specs.Distinct.{HaveDistinctTags};
ghost use Rattle.rule_model.specs.Rows.{rows};
ghost use Rattle.rule_model.specs.Snapshots.{Snapshot};
ghost use Rattle.rule_model.specs.Tuples.{name_of};
ghost use Rattle.join_memory.specs.Joined.{has_name};
ghost use Rattle.condition_rows.specs.Sets.{rows_of, held, candidates_of, candidate_names};
ghost use Rattle.condition_rows.specs.Looks.{NameHeld};
ghost use Rattle.condition_rows.specs.Lines.{line, lines};

/// Over facts with distinct tags one condition more at the end makes of the rows of the conditions before it what the line of its
/// kind says.
pub fn one_condition_more()
    ensures { (p : Program) (s : Snapshot) → HaveDistinctTags s.facts → (front : List Condition) (condition : Condition) (row : Row)
        → rows_of p s (front ++ condition ∷ []) row ≡ line p s condition (rows_of p s front) row }
{}

/// Over facts with distinct tags the rows of conditions are those that their lines make, one after the other, of the empty row; and a
/// row stands in the list of a rule's rows exactly where the lines of its conditions have it.
pub fn rows_are_made_by_lines()
    ensures rows { (p : Program) (s : Snapshot) → HaveDistinctTags s.facts → (conditions : List Condition) (row : Row)
        → rows_of p s conditions row ≡ lines p s conditions row }
    ensures rule { (p : Program) (s : Snapshot) → HaveDistinctTags s.facts → (rule : Rule) (row : Row)
        → In row (rows p s rule.conditions) ↔ (lines p s rule.conditions row ≡ true) }
{}

/// Over facts with distinct tags the rows of conditions name versions of the snapshot alone.
pub fn rows_name_versions_of_the_snapshot()
    ensures { (p : Program) (s : Snapshot) → HaveDistinctTags s.facts → (conditions : List Condition) → NameHeld s (rows_of p s conditions) }
{}

/// Over facts with distinct tags each fact is held under its tag, and its name is of the candidates exactly where it is one; what is of
/// the candidates is what stands in the list of their names.
pub fn candidates_are_named()
    ensures held { (s : Snapshot) → HaveDistinctTags s.facts → (f : Fact) → In f s.facts → held s f.tag ≡ Some f }
    ensures fact { (p : Program) (s : Snapshot) → HaveDistinctTags s.facts → (pattern : Pattern) (f : Fact) → In f s.facts
        → candidates_of p pattern s (name_of f) ≡ is_candidate p pattern s f }
    ensures names { (p : Program) (s : Snapshot) → HaveDistinctTags s.facts → (pattern : Pattern) (who : Named)
        → has_name (candidate_names p pattern s) who ≡ candidates_of p pattern s who }
{}
