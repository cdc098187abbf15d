//! Laws of the memories: each function's contract is the law, and its body is empty.
ghost use Rattle.std.specs.Prelude.{◌≡◌, ◌&&◌, Bool, true, ℤ};
ghost use Rattle.row_delta.specs.declared.row.Named.{Named};
ghost use Rattle.row_delta.specs.declared.row.Row.{Row};
ghost use Rattle.join_memory.specs.Joined.{with_name, joined};
ghost use Rattle.join_memory.specs.Valued.{with_row_value, valued};
ghost use Rattle.join_memory.specs.Standing.{MemoryMoveLaw};
ghost use Rattle.join_memory.specs.Steps.{StepsLaw, ForgetsLaw};

/// A row that is made is a row of the one set with a fact of the other that passes for it, and each such row is made.
pub fn a_joined_row_has_one_fact_more()
    ensures made { (pass : Row → Named → Bool) (left : Row → Bool) (right : Named → Bool) (row : Row) (who : Named)
        → joined pass left right (with_name row who) ≡ (left row && (right who && pass row who)) }
    ensures from { (pass : Row → Named → Bool) (left : Row → Bool) (right : Named → Bool) (made : Row) → joined pass left right made ≡ true
        → (row : Row) × (who : Named) × (made ≡ with_name row who) }
{}

/// A test of a row without its last value, and of that value, holds of a row with one value more where it holds of the row and the
/// value, and of no other rows.
pub fn a_valued_row_has_one_value_more()
    ensures made { (test : Row → ℤ → Bool) (row : Row) (v : ℤ) → valued test (with_row_value row v) ≡ test row v }
    ensures from { (test : Row → ℤ → Bool) (made : Row) → valued test made ≡ true
        → (row : Row) × (v : ℤ) × (made ≡ with_row_value row v) × (test row v ≡ true) }
{}

/// Two stores with the same facts at the tags that are kept show the same in the memories.
pub fn memories_look_at_kept_tags_alone()
    ensures { MemoryMoveLaw (Unit {0}) }
{}

/// Whatever a node keeps for its left rows: after a step that is given true differences, it stands for the new rows and candidates.
pub fn a_step_leads_to_the_new_sets()
    ensures { StepsLaw (Unit {0}) }
{}

/// Whatever a node keeps for its left rows: after forgetting it stands for the same rows and candidates with more facts forgotten.
pub fn forgetting_keeps_the_sets()
    ensures { ForgetsLaw (Unit {0}) }
{}
