//! Laws of joins: each function's contract is the law, and its body is empty.
ghost use Rattle.std.specs.Prelude.{◌≡◌, true, map, None};
ghost use Rattle.row_delta.specs.declared.row.Named.{Named};
ghost use Rattle.row_delta.specs.declared.row.Row.{Row};
ghost use Rattle.rule_model.specs.declared.condition.Pattern.{Pattern};
ghost use Rattle.join_tests.specs.Joins.{Look, joins};
ghost use Rattle.join_tests.specs.Keys.{join_keys, row_part, candidate_part};
ghost use Rattle.join_tests.specs.TimeKeys.{time_key};
ghost use Rattle.join_tests.specs.Kept.{row_value, candidate_value, rows_sought, candidates_sought, is_value_among};
ghost use Rattle.join_tests.specs.RowKeys.{row_key, value_by};
ghost use Rattle.join_tests.specs.NameKeys.{KeptAlikeLaw, SoughtAlikeLaw};

/// A candidate that joins a row has what the row has of each equality, and so, where no range of time is asked for, the row's join
/// value. The row's value is among those that are sought for the candidate, and the candidate's among those for the row.
pub fn what_joins_has_equal_values()
    ensures each { (p : Pattern) (look : Look) (row : Row) (who : Named) → joins p look row who ≡ true
        → map (row_part look row) (join_keys p) ≡ map (candidate_part look who) (join_keys p) }
    ensures joined { (p : Pattern) (look : Look) (row : Row) (who : Named) → joins p look row who ≡ true → time_key p ≡ None
        → row_value p look row ≡ candidate_value p look who }
    ensures rows { (p : Pattern) (look : Look) (row : Row) (who : Named) → joins p look row who ≡ true
        → is_value_among (rows_sought p look who) (row_value p look row) ≡ true }
    ensures candidates { (p : Pattern) (look : Look) (row : Row) (who : Named) → joins p look row who ≡ true
        → is_value_among (candidates_sought p look row) (candidate_value p look who) ≡ true }
{}

/// Under which value a row is kept its pattern's key of rows alone decides.
pub fn a_row_key_decides_where_rows_are_kept()
    ensures { (p : Pattern) (look : Look) (row : Row) → row_value p look row ≡ value_by (row_key p) look row }
{}

/// Under which value a candidate is kept its pattern's key of candidates alone decides, and so under which values rows are sought for it.
pub fn a_name_key_decides_where_candidates_are_kept()
    ensures kept { KeptAlikeLaw }
    ensures sought { SoughtAlikeLaw }
{}
