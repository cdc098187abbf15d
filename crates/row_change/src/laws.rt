//! Laws of differences: each function's contract is the law, and its body is empty.
ghost use Rattle.std.specs.Prelude.{◌≡◌, ◌↔◌, Bool, List};
ghost use Rattle.row_delta.specs.Rows.{has};
ghost use Rattle.row_delta.specs.Differences.{IsBetween};
ghost use Rattle.row_delta.specs.declared.row.Row.{Row};
ghost use Rattle.row_delta.specs.declared.delta.Delta.{Delta};
ghost use Rattle.row_change.specs.Changes.{IsDifference};

/// The difference of two lists of rows is that of the sets of their rows.
pub fn a_difference_of_lists_is_one_of_sets()
    ensures { (old new : List Row) (delta : Delta) → IsBetween old new delta ↔ IsDifference (has old) (has new) delta }
{}

/// What a difference says of sets it says of all that answer alike.
pub fn sets_that_answer_alike_have_the_same_difference()
    ensures { (old old_too new new_too : Row → Bool) (delta : Delta) → ((row : Row) → old row ≡ old_too row) → ((row : Row) → new row ≡ new_too row)
        → IsDifference old new delta → IsDifference old_too new_too delta }
{}
