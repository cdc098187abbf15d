//! Laws of nots: each function's contract is the law, and its body is empty.
ghost use Rattle.not_node.specs.Laws.{MaturityLaw, NotLaw, NotStepLaw, NotDropLaw, NotMoveLaw, QuietLaw};

/// A row waits for its moment as long as its tuple is not mature.
pub fn rows_mature_as_their_tuples_do()
    ensures { MaturityLaw }
{}

/// The rows of a not are the left rows for which no candidate passes and that are mature.
pub fn a_not_has_the_mature_rows_with_no_candidate()
    ensures { NotLaw }
{}

/// A step of a not is the true difference of its line.
pub fn a_step_answers_the_true_difference()
    ensures { NotStepLaw }
{}

/// The rows that go with what is dropped are those that name an old fact.
pub fn what_is_dropped_names_an_old_fact()
    ensures { NotDropLaw }
{}

/// A not depends on the facts at the tags that it keeps alone.
pub fn a_not_looks_at_kept_tags_alone()
    ensures { NotMoveLaw }
{}

/// With a later floor for which no row is due a not has the same rows.
pub fn a_floor_alone_ripens_what_is_due()
    ensures { QuietLaw }
{}
