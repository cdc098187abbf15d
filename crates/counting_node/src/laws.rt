//! Laws of nodes with tallies: each function's contract is the law, and its body is empty.
ghost use Rattle.std.specs.Prelude.{not};
ghost use Rattle.fold_fn.specs.Held.{Held};
ghost use Rattle.rule_model.specs.declared.condition.Accumulate.{Accumulate};
ghost use Rattle.join_memory.specs.Valued.{without_value, shows_value};
ghost use Rattle.counting_node.specs.declared.count.Blockers.{Blockers};
ghost use Rattle.counting_node.specs.declared.count.Witnesses.{Witnesses};
ghost use Rattle.counting_node.specs.Counts.{counts_blockers, counts_witnesses, where_unblocked, where_witnessed};
ghost use Rattle.counting_node.specs.Gathers.{gathers, result_for};
ghost use Rattle.counting_node.specs.Extras.{blockers_laden, witnesses_laden, nothing_gathered, gathered_laden, arguments_gathered};
ghost use Rattle.counting_node.specs.Origins.{itself, shows_any};
ghost use Rattle.counting_node.specs.Laws.{EmptyTallyLaw, TallyLaw, TallyForgetLaw, TallyDropLaw, TallyMoveLaw, ShownLaw, GatheredLaw, LadenLaw, LoadLaw, ResumeLaw, OthersLaw};

/// A node that keeps nothing counts nothing.
pub fn a_new_node_counts_nothing()
    ensures blockers { EmptyTallyLaw Blockers counts_blockers }
    ensures witnesses { EmptyTallyLaw Witnesses counts_witnesses }
    ensures gathered { (a : Accumulate) → EmptyTallyLaw Held (gathers a) }
{}

/// A step leads to tallies of all candidates that pass, forgotten ones too, for all sets for which the node stands.
pub fn a_step_counts_all_candidates()
    ensures blockers { TallyLaw Blockers counts_blockers }
    ensures witnesses { TallyLaw Witnesses counts_witnesses }
    ensures gathered { (a : Accumulate) → TallyLaw Held (gathers a) }
{}

/// Forgetting changes no tally of a row that stays.
pub fn forgetting_keeps_the_tallies()
    ensures blockers { TallyForgetLaw Blockers counts_blockers }
    ensures witnesses { TallyForgetLaw Witnesses counts_witnesses }
    ensures gathered { (a : Accumulate) → TallyForgetLaw Held (gathers a) }
{}

/// The rows that go with what is dropped are those that name an old fact.
pub fn what_is_dropped_names_an_old_fact()
    ensures blockers { TallyDropLaw Blockers itself shows_any where_unblocked }
    ensures witnesses { TallyDropLaw Witnesses itself shows_any where_witnessed }
    ensures gathered { (a : Accumulate) → TallyDropLaw Held without_value shows_value (result_for a) }
{}

/// What a node stands for depends on the facts at the tags that it keeps alone.
pub fn tallies_look_at_kept_tags_alone()
    ensures blockers { TallyMoveLaw Blockers counts_blockers }
    ensures witnesses { TallyMoveLaw Witnesses counts_witnesses }
    ensures gathered { (a : Accumulate) → TallyMoveLaw Held (gathers a) }
{}

/// A left row is shown where none, or some, of all candidates passes.
pub fn counts_show_as_the_conditions_say()
    ensures blockers { ShownLaw Blockers counts_blockers where_unblocked (λ b. not b) }
    ensures witnesses { ShownLaw Witnesses counts_witnesses where_witnessed (λ b. b) }
{}

/// A left row is shown with the result over all candidates that pass.
pub fn results_show_as_the_conditions_say()
    ensures { (a : Accumulate) → GatheredLaw a }
{}

/// A tally with the extra of candidates that it does not count is that of all of them.
pub fn extras_make_up_for_candidates()
    ensures blockers { LadenLaw Blockers counts_blockers blockers_laden nothing_gathered }
    ensures witnesses { LadenLaw Witnesses counts_witnesses witnesses_laden nothing_gathered }
    ensures gathered { (a : Accumulate) → LadenLaw Held (gathers a) (gathered_laden a) (arguments_gathered a) }
{}

/// A node that kept nothing stands after a load for what was loaded.
pub fn a_load_leads_to_what_is_loaded()
    ensures blockers { LoadLaw Blockers counts_blockers blockers_laden }
    ensures witnesses { LoadLaw Witnesses counts_witnesses witnesses_laden }
    ensures gathered { (a : Accumulate) → LoadLaw Held (gathers a) (gathered_laden a) }
{}

/// A node that was loaded with what is kept, and with extras of what is forgotten, stands for both.
pub fn what_is_loaded_stands_for_what_is_forgotten()
    ensures blockers { ResumeLaw Blockers counts_blockers blockers_laden nothing_gathered }
    ensures witnesses { ResumeLaw Witnesses counts_witnesses witnesses_laden nothing_gathered }
    ensures gathered { (a : Accumulate) → ResumeLaw Held (gathers a) (gathered_laden a) (arguments_gathered a) }
{}

/// Beside the kept candidates the tallies count the forgotten ones that pass.
pub fn tallies_count_forgotten_candidates_beside_the_kept()
    ensures blockers { OthersLaw Blockers counts_blockers }
    ensures witnesses { OthersLaw Witnesses counts_witnesses }
    ensures gathered { (a : Accumulate) → OthersLaw Held (gathers a) }
{}
