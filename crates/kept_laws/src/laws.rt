//! Laws of what is kept over steps: each function's contract is the law, and its body is empty.
ghost use Rattle.std.specs.Prelude.{◌≡◌, ◌≤ℤ◌, ◌&&◌, not, ℕ, ℤ, true, false, take, Some, slice_get};
ghost use Rattle.fx_base.specs.Lists.{In};
ghost use Rattle.fx_base.specs.declared.fact.Fact.{Fact};
ghost use Rattle.row_delta.specs.declared.row.Named.{Named};
ghost use Rattle.row_delta.specs.declared.row.Row.{Row};
ghost use Rattle.rule_model.specs.declared.condition.Condition.{Condition};
ghost use Rattle.rule_model.specs.declared.condition.WindowTag.TheVariants.{Time};
ghost use Rattle.rule_model.specs.declared.life.LifeTable.{LifeTable};
ghost use Rattle.rule_model.specs.declared.matched.Match.{Match};
ghost use Rattle.rule_model.specs.declared.program.Program.{Program};
ghost use Rattle.rule_model.specs.declared.program.Rule.{Rule};
ghost use Rattle.rule_model.specs.declared.step.Step.{Step};
ghost use Rattle.rule_model.specs.Candidates.{is_candidate};
ghost use Rattle.rule_model.specs.Rows.{pattern_of};
ghost use Rattle.rule_model.specs.Snapshots.{Snapshot};
ghost use Rattle.rule_model.specs.Tuples.{name_of};
ghost use Rattle.rule_world.specs.Lawful.{IsLawful};
ghost use Rattle.rule_world.specs.Worlds.{World, snapshot, stepped, marked};
ghost use Rattle.life_meaning.specs.Tables.{AreSafe};
ghost use Rattle.rule_model.specs.Rows.{binds};
ghost use Rattle.join_tests.specs.Joins.{Look, joins};
ghost use Rattle.join_memory.specs.Standing.{clean, no_names};
ghost use Rattle.condition_rows.specs.Looks.{HasAllOf};
ghost use Rattle.condition_rows.specs.Sets.{candidates_of};
ghost use Rattle.kept_meaning.specs.Kept.{is_kept, is_forgotten};
ghost use Rattle.kept_laws.specs.Steps.{IsLawfulStep, behind, RowComes};

/// For a row of the conditions before a `not`, an `exists` or an `accumulate` that comes in a step, what was forgotten before the step
/// is behind it no candidate that passes, whatever look has all versions of the snapshot there.
pub fn rows_that_come_meet_what_is_kept()
    ensures { (p : Program) (table : LifeTable) (w : World) (step : Step) → IsLawfulStep p table w step
        → (rule : Rule) → In rule p.rules → (q : ℕ) (c : Condition) → slice_get rule.conditions q ≡ Some c → binds c ≡ false
        → (look : Look) → HasAllOf look (behind p w step) no_names
        → (row : Row) → RowComes p w step (take q rule.conditions) row
        → (who : Named) → is_forgotten p table w who ≡ true
        → (candidates_of p (pattern_of c) (behind p w step) who && joins (pattern_of c) look row who) ≡ false }
{}

/// What was forgotten before a step is behind it a candidate of a condition exactly where it was one: where the step did not take the
/// fact away, and for a `not`, an `exists` or an `accumulate` always.
pub fn what_is_forgotten_stays_a_candidate()
    ensures there { (p : Program) (table : LifeTable) (w : World) (step : Step) → IsLawfulStep p table w step
        → (rule : Rule) → In rule p.rules → (q : ℕ) (c : Condition) → slice_get rule.conditions q ≡ Some c
        → (f : Fact) → is_forgotten p table w (name_of f) ≡ true → In f (behind p w step).facts
        → candidates_of p (pattern_of c) (behind p w step) (name_of f) ≡ candidates_of p (pattern_of c) (snapshot w) (name_of f) }
    ensures observed { (p : Program) (table : LifeTable) (w : World) (step : Step) → IsLawfulStep p table w step
        → (rule : Rule) → In rule p.rules → (q : ℕ) (c : Condition) → slice_get rule.conditions q ≡ Some c → binds c ≡ false
        → (who : Named) → is_forgotten p table w who ≡ true
        → candidates_of p (pattern_of c) (behind p w step) who ≡ candidates_of p (pattern_of c) (snapshot w) who }
{}

/// A row of a whole rule that comes in a step names nothing that was forgotten before the step.
pub fn rows_that_come_name_what_is_kept()
    ensures { (p : Program) (table : LifeTable) (w : World) (step : Step) → IsLawfulStep p table w step
        → (rule : Rule) → In rule p.rules → (row : Row) → RowComes p w step rule.conditions row
        → clean (is_forgotten p table w) row ≡ true }
{}

/// What is kept behind a step and was a fact before it was kept before it, so what was forgotten and is still a fact stays forgotten.
/// The same of a firing, which leaves the facts.
pub fn what_is_forgotten_stays_forgotten()
    ensures kept { (p : Program) (table : LifeTable) (w : World) (step : Step) → IsLawfulStep p table w step
        → (f : Fact) → In f w.facts → In f (stepped p w step).facts
        → is_kept p table (stepped p w step) f ≡ true → is_kept p table w f ≡ true }
    ensures step { (p : Program) (table : LifeTable) (w : World) (step : Step) → IsLawfulStep p table w step
        → (f : Fact) → is_forgotten p table w (name_of f) ≡ true → In f (stepped p w step).facts
        → is_forgotten p table (stepped p w step) (name_of f) ≡ true }
    ensures firing { (p : Program) (table : LifeTable) (w : World) (m : Match) (who : Named)
        → is_forgotten p table w who ≡ true → is_forgotten p table (marked w m) who ≡ true }
{}

/// A fact of a lawful world that is not kept is inside no window of time: from the world's clock on it is a candidate of no condition that
/// has one.
pub fn what_is_forgotten_is_in_no_window_of_time()
    ensures { (p : Program) (table : LifeTable) (w : World) → AreSafe p table → IsLawful p w → (f : Fact) → In f w.facts → is_kept p table w f ≡ false
        → (rule : Rule) → In rule p.rules → (c : Condition) → In c rule.conditions → (span : ℤ) → (pattern_of c).window ≡ Time span
        → (s : Snapshot) → w.clock ≤ℤ s.clock → is_candidate p (pattern_of c) s f ≡ false }
{}
