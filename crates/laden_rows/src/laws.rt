//! Laws of the rows of kept facts: each function's contract is the law, and its body is empty.
ghost use Rattle.std.specs.Prelude.{◌≡◌, ◌+◌, ◌++◌, Bool, ℕ, List, map, length, take, true, false, Some, slice_get};
ghost use Rattle.fold_fn.specs.Laws.{HaveSame};
ghost use Rattle.row_delta.specs.declared.extra.Extra.{Extra};
ghost use Rattle.row_delta.specs.declared.row.Named.{Named};
ghost use Rattle.row_delta.specs.declared.row.Row.{Row};
ghost use Rattle.rule_model.specs.declared.condition.Accumulate.{Accumulate};
ghost use Rattle.rule_model.specs.declared.condition.Condition.{Condition};
ghost use Rattle.rule_model.specs.declared.condition.Condition.TheVariants.{Folded};
ghost use Rattle.rule_model.specs.declared.program.Program.{Program};
ghost use Rattle.rule_model.specs.declared.program.Rule.{Rule};
ghost use Rattle.rule_model.specs.Distinct.{HaveDistinctTags};
ghost use Rattle.rule_model.specs.Rows.{argument, binds, pattern_of};
ghost use Rattle.rule_model.specs.Snapshots.{Snapshot};
ghost use Rattle.join_memory.specs.Standing.{cleaned};
ghost use Rattle.condition_rows.specs.Sets.{partners, rows_of};
ghost use Rattle.laden_rows.specs.Extras.{AreExtras};
ghost use Rattle.laden_rows.specs.Laden.{AreOwners, IsKeptOf, count_of, extra_at, laden, extra_values_of};

/// Over the kept facts of a snapshot, with what conditions count of the forgotten ones, the rows of the first conditions of a rule, however
/// many, are those of the whole snapshot that name no forgotten fact. Beside such a row the candidates and what an extra counts are
/// together as many as all candidates, and give an accumulate the values of all of them.
pub fn laden_rows_are_the_kept_rows()
    ensures rows { (p : Program) (s : Snapshot) (t : Snapshot) (forgotten : Named → Bool) (extras : List Extra) (owners : ℕ → ℕ → ℕ)
        → HaveDistinctTags s.facts → IsKeptOf p s forgotten t → AreExtras p s forgotten extras → AreOwners p owners
        → (place : ℕ) (rule : Rule) → slice_get p.rules place ≡ Some rule → (n : ℕ) (row : Row)
        → laden p t extras (owners place) rule.conditions n row ≡ cleaned (rows_of p s (take n rule.conditions)) forgotten row }
    ensures counted { (p : Program) (s : Snapshot) (t : Snapshot) (forgotten : Named → Bool) (extras : List Extra) (owners : ℕ → ℕ → ℕ)
        → HaveDistinctTags s.facts → IsKeptOf p s forgotten t → AreExtras p s forgotten extras → AreOwners p owners
        → (place : ℕ) (rule : Rule) → slice_get p.rules place ≡ Some rule
        → (k : ℕ) (c : Condition) → slice_get rule.conditions k ≡ Some c → binds c ≡ false
        → (row : Row) → cleaned (rows_of p s (take k rule.conditions)) forgotten row ≡ true
        → length (partners p (pattern_of c) t row) + count_of (extra_at extras (owners place k) k row) ≡ length (partners p (pattern_of c) s row) }
    ensures gathered { (p : Program) (s : Snapshot) (t : Snapshot) (forgotten : Named → Bool) (extras : List Extra) (owners : ℕ → ℕ → ℕ)
        → HaveDistinctTags s.facts → IsKeptOf p s forgotten t → AreExtras p s forgotten extras → AreOwners p owners
        → (place : ℕ) (rule : Rule) → slice_get p.rules place ≡ Some rule
        → (k : ℕ) (a : Accumulate) → slice_get rule.conditions k ≡ Some (Folded a)
        → (row : Row) → cleaned (rows_of p s (take k rule.conditions)) forgotten row ≡ true
        → HaveSame (map (argument a.arg) (partners p a.pattern t row) ++ extra_values_of (extra_at extras (owners place k) k row))
        (map (argument a.arg) (partners p a.pattern s row)) }
{}
