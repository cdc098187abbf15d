//! Laws of what is kept: each function's contract is the law, and its body is empty.
ghost use Rattle.std.specs.Prelude.{◌≡◌, ◌↔◌, not, true, false};
ghost use Rattle.fx_base.specs.Lists.{In};
ghost use Rattle.fx_base.specs.declared.fact.Fact.{Fact};
ghost use Rattle.row_delta.specs.declared.row.Named.{Named};
ghost use Rattle.rule_model.specs.declared.life.LifeTable.{LifeTable};
ghost use Rattle.rule_model.specs.declared.program.Program.{Program};
ghost use Rattle.rule_model.specs.Distinct.{HaveDistinctTags};
ghost use Rattle.rule_model.specs.Tuples.{name_of};
ghost use Rattle.rule_world.specs.Worlds.{World};
ghost use Rattle.life_meaning.specs.Tables.{AreSafe, IsKept};
ghost use Rattle.kept_meaning.specs.Kept.{is_kept, kept_facts, is_forgotten};

/// With a safe table of lives the test is true of a fact of a world exactly where it is kept, and the list has exactly what is
/// kept.
pub fn kept_is_decided()
    ensures fact { (p : Program) (table : LifeTable) (w : World) → AreSafe p table → (f : Fact) → In f w.facts
        → (is_kept p table w f ≡ true) ↔ IsKept p table w f }
    ensures facts { (p : Program) (table : LifeTable) (w : World) → AreSafe p table → (f : Fact)
        → In f (kept_facts p table w) ↔ IsKept p table w f }
{}

/// What is forgotten is a fact of the world, by its name, that is not kept; over facts with distinct tags a fact of the world is
/// forgotten exactly where it is not kept.
pub fn what_is_not_kept_is_forgotten()
    ensures named { (p : Program) (table : LifeTable) (w : World) (who : Named) → is_forgotten p table w who ≡ true
        → (f : Fact) × In f w.facts × (name_of f ≡ who) × (is_kept p table w f ≡ false) }
    ensures fact { (p : Program) (table : LifeTable) (w : World) → HaveDistinctTags w.facts → (f : Fact) → In f w.facts
        → is_forgotten p table w (name_of f) ≡ not (is_kept p table w f) }
{}
