//! Laws of what an engine is asked for: each function's contract is the law, and its body is empty.
ghost use Rattle.std.specs.Prelude.{◌↔◌};
ghost use Rattle.std.specs.List.Sorted.{IsStrictlySortedBy};
ghost use Rattle.fx_base.specs.Lists.{In, EachOnce};
ghost use Rattle.fx_base.specs.declared.fact.Fact.{Fact};
ghost use Rattle.rule_model.specs.declared.life.LifeTable.{LifeTable};
ghost use Rattle.rule_model.specs.declared.program.Program.{Program};
ghost use Rattle.rule_model.specs.Distinct.{tag_cmp};
ghost use Rattle.rule_world.specs.Lawful.{IsLawful};
ghost use Rattle.rule_world.specs.Worlds.{World, pending};
ghost use Rattle.kept_meaning.specs.Kept.{kept_facts};
ghost use Rattle.engine.specs.KeptFacts.{kept_by_tag};

/// The kept facts by tag are the kept facts of a lawful world, in the strict order of their tags.
pub fn kept_facts_stand_by_tag()
    ensures order { (p : Program) (table : LifeTable) (w : World) → IsStrictlySortedBy tag_cmp (kept_by_tag p table w) }
    ensures facts { (p : Program) (table : LifeTable) (w : World) → IsLawful p w → (f : Fact)
        → In f (kept_by_tag p table w) ↔ In f (kept_facts p table w) }
{}

/// In a lawful world each pending match stands once in the list of them, so that its length is their number.
pub fn each_pending_match_stands_once()
    ensures { (p : Program) (w : World) → IsLawful p w → EachOnce (pending p w) }
{}
