//! Laws of worlds, each the contract of a function that does nothing.
ghost use Rattle.std.specs.Prelude.{◌≡◌, ◌⊎◌, ◌≤◌, ◌<◌, ◌≤ℤ◌, ℕ, ℤ, List, true, false, [], length, pos, Option, Some, None};
ghost use Rattle.std.specs.declared.cmp.Ordering.{Ordering};
ghost use Rattle.fx_base.specs.Lists.{In};
ghost use Rattle.fx_base.specs.declared.fact.Fact.{Fact};
ghost use Rattle.fx_base.specs.declared.ids.FactId.{FactId};
ghost use Rattle.fx_base.specs.declared.ids.Tag.{Tag};
ghost use Rattle.fx_base.specs.declared.ids.TypeId.{TypeId};
ghost use Rattle.row_delta.specs.declared.row.Row.{Row};
ghost use Rattle.rule_model.specs.declared.action.Action.{Action};
ghost use Rattle.rule_model.specs.declared.matched.Match.{Match};
ghost use Rattle.rule_model.specs.declared.program.Program.{Program};
ghost use Rattle.rule_model.specs.declared.program.Rule.{Rule};
ghost use Rattle.rule_model.specs.declared.step.Step.{Step};
ghost use Rattle.rule_model.specs.declared.step.Step.TheVariants.{Retract, Advance, At, Begin};
ghost use Rattle.rule_model.specs.Candidates.{is_present};
ghost use Rattle.rule_model.specs.Lent.{Holds, bound_in};
ghost use Rattle.rule_model.specs.Matches.{fire_cmp, saliences, has_match};
ghost use Rattle.rule_model.specs.Planned.{step_of};
ghost use Rattle.rule_model.specs.Rows.{rows};
ghost use Rattle.rule_model.specs.Types.{is_event};
ghost use Rattle.rule_world.specs.Kinds.{step_fits};
ghost use Rattle.rule_world.specs.Lawful.{IsOrdered, IsLawful};
ghost use Rattle.rule_world.specs.Typed.{is_typed};
ghost use Rattle.rule_world.specs.Worlds.{World, snapshot, empty_world, stepped, step_fault, fact_of, found, is_of_type, pending, first_pending, marked};

/// The first pending match is pending, and no pending match fires before it; there is none only where nothing is
/// pending.
pub fn first_pending_fires_first()
    ensures member { (p : Program) (w : World) (m : Match) → first_pending p w ≡ Some m → has_match (pending p w) m ≡ true }
    ensures least { (p : Program) (w : World) (m : Match) (n : Match) → first_pending p w ≡ Some m
        → has_match (pending p w) n ≡ true → fire_cmp (saliences p.rules) n m ≡ Ordering.Less → ⊥ }
    ensures none { (p : Program) (w : World) → first_pending p w ≡ None → pending p w ≡ [] }
{}

/// The numbers and the marks of worlds stay in order, whatever the steps.
pub fn worlds_stay_in_order()
    ensures empty { (p : Program) → IsOrdered p empty_world }
    ensures step { (p : Program) (w : World) (step : Step) → IsOrdered p w → IsOrdered p (stepped p w step) }
    ensures firing { (p : Program) (w : World) (m : Match) → IsOrdered p w → has_match (pending p w) m ≡ true → IsOrdered p (marked w m) }
{}

/// The empty world is lawful. A step that has no fault and whose values have the declared kinds leads from a lawful world to a
/// lawful one, and so does a firing.
pub fn worlds_stay_lawful()
    ensures empty { (p : Program) → IsLawful p empty_world }
    ensures step { (p : Program) (w : World) (step : Step) → IsLawful p w → step_fits p (fact_of w.facts) step ≡ true → step_fault p w step ≡ None
        → IsLawful p (stepped p w step) }
    ensures firing { (p : Program) (w : World) (m : Match) → IsLawful p w → has_match (pending p w) m ≡ true → IsLawful p (marked w m) }
{}

/// What is new in a world behind a step has the next tag.
pub fn new_versions_have_the_next_tag()
    ensures { (p : Program) (w : World) (step : Step) (f : Fact) → In f (stepped p w step).facts → In f w.facts ⊎ (f.tag.0 ≡ w.next_tag) }
{}

/// The retraction of what is not present, a move of the clock to where it stands, and a begin of a world that has begun change nothing.
pub fn vain_steps_change_nothing()
    ensures retraction { (p : Program) (w : World) (ty : TypeId) (id : FactId) → IsOrdered p w → is_of_type ty.0 (found p w id.0) ≡ false
        → stepped p w (Retract ty id) ≡ w }
    ensures advance { (p : Program) (w : World) → IsOrdered p w → stepped p w (Advance (pos 0)) ≡ w }
    ensures at { (p : Program) (w : World) → IsOrdered p w → stepped p w (At w.clock) ≡ w }
    ensures begin { (p : Program) (w : World) → IsOrdered p w → w.begun ≡ true → stepped p w Begin ≡ w }
{}

/// The steps that the actions of a typed program ask for have values of the declared kinds: for a row of the rule over the
/// facts of a lawful world, which are found at their tags.
pub fn steps_of_actions_fit()
    ensures { (p : Program) (w : World) (facts_at : Tag → Option Fact) (rule : Rule) (row : Row) (a : Action) (step : Step)
        → is_typed p ≡ true → 1 ≤ length p.entries → In rule p.rules → IsLawful p w → Holds facts_at w.facts
        → In row (rows p (snapshot w) rule.conditions) → In a rule.actions → step_of (bound_in facts_at row) row.facts a ≡ Some step
        → step_fits p (fact_of w.facts) step ≡ true }
{}

/// Steps keep the types of facts: a fact that is still there behind a step has the type that it had. No step brings a fact
/// back: one whose id was given before the step was there before it.
pub fn types_stay()
    ensures types { (p : Program) (w : World) (step : Step) (id : ℕ) (f : Fact) (g : Fact) → IsOrdered p w → fact_of w.facts id ≡ Some f
        → fact_of (stepped p w step).facts id ≡ Some g → g.ty ≡ f.ty }
    ensures ids { (p : Program) (w : World) (step : Step) → w.next_id ≤ (stepped p w step).next_id }
    ensures there { (p : Program) (w : World) (step : Step) (id : ℕ) (g : Fact) → IsOrdered p w → id < w.next_id
        → fact_of (stepped p w step).facts id ≡ Some g → (f : Fact) × (fact_of w.facts id ≡ Some f) }
{}

/// What is found among the present facts is the fact of its id, and a plain fact that has an id is found. A step whose values fit
/// what is found fits the world.
pub fn what_is_found_is_there()
    ensures there { (p : Program) (w : World) (id : ℕ) (f : Fact) → IsOrdered p w → found p w id ≡ Some f → fact_of w.facts id ≡ Some f }
    ensures plain { (p : Program) (w : World) (id : ℕ) (f : Fact) → IsOrdered p w → fact_of w.facts id ≡ Some f → is_event p f.ty.0 ≡ false
        → found p w id ≡ Some f }
    ensures fits { (p : Program) (w : World) (step : Step) → IsOrdered p w → step_fits p (found p w) step ≡ true
        → step_fits p (fact_of w.facts) step ≡ true }
{}

/// A fact that is not present at a clock is not present at any later one.
pub fn absence_stays()
    ensures { (p : Program) (c : ℤ) (d : ℤ) (f : Fact) → is_present p c f ≡ false → c ≤ℤ d → is_present p d f ≡ false }
{}
