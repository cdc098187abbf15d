//! A law of the steps that changes ask for, the contract of a function that does nothing.
ghost use Rattle.std.specs.Prelude.{◌≡◌, ◌≤◌, ℕ, Bool, true, length, Option, Ok};
ghost use Rattle.fx_base.specs.declared.fact.Fact.{Fact};
ghost use Rattle.rule_model.specs.declared.program.Program.{Program};
ghost use Rattle.rule_model.specs.declared.step.Step.{Step};
ghost use Rattle.rule_world.specs.Kinds.{step_fits};
ghost use Rattle.script_read.specs.declared.asked.Change.{Change};
ghost use Rattle.change_resolve.specs.Changes.{change_step};

/// The step that a change asks for fits the program, which has one entry point at least. An insertion has a declared type, an entry
/// point of the program and a value of its kind for each field; a modification has values for fields that there are, of their kinds.
/// That is so whatever facts are given: a modification is asked for only where the fact that is given for its id has the type that
/// the change names.
pub fn asked_steps_fit()
    ensures { (p : Program) (begun : Bool) (present : ℕ → Option Fact) (change : Change) (step : Step) → 1 ≤ length p.entries
        → change_step p begun present change ≡ Ok step → step_fits p present step ≡ true }
{}
