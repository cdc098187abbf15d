//! Laws of the inference. The functions do nothing.
ghost use Rattle.std.specs.Prelude.{List};
ghost use Rattle.std.specs.Bool.{Decides};
ghost use Rattle.rule_model.specs.declared.condition.Condition.{Condition};
ghost use Rattle.rule_model.specs.declared.program.Program.{Program};
ghost use Rattle.life_meaning.specs.Networks.{AreSolvable};
ghost use Rattle.life_edges.specs.Edges.{HaveNetwork};
ghost use Rattle.expiry_infer.specs.Solvable.{can_match};

/// Patterns can match, as a function, exactly where their network has a solution.
pub fn what_can_match_is_known()
    ensures { (p : Program) (conditions : List Condition) → HaveNetwork conditions → Decides (can_match p conditions) (AreSolvable p conditions) }
{}
