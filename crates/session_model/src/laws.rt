//! Laws of changes and firings, each the contract of a function that does nothing.
ghost use Rattle.std.specs.Prelude.{◌≡◌, List, Some, option_map};
ghost use Rattle.rule_model.specs.declared.program.Program.{Program};
ghost use Rattle.rule_world.specs.Lawful.{IsLawful};
ghost use Rattle.rule_world.specs.Programs.{IsRunnable};
ghost use Rattle.rule_world.specs.Worlds.{World};
ghost use Rattle.script_read.specs.declared.asked.Change.{Change};
ghost use Rattle.answer_lines.specs.declared.lines.Detail.TheVariants.{Brief, Full};
ghost use Rattle.answer_lines.specs.declared.lines.OutLine.{OutLine};
ghost use Rattle.session_model.specs.Gives.{gives, gives_in, fires, fires_in, in_brief};

/// A change leads from a lawful world to a lawful one.
pub fn changes_keep_worlds_lawful()
    ensures { (p : Program) (w : World) (change : Change) → IsRunnable p → IsLawful p w → IsLawful p (gives p w change).1 }
{}

/// A firing leads from a lawful world to a lawful one.
pub fn firings_keep_worlds_lawful()
    ensures { (p : Program) (w : World) (lines : List OutLine) (next : World) → IsRunnable p → IsLawful p w → fires p w ≡ Some (lines, next) → IsLawful p next }
{}

/// In full and in brief changes and firings lead to the same worlds.
pub fn worlds_do_not_depend_on_the_detail()
    ensures changes { (p : Program) (w : World) (change : Change) → (gives_in Brief p w change).1 ≡ (gives_in Full p w change).1 }
    ensures firings { (p : Program) (w : World) → option_map (λ (f : List OutLine × World). f.1) (fires_in Brief p w)
        ≡ option_map (λ (f : List OutLine × World). f.1) (fires_in Full p w) }
{}

/// The answer in brief is what the answer in full says in brief: an inserted fact is one that is new, other values and retractions are not
/// told, and of a firing its facts are told by their numbers, among its results in the order of the rule's conditions. Of a firing the world
/// is lawful, so that each fact of its row is there.
pub fn answers_in_full_say_those_in_brief()
    ensures changes { (p : Program) (w : World) (change : Change) → gives_in Brief p w change ≡ in_brief p (gives_in Full p w change) }
    ensures firings { (p : Program) (w : World) → IsLawful p w → fires_in Brief p w ≡ option_map (in_brief p) (fires_in Full p w) }
{}
