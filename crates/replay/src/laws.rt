//! Laws of the run, each the contract of a function that does nothing.
ghost use Rattle.std.specs.Prelude.{◌≡◌, ◌↔◌, ◌++◌, ℕ, List, [], None};
ghost use Rattle.checkpoint.specs.declared.image.Image.{Image};
ghost use Rattle.checkpoint.specs.Bytes.{image_bytes, IsImage};
ghost use Rattle.gen_load.specs.Rules.{rules_text};
ghost use Rattle.rule_model.specs.declared.program.Program.{Program};
ghost use Rattle.rule_world.specs.Worlds.{World};
ghost use Rattle.answer_lines.specs.declared.lines.OutLine.{OutLine};
ghost use Rattle.script_run.specs.Firings.{Counts, Fires, Gives, all_fired, firings};
ghost use Rattle.replay.specs.declared.rule_file.Reading.{Reading};
ghost use Rattle.replay.specs.declared.rule_file.Reading.TheVariants.{Accepted};
ghost use Rattle.replay.specs.Refusals.{reading};
ghost use Rattle.replay.specs.Report.{Report, IsDefinite, IsReport};
ghost use Rattle.replay.specs.RuleFiles.{IsReading};
ghost use Rattle.replay.specs.Wanted.{Wanted};

use drl_parse::parsed_is_exact;

/// After a fire command that did not meet the limit nothing is pending, whatever the meaning of a firing.
pub fn a_fire_command_leaves_nothing_pending()
    ensures { (fires : Fires) (p : Program) (left more : ℕ) (w v : World) (lines : List OutLine)
        → firings fires p None left w ≡ all_fired lines v more → fires p v ≡ None }
{}

/// A rule file is what the grammar and the checks say: the function that the report uses gives exactly what the relation of six
/// cases has.
pub fn a_rule_file_is_what_the_grammar_says(bytes: &[u8])
    ensures { (found : Reading) → reading bytes.now ≡ found ↔ IsReading bytes.now found }
{
    parsed_is_exact(bytes)
}

/// The rule file of a load is accepted.
pub fn the_rule_file_of_a_load_is_accepted()
    ensures { (program : Program) × (reading rules_text ≡ Accepted program) }
{}

/// What is wanted has at most one report, unless it is certificates, which can be good in several ways, or a run behind an image: of one that
/// fits and is that of no world nothing is said but the statuses.
pub fn there_is_at_most_one_report()
    ensures { (gives : Gives) (fires : Fires) (counts : Counts) (w : Wanted) (script : List ℕ) (r q : Report)
        → IsDefinite w → IsReport gives fires counts w script r → IsReport gives fires counts w script q → r ≡ q }
{}

/// No image begins another one, so a file that was cut, or of which more was written, is refused.
pub fn no_image_begins_another()
    ensures { (a b : Image) (rest : List ℕ) → IsImage a → IsImage b → image_bytes b ≡ image_bytes a ++ rest → rest ≡ [] }
{}
