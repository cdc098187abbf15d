//! Laws of runs and scripts, each the contract of a function that does nothing.
ghost use Rattle.std.specs.Prelude.{◌≡◌, ◌++◌, ℕ, List, Some};
ghost use Rattle.fx_io.specs.Lines.{lines_of};
ghost use Rattle.checkpoint.specs.declared.image.RunPart.{RunPart};
ghost use Rattle.rule_world.specs.Worlds.{World, empty_world};
ghost use Rattle.script_run.specs.Limits.{with_limit, IsSameRun};
ghost use Rattle.line_run.specs.Parts.{EndsLine, first_part, progress_behind, run_part_at};
ghost use Rattle.line_run.specs.Run.{RunState, state_in, then_run};
ghost use Rattle.script_run.specs.Live.{LiveSetting, run_live};
ghost use Rattle.script_run.specs.Parts.{run_on};
ghost use Rattle.script_run.specs.Run.{RunSetting, whole_run};

/// A script in two parts, of which the first is empty or ends with a line end and does not meet the limit of firings: what it prints is what
/// the first part prints, and behind it what the second prints in the world that the first comes to, behind what an image says of the run
/// then. A whole run is one behind the part of a run that has not begun. What an image says of a run that went on behind an earlier image is
/// what it says of both as one run, since the firings that are left never rise.
pub fn a_run_goes_on_behind_its_first_lines()
    ensures parts { (setting : RunSetting) (w : World) (first : RunPart) (a b : List ℕ) (s : RunState) → EndsLine a
        → (run_on setting w first (lines_of a)).comes_to ≡ Some s
        → run_on setting w first (lines_of (a ++ b))
        ≡ then_run (run_on setting w first (lines_of a)).bytes (run_on setting s.world (run_part_at setting.limit first s.progress) (lines_of b)) }
    ensures part { (setting : RunSetting) (w : World) (first : RunPart) (a b : List (List ℕ)) (s t : RunState)
        → (run_on setting w first a).comes_to ≡ Some s → (run_on setting s.world (run_part_at setting.limit first s.progress) b).comes_to ≡ Some t
        → run_part_at setting.limit (run_part_at setting.limit first s.progress) t.progress ≡ run_part_at setting.limit first t.progress }
    ensures whole { (setting : RunSetting) (rules : List ℕ) (lines : List (List ℕ)) → whole_run setting lines ≡ run_on setting empty_world (first_part rules) lines }
{}

/// A live script in two parts: what it prints is what the first part prints, and behind it what the second prints in the world that the first comes to,
/// behind what an image says of the run then; so a desk that goes on from an image and one without a break print the same, for ever.
pub fn a_live_run_goes_on_behind_its_first_lines()
    ensures parts { (live : LiveSetting) (limit : ℕ) (w : World) (first : RunPart) (a b : List ℕ) (s : RunState) → EndsLine a
        → (run_live live (state_in w (progress_behind limit first)) (lines_of a)).comes_to ≡ Some s
        → run_live live (state_in w (progress_behind limit first)) (lines_of (a ++ b))
        ≡ then_run (run_live live (state_in w (progress_behind limit first)) (lines_of a)).bytes
        (run_live live (state_in s.world (progress_behind limit (run_part_at limit first s.progress))) (lines_of b)) }
    ensures part { (live : LiveSetting) (limit : ℕ) (w : World) (first : RunPart) (a b : List (List ℕ)) (s t : RunState)
        → (run_live live (state_in w (progress_behind limit first)) a).comes_to ≡ Some s
        → (run_live live (state_in s.world (progress_behind limit (run_part_at limit first s.progress))) b).comes_to ≡ Some t
        → run_part_at limit (run_part_at limit first s.progress) t.progress ≡ run_part_at limit first t.progress }
{}

/// What a script prints and comes to does not depend on the limit of firings, where that is not met.
pub fn a_run_does_not_depend_on_its_limit()
    ensures { (setting : RunSetting) (limit : ℕ) (lines : List (List ℕ)) (s t : RunState) → (whole_run setting lines).comes_to ≡ Some s
        → (whole_run (with_limit limit setting) lines).comes_to ≡ Some t
        → IsSameRun setting.limit limit (whole_run setting lines) (whole_run (with_limit limit setting) lines) s t }
{}
