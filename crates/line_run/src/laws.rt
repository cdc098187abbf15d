//! Laws of scripts, each the contract of a function that does nothing.
ghost use Rattle.std.specs.Prelude.{◌≡◌, ◌++◌, ℕ, List};
ghost use Rattle.fx_io.specs.Lines.{lines_of, HasNoEnd};
ghost use Rattle.line_run.specs.Parts.{EndsLine};
ghost use Rattle.line_run.specs.Prompt.{whole_lines};

/// The lines that end in bytes are the lines of what comes before the last piece, which has no end.
pub fn whole_lines_leave_a_last_piece_out()
    ensures { (lines piece : List ℕ) → EndsLine lines → HasNoEnd piece → whole_lines (lines ++ piece) ≡ lines_of lines }
{}
