//! Laws of what lines of a live script ask, the contracts of functions that do nothing.
ghost use Rattle.std.specs.Prelude.{◌≡◌, ◌↔◌, ℕ, List, Some, None};
ghost use Rattle.serde_json.specs.Data.{Data};
ghost use Rattle.script_read.specs.Asked.{IsLineReading, asked, bad_command};
ghost use Rattle.desk_read.specs.Questions.{IsQuestion, question_of};
ghost use Rattle.desk_read.specs.declared.asked.Question.{Question};

/// A line has the question whose form its reading has; or it has no reading, or its reading has no form.
pub fn a_line_has_the_question_of_its_form()
    ensures question { (line : List ℕ) (q : Question) → question_of line ≡ Some q ↔ ((d : Data) × IsLineReading line d × IsQuestion d q) }
    ensures none { (line : List ℕ) → question_of line ≡ None ↔ ((d : Data) → IsLineReading line d → (q : Question) → IsQuestion d q → ⊥) }
{}

/// A line with a question is none of the commands of every script.
pub fn a_question_is_no_command()
    ensures { (line : List ℕ) (q : Question) → question_of line ≡ Some q → asked line ≡ bad_command }
{}
