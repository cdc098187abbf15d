//! A law of what lines ask for, the contract of a function that does nothing.
ghost use Rattle.std.specs.Prelude.{◌≡◌, ◌↔◌, ℕ, List};
ghost use Rattle.serde_json.specs.Data.{Data};
ghost use Rattle.script_read.specs.Asked.{IsLineReading, asks, bad_json, bad_command, asked};
ghost use Rattle.script_read.specs.Form.{IsForm};
ghost use Rattle.script_read.specs.declared.asked.Command.{Command};

/// A line asks for the command whose form its reading has; or it has no reading, or its reading has no form.
pub fn a_line_asks_for_what_its_form_says()
    ensures command { (line : List ℕ) (c : Command) → asked line ≡ asks c ↔ ((d : Data) × IsLineReading line d × IsForm d c) }
    ensures bad_json { (line : List ℕ) → asked line ≡ bad_json ↔ ((d : Data) → IsLineReading line d → ⊥) }
    ensures bad_command { (line : List ℕ) → asked line ≡ bad_command ↔ ((d : Data) × IsLineReading line d × ((c : Command) → IsForm d c → ⊥)) }
{}
