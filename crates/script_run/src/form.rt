ghost use Rattle.std.specs.Prelude.{◌≡◌};
ghost use Rattle.script_run.specs.Forms.{form_for};

use drl_names::RuleNames;
use fx_base::Seq;

/// The form of what a run answers.
#[derive(Debug, Drop)]
pub enum Form {
    /// Lines of text.
    Text,
    /// Objects in JSON, one to a line, with the names of each rule's variables.
    Objects(Seq<RuleNames>),
}

impl Form {
    /// Lines of text, or objects with these names.
    pub fn for_answers(text: bool, names: Seq<RuleNames>) -> Form
        ensures { result ≡ form_for text names }
    {
        if text {
            Form::Text
        } else {
            Form::Objects(names)
        }
    }
}
