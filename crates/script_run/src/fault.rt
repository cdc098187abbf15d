ghost use Rattle.std.specs.Prelude.{◌≡◌};
ghost use Rattle.script_run.specs.Texts.{code_text};

use rule_world::Code;

/// Why a line of the script, or an action of a firing, is faulty. The codes stand in the order in which they are tried.
#[derive(Clone, Copy, Debug, PartialEq, Eq)]
pub(crate) enum LineCode {
    /// The line has more than 65,536 bytes.
    LineLong,
    /// The line has no reading as JSON.
    BadJson,
    /// Its reading has none of the forms of a command.
    BadCommand,
    /// The engine refuses the change or the action.
    Refused(Code),
}

impl LineCode {
    /// The name of the code, as the line prints it.
    pub(crate) fn name(self) -> &'static str
        ensures { result.now ≡ code_text self }
    {
        match self {
            LineCode::LineLong => "LineLong",
            LineCode::BadJson => "BadJson",
            LineCode::BadCommand => "BadCommand",
            LineCode::Refused(code) => code.name(),
        }
    }
}
