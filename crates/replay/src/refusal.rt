ghost use Rattle.std.specs.Prelude.{◌≡◌, ◌++◌, OnOk};
ghost use Rattle.replay.specs.Refusals.{refusal_code_text, refusal_text, whole_file as whole_file_of};

use drl_check::CheckCode;
use drl_parse::LexCode;
use fx_base::NoMemory;
use script_run::push_number;
use subrules::ExpandCode;

/// Why a rule file is refused.
#[derive(Clone, Copy, Debug, PartialEq, Eq)]
pub enum RefusalCode {
    /// The shelf has no file of this name.
    Missing,
    /// The file has more than 1,048,576 bytes.
    TooLong,
    /// It is not made of tokens.
    Lexical(LexCode),
    /// An item is outside the grammar.
    Syntax,
    /// An item cannot be written out.
    Expanded(ExpandCode),
    /// An item fails a check of what it is written out to.
    Checked(CheckCode),
}

/// Why a rule file is refused, and where. Items and lines are counted from 1; 0 stands for none of them.
#[derive(Clone, Copy, Debug, PartialEq, Eq)]
pub struct Refusal {
    pub item: u64,
    pub line: u64,
    pub code: RefusalCode,
}

/// The refusal of a file as a whole.
pub fn whole_file(code: RefusalCode) -> Refusal
    ensures { result ≡ whole_file_of code }
{
    Refusal {
        item: 0,
        line: 0,
        code,
    }
}

impl RefusalCode {
    /// The name of the code, as the line prints it.
    fn name(self) -> &'static str
        ensures { result.now ≡ refusal_code_text self }
    {
        match self {
            RefusalCode::Missing => "Missing",
            RefusalCode::TooLong => "TooLong",
            RefusalCode::Syntax => "Syntax",
            RefusalCode::Lexical(code) => code.name(),
            RefusalCode::Expanded(code) => code.name(),
            RefusalCode::Checked(code) => code.name(),
        }
    }
}

/// Appends the name of a code.
fn push_code(text: &mut Vec<u8>, code: RefusalCode) -> Result<(), NoMemory>
    ensures { OnOk result (text.new.items ≡ text.old.items ++ refusal_code_text code) }
{
    text.extend_from_slice(code.name().as_bytes())?;
    Ok(())
}

/// Appends the line of a refused file.
pub fn push_refusal(text: &mut Vec<u8>, refusal: Refusal) -> Result<(), NoMemory>
    ensures { OnOk result (text.new.items ≡ text.old.items ++ refusal_text refusal) }
{
    text.extend_from_slice(b"refused item ")?;
    push_number(text, refusal.item)?;
    text.extend_from_slice(b" line ")?;
    push_number(text, refusal.line)?;
    text.extend_from_slice(b" ")?;
    push_code(text, refusal.code)?;
    text.push(b'\n')?;
    Ok(())
}
