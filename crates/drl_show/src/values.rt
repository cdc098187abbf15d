ghost use Rattle.std.specs.Prelude.{◌≡◌, OnOk};
ghost use Rattle.drl_show.specs.Canonical.{truth_word};

use crate::shapes::Printed;
use crate::tokens::{mark, number, text, variable, word};
use drl_expr::LitTree;
use drl_grammar::Operand;
use drl_lex::Mark;
use fx_base::NoMemory;

/// A span in milliseconds, or another number.
impl Printed for i64 {
    ghost use Rattle.drl_show.specs.Canonical.{number_tokens};

    ghost tokens = { number_tokens };

    fn write(&self, out: &mut Vec<u8>) -> Result<(), NoMemory> {
        number(out, *self)
    }
}

fn truth(value: bool) -> &'static str
    ensures { result.now ≡ truth_word value }
{
    if value { "true" } else { "false" }
}

impl Printed for LitTree {
    ghost use Rattle.drl_show.specs.Canonical.{literal_tokens};

    ghost tokens = { literal_tokens };

    fn write(&self, out: &mut Vec<u8>) -> Result<(), NoMemory> {
        match self {
            LitTree::Int(value) => number(out, *value),
            LitTree::Bool(value) => word(out, truth(*value)),
            LitTree::Text(content) => text(out, content.as_str()),
        }
    }
}

impl Printed for Operand {
    ghost use Rattle.drl_show.specs.Canonical.{operand_tokens};

    ghost tokens = { operand_tokens };

    fn write(&self, out: &mut Vec<u8>) -> Result<(), NoMemory> {
        match self {
            Operand::Lit(literal) => literal.write(out),
            Operand::Var(name) => variable(out, name.as_str()),
            Operand::VarField(name, field) => {
                variable(out, name.as_str())?;
                mark(out, Mark::Dot)?;
                word(out, field.as_str())
            }
            Operand::Own(field) => word(out, field.as_str()),
        }
    }
}
