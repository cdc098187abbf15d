use crate::shapes::{Printed, write_listed, write_parted};
use crate::tokens::{mark, variable, word};
use drl_expr::ExprTree;
use drl_grammar::ActTree;
use drl_lex::Mark;
use fx_base::{NoMemory, Text};

/// A field and its new value.
impl Printed for (Text, ExprTree) {
    ghost use Rattle.drl_show.specs.Canonical.{assign_tokens};

    ghost tokens = { assign_tokens };

    fn write(&self, out: &mut Vec<u8>) -> Result<(), NoMemory> {
        word(out, self.0.as_str())?;
        mark(out, Mark::Assign)?;
        self.1.write(out)
    }
}

impl Printed for ActTree {
    ghost use Rattle.drl_show.specs.Canonical.{action_tokens};

    ghost tokens = { action_tokens };

    #[tactic(auto, using(crate::proofs::Added::added_append))]
    fn write(&self, out: &mut Vec<u8>) -> Result<(), NoMemory> {
        match self {
            ActTree::Insert { ty, args } => {
                word(out, "insert")?;
                mark(out, Mark::OpenParenthesis)?;
                word(out, "new")?;
                word(out, ty.as_str())?;
                mark(out, Mark::OpenParenthesis)?;
                write_listed(out, args.as_slice())?;
                mark(out, Mark::CloseParenthesis)
            }
            ActTree::Modify { var, sets } => {
                word(out, "modify")?;
                mark(out, Mark::OpenParenthesis)?;
                variable(out, var.as_str())?;
                mark(out, Mark::CloseParenthesis)?;
                mark(out, Mark::OpenBrace)?;
                write_parted(out, Mark::Comma, sets.as_slice())?;
                mark(out, Mark::CloseBrace)
            }
            ActTree::Retract(var) => {
                word(out, "retract")?;
                mark(out, Mark::OpenParenthesis)?;
                variable(out, var.as_str())?;
                mark(out, Mark::CloseParenthesis)
            }
        }
    }
}
