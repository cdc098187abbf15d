use drl_expr::ExprTree;
use fx_base::{Seq, Text};

/// An action of a rule.
#[derive(Debug, Drop)]
pub enum ActTree {
    /// A new fact of the type, with a value for each field.
    Insert {
        ty: Text,
        args: Seq<ExprTree>,
    },
    /// The fact of the variable gets these values in these fields.
    Modify {
        var: Text,
        sets: Seq<(Text, ExprTree)>,
    },
    /// The fact of the variable is taken away.
    Retract(Text),
}
