ghost use Rattle.std.specs.Prelude.{◌≡◌, pos, IfOk};
ghost use Rattle.fx_base.specs.declared.value.Value.{Value};
ghost use Rattle.fx_base.specs.declared.value.Value.TheVariants as value;
ghost use Rattle.rule_model.specs.Expressions.{lit};
ghost use Rattle.drl_compile.specs.Programs.{no_type};

use drl_grammar::TypeTree;
use fx_base::{NoMemory, Seq, Text, Value};
use rule_model::{Expr, ExprNode};
use std::alloc::Global;

/// A type without fields, which stands where a type is not declared.
pub(crate) fn fieldless(alloc: Global) -> Result<TypeTree, NoMemory>
    ensures { IfOk result (λ tree. tree ≡ no_type) }
{
    Ok(TypeTree {
        name: Text::new(alloc, "")?,
        metas: Seq::from_vec(Vec::new(alloc)),
        fields: Seq::from_vec(Vec::new(alloc)),
    })
}

/// The number 0, which stands where a variable has no value.
pub(crate) fn zero() -> Expr
    ensures { result ≡ lit (value.Int (pos 0)) }
{
    Expr::of(ExprNode::Lit(Value::Int(0)))
}
