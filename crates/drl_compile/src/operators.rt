ghost use Rattle.std.specs.Prelude.{◌≡◌};
ghost use Rattle.std.specs.List.{list_all};
ghost use Rattle.drl_compile.specs.Operators.{is_span, operator_of};

use fx_base::Millis;
use fx_base::limits::MOST_MILLIS;
use temporal_ops::{Op, OpFault, OpWord};

#[tactic(auto, unfolding(crate::specs::Operators::is_span))]
fn is_within(millis: Millis) -> bool
    ensures { result ≡ is_span millis }
{
    -MOST_MILLIS <= millis && millis <= MOST_MILLIS
}

fn are_within(params: &[Millis]) -> bool
    ensures { result ≡ list_all is_span params.now }
{
    params.iter().all(|param| is_within(*param))
}

/// The operator of a word with its parameters, where the table has one for them. An accepted file has no others.
pub(crate) fn operator(word: OpWord, params: &[Millis]) -> Option<Op>
    ensures { result ≡ operator_of word params.now }
{
    if !are_within(params) {
        return None;
    }
    match Op::of(word, params) {
        Ok(op) => Some(op),
        Err(OpFault::ParamCount) => None,
        Err(OpFault::Negative) => None,
    }
}
