ghost use Rattle.std.specs.Prelude.{◌≡◌};
ghost use Rattle.life_meaning.specs.Lifetimes.{scope as scope_of};
ghost use Rattle.life_edges.specs.Places.{placed, StandsIn};

use rule_model::Condition;

/// The conditions that matter to the one of this place: all of the rule where it binds a fact, and else those up to it.
pub fn scope<'c>(
    conditions: &'c [Condition],
    place: usize,
    condition: &Condition,
) -> &'c [Condition]
    requires { StandsIn conditions.now (placed place condition.now) }
    ensures { result.now ≡ scope_of conditions.now (placed place condition.now) }
{
    match condition {
        Condition::Plain(_) => conditions,
        Condition::Negated(_) | Condition::Existing(_) | Condition::Folded(_) => {
            &conditions[..place + 1]
        }
    }
}
