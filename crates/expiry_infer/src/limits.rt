//! Limits of time in milliseconds: their greatest and their sum.
ghost use Rattle.std.specs.Prelude.{◌≡◌};
ghost use Rattle.temporal_net.specs.Networks.{IsWithinNetwork};
ghost use Rattle.life_meaning.specs.Reach.{plus};
ghost use Rattle.life_edges.specs.Tails.{limit_of, IsShortLimit};
ghost use Rattle.expiry_infer.specs.Tops.{IsTop};

use fx_base::Bound;

pub(crate) fn greater(a: Bound, b: Bound) -> Bound
    ensures { IsTop (λ l. l ≡ limit_of b) (limit_of a) (limit_of result) }
{
    match (a, b) {
        (Bound::Finite(a), Bound::Finite(b)) => Bound::Finite(a.max(b)),
        _ => Bound::Infinite,
    }
}

/// The sum of a reach and a tail.
#[tactic(auto, unfolding(rule_world::specs::Events::most_millis))]
pub(crate) fn sum(reach: Bound, tail: Bound) -> Bound
    requires reach { IsWithinNetwork reach }
    requires tail { IsShortLimit (limit_of tail) }
    ensures { limit_of result ≡ plus (limit_of reach) (limit_of tail) }
{
    match (reach, tail) {
        (Bound::Finite(reach), Bound::Finite(tail)) => Bound::Finite(reach + tail),
        _ => Bound::Infinite,
    }
}
