ghost use Rattle.std.specs.Prelude.{◌≡◌, ◌↔◌, ◌<ℤ◌, ℤ, IsTrue};
ghost use Rattle.beta_node.specs.Quiet.{IsBefore};

use fx_base::Millis;

/// The same moment in more bits.
pub(crate) fn widened(moment: Option<Millis>) -> Option<i128>
    ensures { result ≡ moment }
{
    match moment {
        Some(at) => Some(i128::from(at)),
        None => None,
    }
}

/// The earlier one of two moments, where they are there.
pub(crate) fn earlier(first: Option<i128>, second: Option<i128>) -> Option<i128>
    ensures { (clock : ℤ) → IsBefore result clock ↔ (IsBefore first clock × IsBefore second clock) }
{
    match first {
        Some(a) => earlier_than(a, second),
        None => second,
    }
}

// The earlier one of a moment and another one, where that is there.
fn earlier_than(first: i128, second: Option<i128>) -> Option<i128>
    ensures { (clock : ℤ) → IsBefore result clock ↔ ((clock <ℤ first) × IsBefore second clock) }
{
    match second {
        Some(b) if b < first => Some(b),
        _ => Some(first),
    }
}

/// Whether the clock is before a moment, where there is one.
pub(crate) fn is_before(clock: Millis, moment: Option<i128>) -> bool
    ensures { IsTrue result ↔ IsBefore moment clock }
{
    match moment {
        Some(at) => i128::from(clock) < at,
        None => true,
    }
}
