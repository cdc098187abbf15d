//! The numbers and the moments of an image.
ghost use Rattle.std.specs.Prelude.{◌≡◌};
ghost use Rattle.std.specs.List.{list_all};
ghost use Rattle.image_fitting.specs.Tests.{is_small as is_few, is_next as is_next_number, counts_fit as do_counts_fit, is_reached as is_from_zero, moments_fit as do_moments_fit};

use checkpoint::Image;
use fx_base::Millis;
use fx_base::limits::MOST_MILLIS;
use rule_model::Program;

// The greatest number that counts facts, versions, lines or firings.
const MOST: u64 = 1 << 61;

/// Whether a number that counts on is small.
pub(crate) fn is_small(number: u64) -> bool
    ensures { result ≡ is_few number }
{
    number <= MOST
}

fn is_next(number: u64) -> bool
    ensures { result ≡ is_next_number number }
{
    1 <= number && is_small(number)
}

/// Whether the next numbers of an image are from 1 on, and its numbers are small.
pub(crate) fn counts_fit(image: &Image) -> bool
    ensures { result ≡ do_counts_fit image.now }
{
    is_next(image.next_id)
        && is_next(image.next_tag)
        && is_small(image.run.lines)
        && is_small(image.run.firings)
}

/// Whether a moment is from 0 to another.
pub(crate) fn is_reached(most: Millis, moment: Millis) -> bool
    ensures { result ≡ is_from_zero most moment }
{
    0 <= moment && moment <= most
}

fn are_reached(most: Millis, moments: &[Millis]) -> bool
    ensures { result ≡ list_all (is_from_zero most) moments.now }
{
    moments.iter().all(|moment| is_reached(most, *moment))
}

/// Whether an image has its moments for each entry point, from 0 to the clock and to the greatest moment.
#[tactic(auto, unfolding(rule_world::specs::Events::most_millis))]
pub(crate) fn moments_fit(program: &Program, image: &Image) -> bool
    ensures { result ≡ do_moments_fit program.now image.now }
{
    let entries = program.entries.as_slice().len();
    image.last_starts.as_slice().len() == entries
        && image.promises.as_slice().len() == entries
        && is_reached(MOST_MILLIS, image.clock)
        && are_reached(image.clock, image.last_starts.as_slice())
        && are_reached(MOST_MILLIS, image.promises.as_slice())
}
