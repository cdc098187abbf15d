ghost use Rattle.std.specs.Prelude.{◌≡◌};
ghost use Rattle.life_meaning.specs.Lifetimes.{at_least as least_of, tail as tail_of, tail_by};
ghost use Rattle.life_edges.specs.Tails.{limit_of};

use fx_base::{Bound, Millis};
use rule_model::{Pattern, Program, WindowTag};

fn at_least(expiry: Option<Millis>, lateness: Millis) -> Millis
    ensures { result ≡ least_of expiry lateness }
{
    match expiry {
        Some(expiry) => expiry.max(lateness),
        None => lateness,
    }
}

fn event_tail(window: WindowTag, expiry: Option<Millis>, lateness: Millis) -> Bound
    ensures { limit_of result ≡ tail_by window expiry lateness }
{
    match window {
        WindowTag::Whole => Bound::Finite(at_least(expiry, lateness)),
        WindowTag::Time(span) => Bound::Finite(span.max(at_least(expiry, lateness))),
        WindowTag::Length(_) => Bound::Infinite,
    }
}

/// How long behind its start an event of a pattern can still come, or still leave.
#[tactic(auto, unfolding(life_meaning::specs::Lifetimes::tail))]
pub fn tail(program: &Program, pattern: &Pattern) -> Bound
    ensures { limit_of result ≡ tail_of program.now pattern.now }
{
    if !program.is_event(pattern.ty) {
        return Bound::Infinite;
    }
    let expiry = program.expiry(pattern.ty);
    event_tail(pattern.window, expiry, program.lateness(pattern.entry))
}
