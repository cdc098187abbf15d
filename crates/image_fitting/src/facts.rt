//! The facts of an image.
ghost use Rattle.std.specs.Prelude.{◌≡◌, ◌↔◌, IsTrue, IfOk, length, replicate, pos};
ghost use Rattle.std.specs.List.{list_all};
ghost use Rattle.rule_model.specs.Distinct.{HaveDistinctIds};
ghost use Rattle.rule_model.specs.Moments.{moment_in};
ghost use Rattle.rule_world.specs.Kinds.{has_kind as is_of_kind, have_kinds as are_of_kinds, fact_fits};
ghost use Rattle.image_fitting.specs.Tests.{ends_as_its_type as does_end, is_event_short as is_short_event, is_lasting as does_last, is_timed as is_timed_event, times_fit as do_times_fit, is_at_hand as is_at_hand_in, come_in_turn as do_come_in_turn};

use crate::numbers::is_reached;
use crate::orders::are_in_order;
use checkpoint::Image;
use fx_base::limits::MOST_MILLIS;
use fx_base::{EntryId, Fact, Kind, Millis, NoMemory, Text, Times, Value};
use rule_model::Program;
use std::alloc::Global;

fn has_kind(kind: Kind, value: &Value) -> bool
    ensures { result ≡ is_of_kind kind value.now }
{
    match (kind, value) {
        (Kind::Int, Value::Int(_)) => true,
        (Kind::Bool, Value::Bool(_)) => true,
        (Kind::Text, Value::Text(_)) => true,
        _ => false,
    }
}

fn have_kinds(fields: &[(Text, Kind)], values: &[Value]) -> bool
    ensures { result ≡ are_of_kinds fields.now values.now }
{
    if fields.len() != values.len() {
        return false;
    }
    for place in 0..fields.len() {
        if !has_kind(fields[place].1, &values[place]) {
            return false;
        }
    }
    true
}

// Whether a fact has a type and an entry point of the program, and values of the declared kinds.
fn is_declared(program: &Program, fact: &Fact) -> bool
    ensures { result ≡ fact_fits program.now fact.now }
{
    match program.type_info(fact.ty) {
        Some(info) => {
            have_kinds(info.fields.as_slice(), fact.fields.as_slice())
                && (fact.entry.0 as usize) < program.entries.as_slice().len()
        }
        None => false,
    }
}

// Whether an event, of a type of points or not, ends where it is to end, from its start on.
fn ends_as_its_type(point: bool, times: Times) -> bool
    ensures { result ≡ does_end point times }
{
    !point || times.end == times.start
}

#[tactic(auto, unfolding(rule_world::specs::Events::most_millis))]
fn is_short(times: Times) -> bool
    ensures { result ≡ is_short_event times }
{
    i128::from(times.end) - i128::from(times.start) <= i128::from(MOST_MILLIS)
}

// Whether an event, of a type of points or not, lasts as long as one may.
fn is_lasting(point: bool, times: Times) -> bool
    ensures { result ≡ does_last point times }
{
    times.start <= times.end && ends_as_its_type(point, times) && is_short(times)
}

// Whether these are the times of an event, of a type of points or not, by the clock and the last start of its entry point.
fn is_timed(point: bool, clock: Millis, last_start: Millis, times: Times) -> bool
    ensures { result ≡ is_timed_event point clock last_start times }
{
    is_reached(clock, times.start) && times.start <= last_start && is_lasting(point, times)
}

// The last start of an entry point; 0 beyond the end.
fn last_start(last_starts: &[Millis], entry: EntryId) -> Millis
    ensures { result ≡ moment_in last_starts.now entry.0 }
{
    last_starts.get(entry.0 as usize).copied().unwrap_or(0)
}

fn times_fit(program: &Program, image: &Image, fact: &Fact) -> bool
    ensures { result ≡ do_times_fit program.now image.now fact.now }
{
    if program.is_event(fact.ty) {
        let last = last_start(image.last_starts.as_slice(), fact.entry);
        image.begun && is_timed(program.is_point(fact.ty), image.clock, last, fact.times)
    } else {
        fact.times.start == 0 && fact.times.end == 0
    }
}

/// Whether a fact may be one of an image, whatever the others are: its numbers are below the next ones, it is the program's, it is
/// present, and its times are those of an event at the clock, or of a plain fact.
pub(crate) fn is_at_hand(program: &Program, image: &Image, fact: &Fact) -> bool
    ensures { result ≡ is_at_hand_in program.now image.now fact.now }
{
    fact.id.0 < image.next_id
        && fact.tag.0 < image.next_tag
        && is_declared(program, fact)
        && program.is_present(image.clock, fact)
        && times_fit(program, image, fact)
}

/// Whether all facts of an image may be there, each for itself.
pub(crate) fn are_at_hand(program: &Program, image: &Image) -> bool
    ensures { result ≡ list_all (is_at_hand_in program.now image.now) image.now.facts }
{
    image
        .facts
        .as_slice()
        .iter()
        .all(|fact| is_at_hand(program, image, fact))
}

/// Whether no event starts before an earlier one of its entry point.
pub(crate) fn come_in_turn(
    alloc: Global,
    program: &Program,
    facts: &[Fact],
) -> Result<bool, NoMemory>
    ensures { IfOk result (λ yes. yes ≡ do_come_in_turn program.now (replicate (length program.now.entries) (pos 0)) facts.now) }
{
    let mut latest = vec![in alloc; 0; program.entries.as_slice().len()]?;
    for fact in facts {
        if program.is_event(fact.ty) {
            let entry = fact.entry.0 as usize;
            if latest.len() <= entry {
                return Ok(false);
            }
            if fact.times.start < latest[entry] {
                return Ok(false);
            }
            latest[entry] = fact.times.start;
        }
    }
    Ok(true)
}

/// Whether no two facts have the same id.
pub(crate) fn have_distinct_ids(alloc: Global, facts: &[Fact]) -> Result<bool, NoMemory>
    ensures { IfOk result (λ yes. IsTrue yes ↔ HaveDistinctIds facts.now) }
{
    let mut ids: Vec<u64> = facts.iter().map(|fact| fact.id.0).collect(alloc)?;
    ids.sort()?;
    Ok(are_in_order(ids.as_slice()))
}
