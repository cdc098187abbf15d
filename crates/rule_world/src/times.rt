ghost use Rattle.std.specs.Prelude.{◌≡◌, ◌≤ℤ◌, ◌-ℤ◌, ◌+ℤ◌, pos, true, slice_get, Some, None, IfOk, IfErr, IfSome};
ghost use Rattle.std.specs.List.{list_all};
ghost use Rattle.rule_model.specs.Snapshots.{floor_by};
ghost use Rattle.rule_model.specs.Types.{expiry_of, lateness_of};
ghost use Rattle.rule_world.specs.Events.{field_number, end_of_presence, start_of as start_of_event, duration_of as duration_of_event, event_fault, event_times as times_of_event, times_of, new_fault, clock_fault, promise_fault, most_millis};
ghost use Rattle.rule_world.specs.Programs.{IsRunnable, has_expiry, has_lateness};

use crate::Code;
use fx_base::limits::MOST_MILLIS;
use fx_base::{EntryId, Millis, Times, TypeId, Value};
use rule_model::{Program, TypeInfo};

#[tactic(auto, unfolding(crate::specs::Events::most_millis, rule_model::specs::Types::lateness_of))]
fn lateness(program: &Program, entry: EntryId) -> Millis
    requires { list_all has_lateness program.now.entries ≡ true }
    ensures lateness { result ≡ lateness_of program.now entry.0 }
    ensures low { pos 0 ≤ℤ result }
    ensures high { result ≤ℤ most_millis }
{
    match program.entries.as_slice().get(entry.0 as usize) {
        Some(info) => info.lateness,
        None => 0,
    }
}

/// The floor of an entry point, its watermark, in milliseconds, below which no event may start: the start of the event that was inserted
/// there last, its promise, or the clock less its lateness, whichever is latest. Takes no memory.
#[tactic(auto, unfolding(crate::specs::Events::most_millis))]
pub fn floor(
    program: &Program,
    last_start: Millis,
    promise: Millis,
    clock: Millis,
    entry: EntryId,
) -> Millis
    requires runnable { IsRunnable program.now }
    requires low { pos 0 ≤ℤ clock }
    ensures floor { result ≡ floor_by (lateness_of program.now entry.0) last_start promise clock }
    ensures low { (pos 0 -ℤ most_millis) ≤ℤ result }
{
    last_start
        .max(promise)
        .max(clock - lateness(program, entry))
}

// The whole number that a field holds.
fn number_in(fields: &[Value], place: u8) -> i64
    ensures { result ≡ field_number fields.now place }
{
    match fields.get(place as usize) {
        Some(Value::Int(number)) => *number,
        _ => 0,
    }
}

fn start_of(info: &TypeInfo, clock: Millis, fields: &[Value]) -> Millis
    ensures { result ≡ start_of_event info.now clock fields.now }
{
    match info.timestamp {
        Some(place) => number_in(fields, place),
        None => clock,
    }
}

fn duration_of(info: &TypeInfo, fields: &[Value]) -> Millis
    ensures { result ≡ duration_of_event info.now fields.now }
{
    match info.duration {
        Some(place) => number_in(fields, place),
        None => 0,
    }
}

// The times of a new event, or its fault.
#[tactic(auto, unfolding(crate::specs::Events::most_millis))]
fn event_times(
    info: &TypeInfo,
    floor: Millis,
    clock: Millis,
    fields: &[Value],
) -> Result<Times, Code>
    requires floor { (pos 0 -ℤ most_millis) ≤ℤ floor }
    requires clock { clock ≤ℤ most_millis }
    ensures times { IfOk result (λ times. times ≡ times_of_event info.now clock fields.now) }
    ensures low { IfOk result (λ times. (pos 0 -ℤ most_millis) ≤ℤ times.start) }
    ensures high { IfOk result (λ times. times.start ≤ℤ most_millis) }
    ensures none { IfOk result (λ _. event_fault floor clock (start_of_event info.now clock fields.now) (duration_of_event info.now fields.now) ≡ None) }
    ensures fault { IfErr result (λ code. event_fault floor clock (start_of_event info.now clock fields.now) (duration_of_event info.now fields.now) ≡ Some code) }
{
    let start = start_of(info, clock, fields);
    let duration = duration_of(info, fields);
    if duration < 0 || MOST_MILLIS < duration {
        return Err(Code::BadDuration);
    }
    if start < floor {
        return Err(Code::Late);
    }
    if clock < start {
        return Err(Code::Ahead);
    }
    Ok(Times {
        start,
        end: start + duration,
    })
}

/// The times of a new fact of a type with these values, or its fault, by the floor of its entry point and the clock. Takes no
/// memory.
#[tactic(auto, unfolding(crate::specs::Events::most_millis))]
pub fn new_times(
    program: &Program,
    ty: TypeId,
    floor: Millis,
    clock: Millis,
    fields: &[Value],
) -> Result<Times, Code>
    requires floor { (pos 0 -ℤ most_millis) ≤ℤ floor }
    requires clock { clock ≤ℤ most_millis }
    ensures times { IfOk result (λ times. times ≡ times_of (slice_get program.now.types ty.0) clock fields.now) }
    ensures low { IfOk result (λ times. (pos 0 -ℤ most_millis) ≤ℤ times.start) }
    ensures high { IfOk result (λ times. times.start ≤ℤ most_millis) }
    ensures none { IfOk result (λ _. new_fault (slice_get program.now.types ty.0) floor clock fields.now ≡ None) }
    ensures fault { IfErr result (λ code. new_fault (slice_get program.now.types ty.0) floor clock fields.now ≡ Some code) }
{
    match program.type_info(ty) {
        Some(info) if info.event => event_times(info, floor, clock, fields),
        _ => Ok(Times { start: 0, end: 0 }),
    }
}

// How long behind its start an event of a type is present, in milliseconds.
#[tactic(auto, unfolding(crate::specs::Events::most_millis, rule_model::specs::Types::expiry_of))]
fn expiry(program: &Program, ty: TypeId) -> Option<Millis>
    requires { list_all has_expiry program.now.types ≡ true }
    ensures expiry { result ≡ expiry_of program.now ty.0 }
    ensures low { IfSome result (λ expiry. pos 1 ≤ℤ expiry) }
    ensures high { IfSome result (λ expiry. expiry ≤ℤ most_millis) }
{
    match program.types.as_slice().get(ty.0 as usize) {
        Some(info) => info.expires,
        None => None,
    }
}

/// The moment from which a fact of a type, which starts at this one, is not present; none where it is present until it is retracted.
/// Takes no memory.
#[tactic(auto, unfolding(crate::specs::Events::most_millis))]
pub fn presence_end(program: &Program, ty: TypeId, start: Millis) -> Option<Millis>
    requires runnable { IsRunnable program.now }
    requires low { (pos 0 -ℤ most_millis) ≤ℤ start }
    requires high { start ≤ℤ most_millis }
    ensures { result ≡ end_of_presence program.now ty.0 start }
{
    if !program.is_event(ty) {
        return None;
    }
    match expiry(program, ty) {
        Some(expiry) => Some(start + expiry),
        None => None,
    }
}

/// The clock so many milliseconds later, or why it is not to move so far. Takes no memory.
#[tactic(auto, unfolding(crate::specs::Events::most_millis))]
pub fn clock_after(clock: Millis, by: Millis) -> Result<Millis, Code>
    requires low { pos 0 ≤ℤ clock }
    requires high { clock ≤ℤ most_millis }
    ensures clock { IfOk result (λ next. next ≡ clock +ℤ by) }
    ensures none { IfOk result (λ _. clock_fault clock (clock +ℤ by) ≡ None) }
    ensures fault { IfErr result (λ code. clock_fault clock (clock +ℤ by) ≡ Some code) }
{
    if by < 0 {
        return Err(Code::ClockBack);
    }
    if MOST_MILLIS - clock < by {
        return Err(Code::ClockEnd);
    }
    Ok(clock + by)
}

/// The clock at a moment, or why it is not to move there. Takes no memory.
#[tactic(auto, unfolding(crate::specs::Events::most_millis))]
pub fn clock_at(clock: Millis, moment: Millis) -> Result<Millis, Code>
    ensures clock { IfOk result (λ next. next ≡ moment) }
    ensures none { IfOk result (λ _. clock_fault clock moment ≡ None) }
    ensures fault { IfErr result (λ code. clock_fault clock moment ≡ Some code) }
{
    if moment < clock {
        return Err(Code::ClockBack);
    }
    if MOST_MILLIS < moment {
        return Err(Code::ClockEnd);
    }
    Ok(moment)
}

/// The promise of an entry point at a moment, behind this one, or why it is not to be promised. Takes no memory.
#[tactic(auto, unfolding(crate::specs::Events::most_millis))]
pub fn promise_at(promise: Millis, from: Millis) -> Result<Millis, Code>
    ensures promise { IfOk result (λ next. next ≡ from) }
    ensures none { IfOk result (λ _. promise_fault promise from ≡ None) }
    ensures fault { IfErr result (λ code. promise_fault promise from ≡ Some code) }
{
    if from < promise {
        return Err(Code::PromiseBack);
    }
    if MOST_MILLIS < from {
        return Err(Code::PromiseEnd);
    }
    Ok(from)
}
