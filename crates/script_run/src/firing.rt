ghost use Rattle.std.specs.Prelude.{◌≡◌, ◌+◌, ◌*◌, ◌<◌, ◌≤◌, ◌^◌, ◌++◌, ◌||◌, true, ℕ, Some, IfOk, OnOk};
ghost use Rattle.rule_world.specs.Worlds.{World};
ghost use Rattle.script_run.specs.Firings.{wants_one, one_less, firings};
ghost use Rattle.script_run.specs.Run.{at_most, fire_by, fire_step, met_lines, setting_with, wants_more};
ghost use Rattle.script_run.specs.Written.{written_limit};
ghost use Rattle.line_run.specs.Turns.{Does};
ghost use Rattle.script_run.specs.Turns.{EndsFirings, Within};

use crate::form::Form;
use crate::written::{push_limit, push_lines, push_met};
use engine::{Engine, Fired};
use fx_base::NoMemory;
use line_run::Turn;
use std::alloc::Global;

/// A fire command in the line of this number, with the form of what is answered and the limits of its run: of all firings, and, of a live run, of
/// each command.
#[derive(Clone, Copy)]
pub(crate) struct FireLine<'f> {
    pub(crate) number: u64,
    pub(crate) limit: u64,
    pub(crate) live: Option<u64>,
    pub(crate) form: &'f Form,
}

// No firing is left: appends what is said of the limit where a match is pending.
fn end_firings<E: Engine>(
    alloc: Global,
    engine: &E,
    line: FireLine<'_>,
    faulty: bool,
    text: &mut Vec<u8>,
) -> Result<Turn, NoMemory>
    ensures ends { IfOk result (λ turn. (w : World) → E.stands engine.now w
        → EndsFirings (written_limit line.entry.form.now line.entry.number line.entry.limit) (E.fires (E.made_with engine.now) w) faulty text.old.items text.new.items turn) }
    ensures within { (tags most : ℕ) → tags ≤ most → IfOk result (Within most tags) }
{
    if engine.due() {
        push_limit(text, alloc, line.form, line.number, line.limit)?;
        return Ok(Turn::Stops);
    }
    Ok(Turn::Goes(faulty, 0))
}

// Whether a command that wants so many firings, or as many as there are, wants one.
fn is_wanting(most: Option<u64>) -> bool
    ensures { result ≡ wants_one most }
{
    match most {
        Some(most) => most > 0,
        None => true,
    }
}

fn with_one_less(most: Option<u64>) -> Option<u64>
    ensures { wants_one most ≡ true → result ≡ one_less most }
{
    match most {
        Some(most) => most.checked_sub(1),
        None => None,
    }
}

// Fires until nothing is pending, the command wants no more, or no firing is left, and appends the lines.
fn fire_all<E: Engine>(
    alloc: Global,
    engine: E,
    line: FireLine<'_>,
    most: Option<u64>,
    left: u64,
    text: &mut Vec<u8>,
) -> Result<(E, Turn), NoMemory>
    requires { E.tags engine + 16 * left < 2 ^ 62 }
    ensures done { IfOk result (λ r. (w : World) → E.stands engine w
        → Does (E.stands r.0) (fire_step (setting_with line.entry.live line.entry.form.now E.gives E.fires E.counts line.entry.limit (E.made_with engine) (E.table engine)) line.entry.number
        (firings E.fires (E.made_with engine) most left w))
        text.old.items text.new.items r.1) }
    ensures program { IfOk result (λ r. E.made_with r.0 ≡ E.made_with engine) }
    ensures table { IfOk result (λ r. E.table r.0 ≡ E.table engine) }
    ensures tags { IfOk result (λ r. Within (E.tags engine + 16 * left + 16) (E.tags r.0) r.1) }
{
    let mut engine = engine;
    let mut faulty = false;
    let mut most = most;
    let mut left = left;
    while left > 0 {
        if !is_wanting(most) {
            return Ok((engine, Turn::Goes(faulty, left)));
        }
        let (next, fired) = engine.fire_one(alloc)?;
        match fired {
            Fired::No => return Ok((next, Turn::Goes(faulty, left))),
            Fired::Yes(lines) => {
                let lines = lines.as_slice();
                let bad = push_lines(text, alloc, line.form, next.program(), line.number, lines)?;
                faulty = faulty || bad;
                engine = next;
                most = with_one_less(most);
                left -= 1;
            }
        }
    }
    if !is_wanting(most) {
        return Ok((engine, Turn::Goes(faulty, 0)));
    }
    let turn = end_firings(alloc, &engine, line, faulty, text)?;
    Ok((engine, turn))
}

// At most so many of the firings that a command wants.
fn at_most(each: u64, most: Option<u64>) -> u64
    ensures { result ≡ at_most each most }
{
    match most {
        Some(most) if most <= each => most,
        _ => each,
    }
}

// Whether a command wants more firings than so many.
fn wants_more(each: u64, most: Option<u64>) -> bool
    ensures { result ≡ wants_more each most }
{
    match most {
        Some(most) => each < most,
        None => true,
    }
}

// Appends what is said of the limit for each command, where the command wants more and a match is pending still.
fn tell_met<E: Engine>(
    alloc: Global,
    engine: &E,
    line: FireLine<'_>,
    each: u64,
    most: Option<u64>,
    text: &mut Vec<u8>,
) -> Result<(), NoMemory>
    ensures { OnOk result ((w : World) → E.stands engine.now w
        → text.new.items ≡ text.old.items ++ met_lines line.entry.form.now (E.fires (E.made_with engine.now) w) each line.entry.number most) }
{
    if wants_more(each, most) && engine.due() {
        push_met(text, alloc, line.form, line.number, each)?;
    }
    Ok(())
}

// Fires in a live run, at most so many for the command, and appends the lines.
fn fire_each<E: Engine>(
    alloc: Global,
    engine: E,
    line: FireLine<'_>,
    each: u64,
    most: Option<u64>,
    left: u64,
    text: &mut Vec<u8>,
) -> Result<(E, Turn), NoMemory>
    requires { E.tags engine + 16 * left < 2 ^ 62 }
    ensures done { IfOk result (λ r. (w : World) → E.stands engine w
        → Does (E.stands r.0) (fire_by (setting_with line.entry.live line.entry.form.now E.gives E.fires E.counts line.entry.limit (E.made_with engine) (E.table engine)) (Some each) line.entry.number left w most)
        text.old.items text.new.items r.1) }
    ensures program { IfOk result (λ r. E.made_with r.0 ≡ E.made_with engine) }
    ensures table { IfOk result (λ r. E.table r.0 ≡ E.table engine) }
    ensures tags { IfOk result (λ r. Within (E.tags engine + 16 * left + 16) (E.tags r.0) r.1) }
{
    let wanted = Some(at_most(each, most));
    let (next, turn) = fire_all(alloc, engine, line, wanted, left, text)?;
    match turn {
        Turn::Stops => Ok((next, turn)),
        Turn::Goes(..) | Turn::Saves(..) => {
            tell_met(alloc, &next, line, each, most, text)?;
            Ok((next, turn))
        }
    }
}

/// Fires as a fire command wants it, and appends the lines.
pub(crate) fn fire<E: Engine>(
    alloc: Global,
    engine: E,
    line: FireLine<'_>,
    most: Option<u64>,
    left: u64,
    text: &mut Vec<u8>,
) -> Result<(E, Turn), NoMemory>
    requires { E.tags engine + 16 * left < 2 ^ 62 }
    ensures done { IfOk result (λ r. (w : World) → E.stands engine w
        → Does (E.stands r.0) (fire_by (setting_with line.entry.live line.entry.form.now E.gives E.fires E.counts line.entry.limit (E.made_with engine) (E.table engine)) line.entry.live line.entry.number left w most)
        text.old.items text.new.items r.1) }
    ensures program { IfOk result (λ r. E.made_with r.0 ≡ E.made_with engine) }
    ensures table { IfOk result (λ r. E.table r.0 ≡ E.table engine) }
    ensures tags { IfOk result (λ r. Within (E.tags engine + 16 * left + 16) (E.tags r.0) r.1) }
{
    match line.live {
        None => fire_all(alloc, engine, line, most, left, text),
        Some(each) => fire_each(alloc, engine, line, each, most, left, text),
    }
}
