use crate::case::Case;
use crate::running::{Ran, run_once};
use crate::settings::{Failures, Object};
use crate::stopped::Stopped;
use fx_io::{Sink, write_all};
use std::alloc::Global;

// The status of a run in which a call of this object failed.
fn status_of(object: Object) -> u8 {
    match object {
        Object::Shelf | Object::Script => 5,
        Object::Out => 6,
    }
}

/// Lines of a script, and what they print.
#[derive(Drop)]
struct Taken {
    len: usize,
    printed: Vec<u8>,
}

impl Taken {
    fn run(alloc: Global, case: &Case, lines: &[u8]) -> Result<Taken, Stopped> {
        let ran = run_once(alloc, case, &Failures::none(alloc), lines)?;
        Ok(Taken {
            len: lines.len(),
            printed: ran.printed,
        })
    }

    // These lines, run only where they are others.
    fn moved_to(self, alloc: Global, case: &Case, lines: &[u8]) -> Result<Taken, Stopped> {
        if lines.len() == self.len {
            return Ok(self);
        }
        Taken::run(alloc, case, lines)
    }
}

// Whether a run in which a call of this object failed ended as it is to end: with the object's status, and it printed a front of what the
// whole run prints, and at least what the lines print that were taken with their ends.
fn is_as_wanted(object: Object, whole: &Ran, taken: &Taken, ran: &Ran) -> bool {
    ran.status == status_of(object)
        && whole.printed.starts_with(&ran.printed)
        && (object != Object::Script || ran.printed.starts_with(&taken.printed))
}

/// Runs a case once for each call that an object has where nothing fails, with this call failing, and writes a line: that each of these
/// runs ended as it is to end, or what came of the first one that did not.
pub(crate) fn try_each<K: Sink>(
    alloc: Global,
    case: &Case,
    object: Object,
    out: &mut K,
) -> Result<(), Stopped> {
    let whole = run_once(alloc, case, &Failures::none(alloc), &case.script)?;
    let mut taken = Taken::run(alloc, case, &[])?;
    let calls = whole.calls(object);
    let name = object.name();
    for before in 0..calls {
        let call = before + 1;
        let failures = Failures::of_call(alloc, object, call)?;
        let ran = run_once(alloc, case, &failures, &case.script)?;
        if object == Object::Script {
            taken = taken.moved_to(alloc, case, ran.taken(&case.script))?;
        }
        if !is_as_wanted(object, &whole, &taken, &ran) {
            let status = ran.status;
            let line = format!(in alloc;
                "=== each {name}: call {call} of {calls}: status {status}\n"
            )?;
            write_all(out, line.as_bytes())?;
            write_all(out, &ran.printed)?;
            return Ok(());
        }
    }
    let status = status_of(object);
    let line = format!(in alloc; "=== each {name}: {calls} calls, status {status}, prefixes\n")?;
    write_all(out, line.as_bytes())?;
    Ok(())
}
