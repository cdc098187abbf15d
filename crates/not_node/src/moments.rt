ghost use Rattle.std.specs.Prelude.{◌≡◌, option_map, IfOk};
ghost use Rattle.rule_model.specs.Lent.{bound_in};
ghost use Rattle.rule_model.specs.Maturity.{bounds_of, AreOperators};
ghost use Rattle.not_node.specs.Moments.{latest_of, moment_at};

use fx_base::{Facts, NoMemory, Times};
use join_tests::named_fact;
use row_delta::Row;
use rule_model::{Pattern, Program, TimeTest};
use std::alloc::Global;
use temporal_ops::{Op, Window, possible_start};

/// The moment for which a row waits: the latest start of an event that passes the temporal tests of the pattern with what the
/// row bound, in milliseconds. It costs the temporal tests.
pub(crate) fn moment_of<F: Facts>(
    alloc: Global,
    program: &Program,
    pattern: &Pattern,
    row: &Row,
    facts: &F,
) -> Result<Option<i128>, NoMemory>
    ensures { IfOk result (λ at. at ≡ moment_at program.now pattern.now (F.map facts.now) row.now) }
{
    if !program.is_event(pattern.ty) {
        return Ok(None);
    }
    match bounds_of(alloc, row, facts, pattern.times.as_slice())? {
        Some(bounds) => {
            read_operators(pattern.times.as_slice());
            let starts = possible_start(&bounds, program.is_point(pattern.ty));
            Ok(latest_of(starts))
        }
        None => Ok(None),
    }
}

fn latest_of(window: Window) -> Option<i128>
    ensures { result ≡ latest_of window }
{
    match window {
        Window::Never | Window::Unbounded => None,
        Window::UpTo(latest) => Some(latest),
    }
}

/// The operator of each temporal test and the times of the event that it names; nothing where one of them names what is missing.
fn bounds_of<F: Facts>(
    alloc: Global,
    row: &Row,
    facts: &F,
    tests: &[TimeTest],
) -> Result<Option<Vec<(Op, Times)>>, NoMemory>
    ensures { IfOk result (λ found. option_map (λ bounds. bounds.items) found ≡ bounds_of (bound_in (F.map facts.now) row.now) tests.now) }
{
    let mut bounds = Vec::with_capacity(alloc, tests.len())?;
    for test in tests {
        match named_fact(row, test.fact, facts) {
            Some(event) => bounds.push((test.op, event.times))?,
            None => return Ok(None),
        }
    }
    Ok(Some(bounds))
}

/// Reads the operator of each temporal test, which is known to be one then.
fn read_operators(tests: &[TimeTest])
    ensures { AreOperators tests.now }
{
    for test in tests {
        // (the call alone tells that it is one)
        let _ = test.op.edges();
    }
}
