ghost use Rattle.std.specs.Prelude.{◌≡◌, option_map, IfOk};
ghost use Rattle.rule_model.specs.Maturity.{bounds_of, is_past as is_past_of, is_mature, AreOperators};
ghost use Rattle.rule_model.specs.Moments.{snapshot_at};
ghost use Rattle.rule_model.specs.Snapshots.{floor};
ghost use Rattle.rule_model.specs.Tuples.{bound_by};

use crate::bindings::Bindings;
use crate::finder::Finder;
use fx_base::{NoMemory, Times};
use rule_model::{Pattern, TimeTest};
use std::alloc::Global;
use temporal_ops::{Op, Window, possible_start};

// The operator of each temporal test and the times of the event that it names; nothing where one of them names what is missing.
fn bounds_of(
    alloc: Global,
    bindings: &Bindings,
    tests: &[TimeTest],
) -> Result<Option<Vec<(Op, Times)>>, NoMemory>
    ensures { IfOk result (λ found. option_map (λ bounds. bounds.items) found ≡ bounds_of (bound_by bindings.now) tests.now) }
{
    let mut bounds = Vec::with_capacity(alloc, tests.len())?;
    for test in tests {
        match bindings.fact(test.fact as usize) {
            Some(event) => bounds.push((test.op, event.times))?,
            None => return Ok(None),
        }
    }
    Ok(Some(bounds))
}

// Whether all possible events start before this moment, if there is a latest one.
fn is_past(window: Window, moment: i128) -> bool
    ensures { result ≡ is_past_of window moment }
{
    match window {
        Window::Never | Window::Unbounded => true,
        Window::UpTo(latest) => latest < moment,
    }
}

impl<'p> Finder<'p> {
    /// Whether the bindings are mature for a negative pattern: no event that passes its temporal tests can start any more.
    pub(crate) fn is_mature(
        &self,
        alloc: Global,
        pattern: &Pattern,
        bindings: &Bindings,
    ) -> Result<bool, NoMemory>
        requires { AreOperators pattern.now.times }
        ensures { IfOk result (λ mature. mature ≡ is_mature self.now.program.now pattern.now (bound_by bindings.now) (floor self.now.program.now (snapshot_at self.now.moment.now) pattern.now.entry.0)) }
    {
        if !self.program.is_event(pattern.ty) {
            return Ok(true);
        }
        let bounds = match bounds_of(alloc, bindings, pattern.times.as_slice())? {
            Some(bounds) => bounds,
            None => return Ok(true),
        };
        let floor = self.moment.floor(self.program, pattern.entry);
        let starts = possible_start(&bounds, self.program.is_point(pattern.ty));
        Ok(is_past(starts, floor))
    }
}
