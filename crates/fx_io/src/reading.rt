ghost use Rattle.std.specs.Prelude.{◌≡◌, ◌<◌, ◌≤◌, ◌+◌, ◌^◌, ◌++◌, List, ℕ, true, IsErrOf};
ghost use Rattle.fx_io.specs.Outside.{Rose};
ghost use Rattle.fx_io.specs.Asking.{Follows, MayAskMidLine, EndsOrMay};
ghost use Rattle.fx_io.specs.Lines.{has_end};
ghost use Rattle.fx_io.specs.Answers.{ReadsBytes, GivesLine};

use crate::part::PartLine;
use crate::window::Window;
use crate::{Failed, Line, LineFault, Source};
use std::alloc::Global;

// The next line of what the window holds and the source has left.
pub(crate) fn line_from<K, S: Source<K>>(
    alloc: Global,
    window: &mut Window,
    taken: &mut u64,
    line_max: usize,
    total_max: u64,
    source: &mut S,
    out: &K,
) -> Result<Line, LineFault>
    requires small { total_max < 2 ^ 62 }
    requires asks { MayAskMidLine (S.may_ask source.old) window.old out.now }
    requires few { taken.old ≤ total_max + 1 }
    ensures gives { (read : List ℕ)
        × ReadsBytes read taken.old taken.new (S.given source.old) (S.given source.new)
        (S.left source.old) (S.left source.new)
        × GivesLine line_max total_max result (window.old ++ read) window.new taken.new (S.left source.new) }
    ensures asks { (read : List ℕ) × Follows (S.may_ask source.old) read (S.may_ask source.new)
        × EndsOrMay line_max result (window.old ++ read) window.new (S.may_ask source.new) }
    ensures few { taken.new ≤ total_max + 1 }
    ensures ready { has_end window.old ≡ true → source.new ≡ source.old }
    ensures ready_taken { has_end window.old ≡ true → taken.new ≡ taken.old }
    ensures counts { S.faults source.old ≤ S.faults source.new }
    ensures cause { IsErrOf result LineFault.ReadFault → Rose (S.faults source.old) (S.faults source.new) }
{
    let mut part = PartLine::new(alloc);
    loop {
        if let Some(end) = window.first_end() {
            part.add(&window.bytes()[..end], line_max)?;
            window.skip(end + 1);
            return Ok(part.finish());
        }
        part.add_front(window.bytes(), line_max)?;
        window.clear();
        if *taken > total_max {
            return Err(LineFault::ScriptLong);
        }
        match window.refill(source, out, total_max + 1 - *taken) {
            Err(Failed) => return Err(LineFault::ReadFault),
            Ok(0) => return Ok(part.finish_last()),
            Ok(n) => *taken += n as u64,
        }
    }
}
