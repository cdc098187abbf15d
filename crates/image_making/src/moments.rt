//! Moments of entry points under their new places.
ghost use Rattle.std.specs.Prelude.{◌≡◌, ◌≤◌, ◌^◌, length, IfOk};
ghost use Rattle.image_laws.specs.Images.{AreMoments};
ghost use Rattle.rule_change.specs.Changed.{entry_in, moment_or_zero};
ghost use Rattle.rule_model.specs.Moments.{moment_in};

use change_rules::entry_there;
use fx_base::{Millis, NoMemory};
use rule_model::Program;
use std::alloc::Global;

// The moment of an entry point of the new rules, of those that the old ones have; 0 where it is new.
fn moved_moment(old: &Program, new: &Program, moments: &[Millis], entry: usize) -> Millis
    requires { length old.now.entries ≤ 2 ^ 16 }
    ensures { result ≡ moment_or_zero (moment_in moments.now) (entry_in new.now old.now entry) }
{
    match entry_there(new, old, entry) {
        Some(there) => moments.get(there.0 as usize).copied().unwrap_or(0),
        None => 0,
    }
}

/// The moments of the entry points of the new rules, of those that the old ones have. It looks up the name of each.
pub(crate) fn moved_moments(
    alloc: Global,
    old: &Program,
    new: &Program,
    moments: &[Millis],
) -> Result<Vec<Millis>, NoMemory>
    requires { length old.now.entries ≤ 2 ^ 16 }
    ensures { IfOk result (λ moved. AreMoments (λ entry. moment_or_zero (moment_in moments.now) (entry_in new.now old.now entry)) (length new.now.entries) moved.items) }
{
    let entries = new.entries.as_slice().len();
    let mut moved = Vec::with_capacity(alloc, entries)?;
    for entry in 0..entries {
        moved.push(moved_moment(old, new, moments, entry))?;
    }
    Ok(moved)
}
