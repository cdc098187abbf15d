//! Facts under their new places.
ghost use Rattle.std.specs.Prelude.{◌≡◌, ◌≤◌, ◌^◌, map, length, IfOk};
ghost use Rattle.rule_change.specs.Changed.{moved_fact as moved_fact_of};

use change_rules::{new_entry, new_type};
use fx_base::{Fact, NoMemory};
use rule_model::Program;
use std::alloc::Global;

// A fact under its new places.
fn moved_fact(old: &Program, new: &Program, fact: Fact) -> Fact
    requires types { length new.now.types ≤ 2 ^ 16 }
    requires entries { length new.now.entries ≤ 2 ^ 16 }
    ensures { result ≡ moved_fact_of old.now new.now fact }
{
    Fact {
        ty: new_type(old, new, fact.ty),
        entry: new_entry(old, new, fact.entry),
        ..fact
    }
}

/// Facts under their new places. It looks up the name of each one's type and entry point.
pub(crate) fn moved_facts(
    alloc: Global,
    old: &Program,
    new: &Program,
    facts: Vec<Fact>,
) -> Result<Vec<Fact>, NoMemory>
    requires types { length new.now.types ≤ 2 ^ 16 }
    requires entries { length new.now.entries ≤ 2 ^ 16 }
    ensures { IfOk result (λ moved. moved.items ≡ map (moved_fact_of old.now new.now) facts.items) }
{
    let mut moved = Vec::with_capacity(alloc, facts.len())?;
    for fact in facts {
        moved.push(moved_fact(old, new, fact))?;
    }
    Ok(moved)
}
