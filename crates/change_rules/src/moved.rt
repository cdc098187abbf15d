//! Whether a rule is that of another program, where types and entry points have other places.
ghost use Rattle.std.specs.Prelude.{◌≡◌, ◌↔◌, ◌≤◌, ◌^◌, map, length, IsTrue, IfOk};
ghost use Rattle.rule_model.specs.declared.program.Program.{Program as ProgramData};
ghost use Rattle.rule_change.specs.Changed.{moved_pattern as moved_pattern_of, moved_condition as moved_condition_of, moved_action, moved_rule};

use crate::expressions::{are_same, are_same_sets};
use crate::places::{new_entry, new_type};
use fx_base::{Copies, NoMemory};
use rule_model::{Accumulate, Action, Condition, Pattern, Program, Rule};
use std::alloc::Global;

// A pattern under its new places.
fn moved_pattern(
    alloc: Global,
    old: &Program,
    new: &Program,
    pattern: &Pattern,
) -> Result<Pattern, NoMemory>
    requires types { length new.now.types ≤ 2 ^ 16 }
    requires entries { length new.now.entries ≤ 2 ^ 16 }
    ensures { IfOk result (λ moved. moved ≡ moved_pattern_of old.now new.now pattern.now) }
{
    Ok(Pattern {
        ty: new_type(old, new, pattern.ty),
        entry: new_entry(old, new, pattern.entry),
        window: pattern.window,
        alone: pattern.alone.copy(alloc)?,
        joined: pattern.joined.copy(alloc)?,
        times: pattern.times.copy(alloc)?,
    })
}

// A condition under its new places.
fn moved_condition(
    alloc: Global,
    old: &Program,
    new: &Program,
    condition: &Condition,
) -> Result<Condition, NoMemory>
    requires types { length new.now.types ≤ 2 ^ 16 }
    requires entries { length new.now.entries ≤ 2 ^ 16 }
    ensures { IfOk result (λ moved. moved ≡ moved_condition_of old.now new.now condition.now) }
{
    let pattern = moved_pattern(alloc, old, new, condition.pattern())?;
    match condition {
        Condition::Plain(_) => Ok(Condition::Plain(pattern)),
        Condition::Negated(_) => Ok(Condition::Negated(pattern)),
        Condition::Existing(_) => Ok(Condition::Existing(pattern)),
        Condition::Folded(accumulate) => Ok(Condition::Folded(Accumulate {
            pattern,
            kind: accumulate.kind,
            arg: accumulate.arg,
            tests: accumulate.tests.copy(alloc)?,
        })),
    }
}

// What stands in a rule, and may name types and entry points.
trait Moved {
    // The same under its new places.
    ghost moved: { ProgramData → ProgramData → Self → Self };

    // Whether another is that.
    fn is_moved(
        &self,
        alloc: Global,
        old: &Program,
        new: &Program,
        other: &Self,
    ) -> Result<bool, NoMemory>
        requires types { length new.now.types ≤ 2 ^ 16 }
        requires entries { length new.now.entries ≤ 2 ^ 16 }
        ensures { IfOk result (λ yes. IsTrue yes ↔ (other.now ≡ moved old.now new.now self.now)) };
}

impl Moved for Condition {
    ghost use Rattle.rule_change.specs.Changed.{moved_condition as moved_condition_of};

    ghost moved = { moved_condition_of };

    fn is_moved(
        &self,
        alloc: Global,
        old: &Program,
        new: &Program,
        other: &Condition,
    ) -> Result<bool, NoMemory> {
        Ok(other.is_same(&moved_condition(alloc, old, new, self)?))
    }
}

impl Moved for Action {
    ghost use Rattle.rule_change.specs.Changed.{moved_action};

    ghost moved = { moved_action };

    fn is_moved(
        &self,
        _alloc: Global,
        old: &Program,
        new: &Program,
        other: &Action,
    ) -> Result<bool, NoMemory> {
        Ok(match (self, other) {
            (
                Action::Insert { ty, args },
                Action::Insert {
                    ty: other_type,
                    args: other_args,
                },
            ) => {
                *other_type == new_type(old, new, *ty)
                    && are_same(other_args.as_slice(), args.as_slice())
            }
            (
                Action::Modify { fact, sets },
                Action::Modify {
                    fact: other_fact,
                    sets: other_sets,
                },
            ) => other_fact == fact && are_same_sets(other_sets.as_slice(), sets.as_slice()),
            (Action::Retract { fact }, Action::Retract { fact: other_fact }) => other_fact == fact,
            _ => false,
        })
    }
}

// Whether a list is another under its new places.
fn are_moved<T: Moved>(
    alloc: Global,
    old: &Program,
    new: &Program,
    ours: &[T],
    theirs: &[T],
) -> Result<bool, NoMemory>
    requires types { length new.now.types ≤ 2 ^ 16 }
    requires entries { length new.now.entries ≤ 2 ^ 16 }
    ensures { IfOk result (λ yes. IsTrue yes ↔ (theirs.now ≡ map (T.moved old.now new.now) ours.now)) }
{
    if ours.len() != theirs.len() {
        return Ok(false);
    }
    for place in 0..ours.len() {
        if !ours[place].is_moved(alloc, old, new, &theirs[place])? {
            return Ok(false);
        }
    }
    Ok(true)
}

/// Whether conditions of new rules are these old ones under their new places. It copies each old one.
pub fn are_moved_conditions(
    alloc: Global,
    old: &Program,
    new: &Program,
    ours: &[Condition],
    theirs: &[Condition],
) -> Result<bool, NoMemory>
    requires types { length new.now.types ≤ 2 ^ 16 }
    requires entries { length new.now.entries ≤ 2 ^ 16 }
    ensures { IfOk result (λ yes. IsTrue yes ↔ (theirs.now ≡ map (moved_condition_of old.now new.now) ours.now)) }
{
    are_moved(alloc, old, new, ours, theirs)
}

/// Whether a new rule is the old one under its new places. It compares names first, and copies conditions only where names and saliences are the same.
pub(crate) fn is_moved_rule(
    alloc: Global,
    old: &Program,
    new: &Program,
    ours: &Rule,
    theirs: &Rule,
) -> Result<bool, NoMemory>
    requires types { length new.now.types ≤ 2 ^ 16 }
    requires entries { length new.now.entries ≤ 2 ^ 16 }
    ensures { IfOk result (λ yes. IsTrue yes ↔ (theirs.now ≡ moved_rule old.now new.now ours.now)) }
{
    if theirs.name != ours.name || theirs.salience != ours.salience {
        return Ok(false);
    }
    if !are_moved(
        alloc,
        old,
        new,
        ours.conditions.as_slice(),
        theirs.conditions.as_slice(),
    )? {
        return Ok(false);
    }
    are_moved(
        alloc,
        old,
        new,
        ours.actions.as_slice(),
        theirs.actions.as_slice(),
    )
}
