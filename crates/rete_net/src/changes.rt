ghost use Rattle.std.specs.Prelude.{◌≡◌, ◌++◌, ◌<◌, ◌^◌, ℕ, List, Some, length, slice_get, IfOk, OnOk};
ghost use Rattle.fx_base.specs.Lists.{In};
ghost use Rattle.row_delta.specs.declared.delta.Delta.{Delta as DeltaData};
ghost use Rattle.rete_net.specs.declared.changes.RuleChange.{RuleChange as RuleChangeData};
ghost use Rattle.rete_net.specs.Answers.{answer_in, AreRuled};
ghost use Rattle.rete_net.specs.Steps.{change_at, changes_from, delta_at, no_change};

use crate::answered::Answered;
use crate::due::first_below;
use fx_base::{Copies, NoMemory, RuleId};
use row_change::changes_nothing;
use row_delta::Delta;
use std::alloc::Global;

/// What has changed in the rows of a rule.
#[derive(Debug, Drop)]
pub struct RuleChange {
    pub rule: RuleId,
    pub delta: Delta,
}

/// The rule in a place. Takes no memory.
pub(crate) fn rule_in(place: usize) -> RuleId
    ensures { place < 2 ^ 16 → result.0 ≡ place }
{
    RuleId(u16::try_from(place).unwrap_or(u16::MAX))
}

// Puts the change of a rule, with a copy of the difference, if that has a row.
fn put_change(
    changes: &mut Vec<RuleChange>,
    alloc: Global,
    rule: RuleId,
    delta: &Delta,
) -> Result<(), NoMemory>
    ensures { OnOk result (changes.new.items ≡ changes.old.items ++ change_at rule.0 delta.now) }
{
    if changes_nothing(delta) {
        return Ok(());
    }
    changes.push(RuleChange {
        rule,
        delta: Delta {
            gone: delta.gone.copy(alloc)?,
            come: delta.come.copy(alloc)?,
        },
    })?;
    Ok(())
}

/// The changes of the rules, in their order, out of what their last nodes, which stand in these places, answered. For each rule that
/// ends at a node that answered it costs the logarithm of the answers, and a copy of the difference.
pub(crate) fn changes_of(
    alloc: Global,
    answered: &Answered<Delta>,
    ends: &[usize],
) -> Result<Vec<RuleChange>, NoMemory>
    ensures changes { IfOk result (λ changes. length ends.now < 2 ^ 16 → (first : DeltaData) (deltas : List DeltaData) → answered.now.none ≡ no_change → AreRuled answered.now ends.now
        → ((rule end : ℕ) → slice_get ends.now rule ≡ Some end → delta_at first deltas end ≡ answer_in answered.now end)
        → changes.items ≡ changes_from first deltas 0 ends.now) }
    ensures rules { IfOk result (λ changes. length ends.now < 2 ^ 16 → (c : RuleChangeData) → In c changes.items → c.rule.0 < length ends.now) }
{
    let mut changes = Vec::new(alloc);
    let mut next = 0;
    'rules: while let Some(place) = first_below(answered.rules(), next, ends.len()) {
        let delta = answered.answer(ends[place]);
        put_change(&mut changes, alloc, rule_in(place), delta)?;
        next = place + 1;
    }
    Ok(changes)
}
