ghost use Rattle.std.specs.Prelude.{◌≡◌, ◌||◌, ◌++◌, Option, None, Some, option_map, IfOk, IfSome, OnOk, true};
ghost use Rattle.std.specs.Ordering.{eq_by_cmp};
ghost use Rattle.row_delta.specs.declared.extra.Extra.{Extra};
ghost use Rattle.row_delta.specs.declared.row.Row.{Row};
ghost use Rattle.row_delta.specs.declared.row.Named.{Named};
ghost use Rattle.std.specs.List.Sorted.{IsStrictlySortedBy};
ghost use Rattle.row_delta.specs.Rows.{has, row_cmp, InOrder};
ghost use Rattle.row_delta.specs.NameOrder.{name_cmp};
ghost use Rattle.join_tests.specs.Joins.{Look};
ghost use Rattle.row_change.specs.Changes.{IsDifference};
ghost use Rattle.join_memory.specs.Joined.{has_name};
ghost use Rattle.join_memory.specs.Memories.{has_left, has_right, KeepsMemories};
ghost use Rattle.join_memory.specs.Shared.{over};
ghost use Rattle.counting_node.specs.Doors.{tallied_candidates};
ghost use Rattle.counting_node.specs.Extras.{extra_for, rows_of_extras, IsTallyLaden, AllLaden, AreExtrasOf};
ghost use Rattle.counting_node.specs.Parts.{PartStep, AllLoaded};
ghost use Rattle.counting_node.specs.Beside.{TellsBeside, one_or_none};
ghost use Rattle.counting_node.specs.Tallies.{shown, SeeAlike};

use super::{TallyNode, note, tally_of};
use crate::Tally;
use fx_base::{Copies, Facts, NoMemory, RuleId};
use join_memory::Candidates;
use row_change::Change;
use row_delta::{Delta, Extra, Named, Row};
use std::alloc::Global;
use std::cmp::Ordering;

/// The extra of a row, of extras that are in the order of their rows. It costs the logarithm of their number.
fn extra_of<'e>(extras: &'e [Extra], row: &Row) -> Option<&'e Extra>
    ensures { InOrder (rows_of_extras extras.now) → option_map (λ e. e.now) result ≡ extra_for extras.now row.now }
{
    match extras.binary_search_by(
        |extra: &Extra| -> Ordering
            ensures { result ≡ row_cmp extra.now.row row.entry.now }
        { extra.row.cmp(row) },
    ) {
        Ok(place) => Some(&extras[place]),
        Err(_) => None,
    }
}

/// Adds an extra, where there is one.
fn add_extra(extras: &mut Vec<Extra>, found: Option<Extra>) -> Result<(), NoMemory>
    ensures { OnOk result (extras.new.items ≡ extras.old.items ++ one_or_none found) }
{
    if let Some(extra) = found {
        extras.push(extra)?;
    }
    Ok(())
}

/// The tally of these candidates, with what an extra counts more, where there is one.
fn laden_tally<T: Tally, F: Facts>(
    alloc: Global,
    plan: &T::Plan,
    names: &[Named],
    extra: Option<&Extra>,
    facts: &F,
) -> Result<T, NoMemory>
    requires { IsStrictlySortedBy name_cmp names.now }
    ensures { IfOk result (λ tally. (world : Look) → SeeAlike (has_name names.now) (F.map facts.now) world
        → IsTallyLaden (T.holds plan.now) (T.laden plan.now) tally world (has_name names.now) (option_map (λ e. e.now) extra.entry)) }
{
    let tally: T = tally_of(alloc, plan, names, facts)?;
    match extra {
        Some(extra) => {
            let laden = tally.with_extra(plan, extra)?;
            Ok(laden)
        }
        None => Ok(tally),
    }
}

impl<T: Tally> TallyNode<T> {
    /// Takes rows of the conditions before this one, candidates, and extras in the order of their rows, which are of these rows, into
    /// a node that keeps nothing; and answers the rows that the node has then. It costs what a step costs in which these rows and
    /// candidates come, and for each row the logarithm of the extras.
    pub fn load<F: Facts>(
        &mut self,
        alloc: Global,
        plan: &T::Plan,
        left: &[Row],
        right: &[Named],
        extras: &[Extra],
        facts: &F,
    ) -> Result<Delta, NoMemory>
        ensures kept { OnOk result (KeepsMemories self.old.memories self.new.memories (F.map facts.now)
            (λ r. has_left self.old.memories (F.map facts.now) r || has left.now r) (λ c. has_right self.old.memories (F.map facts.now) c || has_name right.now c)) }
        ensures laden { OnOk result (AllLaden (T.holds plan.now) (T.laden plan.now) (F.map facts.now) extras.now (has left.now) self.old.memories self.new.memories) }
        ensures difference { IfOk result (λ delta. IsDifference (shown T.origin T.gives (T.output plan.now) self.old.memories (F.map facts.now)) (shown T.origin T.gives (T.output plan.now) self.new.memories (F.map facts.now)) delta) }
    {
        let mut change = Change::none(alloc);
        self.names_come(alloc, plan, &mut change, right, facts)?;
        self.rows_load(alloc, plan, &mut change, left, extras, facts)?;
        let delta = change.delta(alloc)?;
        Ok(delta)
    }

    /// Takes rows of the conditions before this one and extras, as `load` does, into a node that keeps no rows, and whose candidates
    /// are loaded already; and answers the rows that the node has then.
    pub fn load_turned<F: Facts>(
        &mut self,
        alloc: Global,
        plan: &T::Plan,
        left: &[Row],
        extras: &[Extra],
        facts: &F,
    ) -> Result<Delta, NoMemory>
        ensures right { OnOk result (tallied_candidates self.new ≡ tallied_candidates self.old) }
        ensures kept { OnOk result (KeepsMemories self.old.memories self.new.memories (F.map facts.now)
            (λ r. has_left self.old.memories (F.map facts.now) r || has left.now r) (has_right self.old.memories (F.map facts.now))) }
        ensures laden { OnOk result (AllLaden (T.holds plan.now) (T.laden plan.now) (F.map facts.now) extras.now (has left.now) self.old.memories self.new.memories) }
        ensures difference { IfOk result (λ delta. IsDifference (shown T.origin T.gives (T.output plan.now) self.old.memories (F.map facts.now)) (shown T.origin T.gives (T.output plan.now) self.new.memories (F.map facts.now)) delta) }
    {
        let mut change = Change::none(alloc);
        self.rows_load(alloc, plan, &mut change, left, extras, facts)?;
        let delta = change.delta(alloc)?;
        Ok(delta)
    }

    fn rows_load<F: Facts>(
        &mut self,
        alloc: Global,
        plan: &T::Plan,
        change: &mut Change,
        rows: &[Row],
        extras: &[Extra],
        facts: &F,
    ) -> Result<(), NoMemory>
        ensures turned { OnOk result (PartStep (shown T.origin T.gives (T.output plan.now)) (λ m n. InOrder (rows_of_extras extras.now) → AllLoaded (T.holds plan.now) (T.laden plan.now) (F.map facts.now) (extra_for extras.now) (has rows.now) m n) self.old.memories self.new.memories (F.map facts.now)
            (λ r. has_left self.old.memories (F.map facts.now) r || has rows.now r) (has_right self.old.memories (F.map facts.now)) change.old change.new) }
        ensures right { OnOk result (tallied_candidates self.new ≡ tallied_candidates self.old) }
    {
        for row in rows {
            let extra = extra_of(extras, row);
            self.row_loads(alloc, plan, change, row, extra, facts)?;
        }
        Ok(())
    }

    fn row_loads<F: Facts>(
        &mut self,
        alloc: Global,
        plan: &T::Plan,
        change: &mut Change,
        row: &Row,
        extra: Option<&Extra>,
        facts: &F,
    ) -> Result<(), NoMemory>
        ensures turned { OnOk result (PartStep (shown T.origin T.gives (T.output plan.now)) (AllLoaded (T.holds plan.now) (T.laden plan.now) (F.map facts.now) (λ r. option_map (λ e. e.now) extra.entry) (eq_by_cmp row_cmp row.now)) self.old.memories self.new.memories (F.map facts.now)
            (λ r. has_left self.old.memories (F.map facts.now) r || eq_by_cmp row_cmp row.now r) (has_right self.old.memories (F.map facts.now)) change.old change.new) }
        ensures right { OnOk result (tallied_candidates self.new ≡ tallied_candidates self.old) }
    {
        if self.has_left(row, facts) {
            return Ok(());
        }
        let names = self.memories.passing(alloc, row, facts)?;
        let tally: T = laden_tally(alloc, plan, names.as_slice(), extra, facts)?;
        let is = tally.output(plan, row, facts);
        let copy = row.copy(alloc)?;
        self.memories.put_left(alloc, copy, tally, facts)?;
        note::<T>(alloc, change, row, None, is)?;
        Ok(())
    }

    /// What is counted beside each left row beyond the candidates that are kept and pass there, where that is something, in the
    /// order of the rows, each under this rule and condition. The candidates are shared ones where some are given, and else its own. It
    /// costs for each left row the tally of the candidates that pass.
    pub fn extras<F: Facts>(
        &self,
        alloc: Global,
        plan: &T::Plan,
        shared: Option<&Candidates>,
        rule: RuleId,
        condition: u8,
        facts: &F,
    ) -> Result<Vec<Extra>, NoMemory>
        ensures { IfOk result (λ extras. AreExtrasOf (T.holds plan.now) (T.gathered plan.now) (over self.now.memories (option_map (λ c. c.now) shared.entry)) (F.map facts.now) rule condition extras.items) }
    {
        let rows = self.memories.left_rows(alloc)?;
        let mut extras = Vec::new(alloc);
        for row in &rows {
            let found = self.extra_beside(alloc, plan, shared, rule, condition, row, facts)?;
            add_extra(&mut extras, found)?;
        }
        Ok(extras)
    }

    /// What is counted beside a left row beyond the candidates that are kept and pass there, if that is something.
    fn extra_beside<F: Facts>(
        &self,
        alloc: Global,
        plan: &T::Plan,
        shared: Option<&Candidates>,
        rule: RuleId,
        condition: u8,
        row: &Row,
        facts: &F,
    ) -> Result<Option<Extra>, NoMemory>
        ensures { IfOk result (λ found. TellsBeside (T.holds plan.now) (T.gathered plan.now) (over self.now.memories (option_map (λ c. c.now) shared.entry)) (F.map facts.now) rule condition row.now found) }
    {
        match self.memories.kept_for(row, facts) {
            Some(tally) => {
                let names = self.memories.passing_over(alloc, shared, row, facts)?;
                let part: T = tally_of(alloc, plan, names.as_slice(), facts)?;
                let more = tally.beyond(alloc, plan, &part)?;
                if more.count == 0 {
                    return Ok(None);
                }
                Ok(Some(Extra {
                    rule,
                    condition,
                    row: row.copy(alloc)?,
                    count: more.count,
                    values: more.values,
                }))
            }
            None => Ok(None),
        }
    }
}
