ghost use Rattle.std.specs.Prelude.{◌≡◌, ◌&&◌, ◌||◌, not, cond, Bool, true, false, None, Some, IfOk, OnOk, IsTrue};
ghost use Rattle.std.specs.Ordering.{eq_by_cmp};
ghost use Rattle.std.specs.List.Sorted.{IsStrictlySortedBy};
ghost use Rattle.row_delta.specs.declared.row.Row.{Row};
ghost use Rattle.row_delta.specs.declared.row.Named.{Named};
ghost use Rattle.row_delta.specs.Rows.{has, row_cmp, InOrder};
ghost use Rattle.row_delta.specs.NameOrder.{name_cmp};
ghost use Rattle.row_change.specs.Changes.{LeadsRows, IsDifference};
ghost use Rattle.join_tests.specs.Joins.{Look};
ghost use Rattle.join_memory.specs.Joined.{has_name};
ghost use Rattle.join_memory.specs.Memories.{left_at, has_left, has_right, KeepsMemories};
ghost use Rattle.join_memory.specs.Standing.{no_rows, no_names, StandsFor};
ghost use Rattle.join_memory.specs.Inputs.{IsStepped};
ghost use Rattle.counting_node.specs.Doors.{tallied_candidates};
ghost use Rattle.counting_node.specs.Tallies.{TurnedTally, offers, shown, changed_at, SeeAlike, TallyStep};
ghost use Rattle.counting_node.specs.Parts.{PartStep, AllTurned, AllFollow, AllDropped, AllArrive, AllStay};
ghost use Rattle.counting_node.specs.Origins.{is_from};

mod handed;
mod loading;

use crate::Tally;
use fx_base::{Copies, Facts, NoMemory, Seq};
use join_memory::{Memories, names_alone};
use row_change::{Change, changes_nothing};
use row_delta::{Delta, Named, Row};
use rule_model::Pattern;
use std::alloc::Global;

/// A node that keeps for each left row a tally of the candidates that pass there. Its rows are what the left rows become with what
/// their tallies give. After a call that was refused memory it is to be given up.
#[derive(Drop)]
pub struct TallyNode<T> {
    memories: Memories<T>,
}

fn same_output(a: Option<i64>, b: Option<i64>) -> bool
    ensures { IsTrue result → a ≡ b }
{
    match (a, b) {
        (Some(a), Some(b)) => a == b,
        (None, None) => true,
        _ => false,
    }
}

/// The row that a left row becomes with what its tally gives, if that is a number.
fn rows_of<T: Tally>(alloc: Global, row: &Row, output: Option<i64>) -> Result<Vec<Row>, NoMemory>
    ensures { IfOk result (λ rows. (r : Row) → has rows.items r ≡ (is_from (T.origin r) row.now && offers T.gives output r)) }
{
    let mut rows = Vec::new(alloc);
    if let Some(value) = output {
        rows.push(T::made(alloc, row, value)?)?;
    }
    Ok(rows)
}

/// Notes what the tally of a left row gave, and what it gives now.
fn note<T: Tally>(
    alloc: Global,
    change: &mut Change,
    row: &Row,
    was: Option<i64>,
    is: Option<i64>,
) -> Result<(), NoMemory>
    ensures { OnOk result ((old now : Row → Bool) → LeadsRows old now change.old.gone.keys change.old.come.keys → ((r : Row) → is_from (T.origin r) row.now ≡ true → now r ≡ offers T.gives was r)
        → LeadsRows old (changed_at T.origin now row.now (offers T.gives is)) change.new.gone.keys change.new.come.keys) }
{
    if same_output(was, is) {
        return Ok(());
    }
    let gone = rows_of::<T>(alloc, row, was)?;
    change.leave(alloc, gone)?;
    let come = rows_of::<T>(alloc, row, is)?;
    change.arrive(alloc, come)?;
    Ok(())
}

/// One candidate more, or one less.
fn turned<T: Tally, F: Facts>(
    alloc: Global,
    plan: &T::Plan,
    tally: T,
    comes: bool,
    who: Named,
    facts: &F,
) -> Result<T, NoMemory>
    ensures { IfOk result (λ now. (world : Look) → world who.tag ≡ F.map facts.now who.tag → TurnedTally (T.holds plan.now) world comes who tally now) }
{
    if comes {
        tally.add(alloc, plan, who, facts)
    } else {
        tally.take(alloc, plan, who, facts)
    }
}

/// The tally of these candidates.
fn tally_of<T: Tally, F: Facts>(
    alloc: Global,
    plan: &T::Plan,
    names: &[Named],
    facts: &F,
) -> Result<T, NoMemory>
    requires { IsStrictlySortedBy name_cmp names.now }
    ensures { IfOk result (λ tally. (world : Look) → SeeAlike (has_name names.now) (F.map facts.now) world → T.holds plan.now tally world (has_name names.now)) }
{
    let mut tally = T::none(alloc, plan);
    for who in names {
        tally = tally.add(alloc, plan, *who, facts)?;
    }
    Ok(tally)
}

impl<T: Tally> TallyNode<T> {
    /// Whether a left row is kept. Takes no memory.
    fn has_left<F: Facts>(&self, row: &Row, facts: &F) -> bool
        ensures { result ≡ has_left self.now.memories (F.map facts.now) row.now }
    {
        self.memories.kept_for(row, facts).is_some()
    }

    /// A candidate that passes for a left row comes or goes.
    fn turn_at<F: Facts>(
        &mut self,
        alloc: Global,
        plan: &T::Plan,
        change: &mut Change,
        row: &Row,
        comes: bool,
        who: Named,
        facts: &F,
    ) -> Result<(), NoMemory>
        ensures turned { OnOk result (PartStep (shown T.origin T.gives (T.output plan.now)) (AllTurned (T.holds plan.now) (F.map facts.now) comes who (eq_by_cmp row_cmp row.now)) self.old.memories self.new.memories (F.map facts.now)
            (has_left self.old.memories (F.map facts.now)) (has_right self.old.memories (F.map facts.now)) change.old change.new) }
        ensures right { OnOk result (tallied_candidates self.new ≡ tallied_candidates self.old) }
    {
        if !self.has_left(row, facts) {
            return Ok(());
        }
        let blank = T::none(alloc, plan);
        match self.memories.exchange_left(row, blank, facts) {
            Ok(tally) => {
                let was = tally.output(plan, row, facts);
                let now = turned(alloc, plan, tally, comes, who, facts)?;
                let is = now.output(plan, row, facts);
                match self.memories.exchange_left(row, now, facts) {
                    Ok(_) => note::<T>(alloc, change, row, was, is),
                    Err(_) => Ok(()),
                }
            }
            Err(_) => Ok(()),
        }
    }

    fn turn_all<F: Facts>(
        &mut self,
        alloc: Global,
        plan: &T::Plan,
        change: &mut Change,
        rows: &[Row],
        comes: bool,
        who: Named,
        facts: &F,
    ) -> Result<(), NoMemory>
        requires { IsStrictlySortedBy row_cmp rows.now }
        ensures turned { OnOk result (PartStep (shown T.origin T.gives (T.output plan.now)) (AllTurned (T.holds plan.now) (F.map facts.now) comes who (has rows.now)) self.old.memories self.new.memories (F.map facts.now)
            (has_left self.old.memories (F.map facts.now)) (has_right self.old.memories (F.map facts.now)) change.old change.new) }
        ensures right { OnOk result (tallied_candidates self.new ≡ tallied_candidates self.old) }
    {
        for row in rows {
            self.turn_at(alloc, plan, change, row, comes, who, facts)?;
        }
        Ok(())
    }

    fn name_leaves<F: Facts>(
        &mut self,
        alloc: Global,
        plan: &T::Plan,
        change: &mut Change,
        who: Named,
        facts: &F,
    ) -> Result<(), NoMemory>
        ensures { OnOk result (PartStep (shown T.origin T.gives (T.output plan.now)) (AllFollow (T.holds plan.now) (F.map facts.now) (eq_by_cmp name_cmp who)) self.old.memories self.new.memories (F.map facts.now)
            (has_left self.old.memories (F.map facts.now)) (λ c. has_right self.old.memories (F.map facts.now) c && not (eq_by_cmp name_cmp who c)) change.old change.new) }
    {
        match self.memories.take_right(who, facts) {
            Some(sight) => {
                let rows = self.memories.partners(alloc, &sight, who, facts)?;
                self.turn_all(alloc, plan, change, rows.as_slice(), false, who, facts)?;
                Ok(())
            }
            None => Ok(()),
        }
    }

    fn name_comes<F: Facts>(
        &mut self,
        alloc: Global,
        plan: &T::Plan,
        change: &mut Change,
        who: Named,
        facts: &F,
    ) -> Result<(), NoMemory>
        ensures { OnOk result (PartStep (shown T.origin T.gives (T.output plan.now)) (AllFollow (T.holds plan.now) (F.map facts.now) (eq_by_cmp name_cmp who)) self.old.memories self.new.memories (F.map facts.now)
            (has_left self.old.memories (F.map facts.now)) (λ c. has_right self.old.memories (F.map facts.now) c || eq_by_cmp name_cmp who c) change.old change.new) }
    {
        match self.memories.put_right(alloc, who, facts)? {
            Some(sight) => {
                let rows = self.memories.partners(alloc, &sight, who, facts)?;
                self.turn_all(alloc, plan, change, rows.as_slice(), true, who, facts)?;
                Ok(())
            }
            None => Ok(()),
        }
    }

    fn names_leave<F: Facts>(
        &mut self,
        alloc: Global,
        plan: &T::Plan,
        change: &mut Change,
        names: &[Named],
        facts: &F,
    ) -> Result<(), NoMemory>
        ensures { OnOk result (PartStep (shown T.origin T.gives (T.output plan.now)) (AllFollow (T.holds plan.now) (F.map facts.now) (has_name names.now)) self.old.memories self.new.memories (F.map facts.now)
            (has_left self.old.memories (F.map facts.now)) (λ c. has_right self.old.memories (F.map facts.now) c && not (has_name names.now c)) change.old change.new) }
    {
        for who in names {
            self.name_leaves(alloc, plan, change, *who, facts)?;
        }
        Ok(())
    }

    fn names_come<F: Facts>(
        &mut self,
        alloc: Global,
        plan: &T::Plan,
        change: &mut Change,
        names: &[Named],
        facts: &F,
    ) -> Result<(), NoMemory>
        ensures { OnOk result (PartStep (shown T.origin T.gives (T.output plan.now)) (AllFollow (T.holds plan.now) (F.map facts.now) (has_name names.now)) self.old.memories self.new.memories (F.map facts.now)
            (has_left self.old.memories (F.map facts.now)) (λ c. has_right self.old.memories (F.map facts.now) c || has_name names.now c) change.old change.new) }
    {
        for who in names {
            self.name_comes(alloc, plan, change, *who, facts)?;
        }
        Ok(())
    }

    fn row_leaves<F: Facts>(
        &mut self,
        alloc: Global,
        plan: &T::Plan,
        change: &mut Change,
        row: &Row,
        facts: &F,
    ) -> Result<(), NoMemory>
        ensures turned { OnOk result (PartStep (shown T.origin T.gives (T.output plan.now)) (AllDropped (F.map facts.now) (eq_by_cmp row_cmp row.now)) self.old.memories self.new.memories (F.map facts.now)
            (λ r. has_left self.old.memories (F.map facts.now) r && not (eq_by_cmp row_cmp row.now r)) (has_right self.old.memories (F.map facts.now)) change.old change.new) }
        ensures right { OnOk result (tallied_candidates self.new ≡ tallied_candidates self.old) }
    {
        match self.memories.take_left(row, facts) {
            Some(tally) => {
                let was = tally.output(plan, row, facts);
                note::<T>(alloc, change, row, was, None)?;
                Ok(())
            }
            None => Ok(()),
        }
    }

    fn row_comes<F: Facts>(
        &mut self,
        alloc: Global,
        plan: &T::Plan,
        change: &mut Change,
        row: &Row,
        facts: &F,
    ) -> Result<(), NoMemory>
        ensures turned { OnOk result (PartStep (shown T.origin T.gives (T.output plan.now)) (AllArrive (T.holds plan.now) (F.map facts.now) (eq_by_cmp row_cmp row.now)) self.old.memories self.new.memories (F.map facts.now)
            (λ r. has_left self.old.memories (F.map facts.now) r || eq_by_cmp row_cmp row.now r) (has_right self.old.memories (F.map facts.now)) change.old change.new) }
        ensures right { OnOk result (tallied_candidates self.new ≡ tallied_candidates self.old) }
    {
        if self.has_left(row, facts) {
            return Ok(());
        }
        let names = self.memories.passing(alloc, row, facts)?;
        let tally: T = tally_of(alloc, plan, names.as_slice(), facts)?;
        let is = tally.output(plan, row, facts);
        let copy = row.copy(alloc)?;
        self.memories.put_left(alloc, copy, tally, facts)?;
        note::<T>(alloc, change, row, None, is)?;
        Ok(())
    }

    fn rows_leave<F: Facts>(
        &mut self,
        alloc: Global,
        plan: &T::Plan,
        change: &mut Change,
        rows: &[Row],
        facts: &F,
    ) -> Result<(), NoMemory>
        ensures turned { OnOk result (PartStep (shown T.origin T.gives (T.output plan.now)) (AllDropped (F.map facts.now) (has rows.now)) self.old.memories self.new.memories (F.map facts.now)
            (λ r. has_left self.old.memories (F.map facts.now) r && not (has rows.now r)) (has_right self.old.memories (F.map facts.now)) change.old change.new) }
        ensures right { OnOk result (tallied_candidates self.new ≡ tallied_candidates self.old) }
    {
        for row in rows {
            self.row_leaves(alloc, plan, change, row, facts)?;
        }
        Ok(())
    }

    fn rows_come<F: Facts>(
        &mut self,
        alloc: Global,
        plan: &T::Plan,
        change: &mut Change,
        rows: &[Row],
        facts: &F,
    ) -> Result<(), NoMemory>
        ensures turned { OnOk result (PartStep (shown T.origin T.gives (T.output plan.now)) (AllArrive (T.holds plan.now) (F.map facts.now) (has rows.now)) self.old.memories self.new.memories (F.map facts.now)
            (λ r. has_left self.old.memories (F.map facts.now) r || has rows.now r) (has_right self.old.memories (F.map facts.now)) change.old change.new) }
        ensures right { OnOk result (tallied_candidates self.new ≡ tallied_candidates self.old) }
    {
        for row in rows {
            self.row_comes(alloc, plan, change, row, facts)?;
        }
        Ok(())
    }

    /// A node that keeps nothing, and so has no rows. Takes no memory.
    pub fn new(alloc: Global, pattern: Pattern) -> TallyNode<T>
        ensures pattern { result.memories.pattern ≡ pattern }
        ensures nothing { (look : Look) (forgotten : Named → Bool) → StandsFor result.memories look no_rows no_names forgotten }
    {
        TallyNode {
            memories: Memories::new(alloc, pattern),
        }
    }

    /// The pattern of the candidates. Takes no memory.
    pub fn pattern(&self) -> &Pattern
        ensures { result.now ≡ self.now.memories.pattern }
    {
        self.memories.pattern()
    }

    /// Takes what has changed in the rows of the conditions before this one, and in its candidates, each named by a row of its
    /// own, and answers what has changed in the rows of the node. For each row or candidate that comes or goes it costs the
    /// logarithm of what has the same join value, and a test of what has it on the other side; for each left row for which a
    /// candidate comes or goes, one more or one less in its tally, and where the tally then gives something else, two rows and
    /// the logarithm of what has changed. Where nothing has changed, it costs a comparison.
    pub fn advance<F: Facts>(
        &mut self,
        alloc: Global,
        plan: &T::Plan,
        left: &Delta,
        right: &Delta,
        facts: &F,
    ) -> Result<Delta, NoMemory>
        ensures kept { OnOk result (IsStepped self.old.memories self.new.memories (F.map facts.now) left.now right.now) }
        ensures tallies { OnOk result (TallyStep (T.holds plan.now) (F.map facts.now) self.old.memories self.new.memories left.now right.now) }
        ensures difference { IfOk result (λ delta. IsDifference (shown T.origin T.gives (T.output plan.now) self.old.memories (F.map facts.now)) (shown T.origin T.gives (T.output plan.now) self.new.memories (F.map facts.now)) delta) }
    {
        if changes_nothing(left) && changes_nothing(right) {
            let delta = Change::none(alloc).delta(alloc)?;
            return Ok(delta);
        }
        let delta = self.advanced(alloc, plan, left, right, facts)?;
        Ok(delta)
    }

    /// A step in which something changes.
    fn advanced<F: Facts>(
        &mut self,
        alloc: Global,
        plan: &T::Plan,
        left: &Delta,
        right: &Delta,
        facts: &F,
    ) -> Result<Delta, NoMemory>
        ensures kept { OnOk result (IsStepped self.old.memories self.new.memories (F.map facts.now) left.now right.now) }
        ensures tallies { OnOk result (TallyStep (T.holds plan.now) (F.map facts.now) self.old.memories self.new.memories left.now right.now) }
        ensures difference { IfOk result (λ delta. IsDifference (shown T.origin T.gives (T.output plan.now) self.old.memories (F.map facts.now)) (shown T.origin T.gives (T.output plan.now) self.new.memories (F.map facts.now)) delta) }
    {
        let gone = names_alone(alloc, right.gone.as_slice())?;
        let come = names_alone(alloc, right.come.as_slice())?;
        let mut change = Change::none(alloc);
        self.rows_leave(alloc, plan, &mut change, left.gone.as_slice(), facts)?;
        self.names_leave(alloc, plan, &mut change, gone.as_slice(), facts)?;
        self.names_come(alloc, plan, &mut change, come.as_slice(), facts)?;
        self.rows_come(alloc, plan, &mut change, left.come.as_slice(), facts)?;
        let delta = change.delta(alloc)?;
        Ok(delta)
    }

    fn names_drop<F: Facts>(
        &mut self,
        alloc: Global,
        names: &[Named],
        facts: &F,
    ) -> Result<(), NoMemory>
        ensures keeps { OnOk result (KeepsMemories self.old.memories self.new.memories (F.map facts.now) (has_left self.old.memories (F.map facts.now)) (λ c. has_right self.old.memories (F.map facts.now) c && not (has_name names.now c))) }
        ensures left { OnOk result (AllStay (F.map facts.now) self.old.memories self.new.memories) }
    {
        for who in names {
            self.memories.take_right(*who, facts);
        }
        Ok(())
    }

    /// Drops left rows and candidates whose facts are forgotten, and answers the rows that go with them, in order. The tallies of the
    /// rows that stay are left as they are, and no other row comes or goes.
    pub fn forget<F: Facts>(
        &mut self,
        alloc: Global,
        plan: &T::Plan,
        rows: &[Row],
        old: &[Named],
        facts: &F,
    ) -> Result<Seq<Row>, NoMemory>
        ensures kept { OnOk result (KeepsMemories self.old.memories self.new.memories (F.map facts.now) (λ r. has_left self.old.memories (F.map facts.now) r && not (has rows.now r)) (λ c. has_right self.old.memories (F.map facts.now) c && not (has_name old.now c))) }
        ensures left { OnOk result ((r : Row) → left_at self.new.memories (F.map facts.now) r ≡ cond (has rows.now r) None (left_at self.old.memories (F.map facts.now) r)) }
        ensures in_order { IfOk result (λ gone. InOrder gone) }
        ensures rows { IfOk result (λ gone. (r : Row) → has gone r ≡ (shown T.origin T.gives (T.output plan.now) self.old.memories (F.map facts.now) r && not (shown T.origin T.gives (T.output plan.now) self.new.memories (F.map facts.now) r))) }
    {
        let mut change = Change::none(alloc);
        self.rows_leave(alloc, plan, &mut change, rows, facts)?;
        self.names_drop(alloc, old, facts)?;
        let delta = change.delta(alloc)?;
        Ok(delta.gone)
    }
}
