ghost use Rattle.std.specs.Prelude.{◌≡◌, ◌&&◌, not, cond, Bool, true, false, None, IfOk, OnOk};
ghost use Rattle.row_delta.specs.declared.delta.Delta.{Delta};
ghost use Rattle.row_delta.specs.declared.row.Row.{Row};
ghost use Rattle.row_delta.specs.Rows.{has, row_cmp, InOrder};
ghost use Rattle.row_change.specs.Changes.{IsDifference};
ghost use Rattle.fx_base.specs.Values.{same_value};
ghost use Rattle.std.specs.Option.{is_some};
ghost use Rattle.alpha_memory.specs.JoinIndex.{at, bucket_at};
ghost use Rattle.join_tests.specs.JoinValues.{shown as shown_value};
ghost use Rattle.join_tests.specs.Joins.{joins};
ghost use Rattle.join_tests.specs.Kept.{row_value};
ghost use Rattle.join_memory.specs.declared.candidates.Candidates.{Candidates};
ghost use Rattle.join_memory.specs.Inputs.{IsStepped};
ghost use Rattle.join_memory.specs.Memories.{left_at, has_left, has_right, KeepsMemories};
ghost use Rattle.join_memory.specs.Shared.{sharing, TakesOver};
ghost use Rattle.counting_node.specs.Doors.{tallied_candidates, tallied_pattern};
ghost use Rattle.counting_node.specs.Parts.{PartStep, AllTurned, AllFollowMoved};
ghost use Rattle.counting_node.specs.Tallies.{shown, TallyStep};

use super::TallyNode;
use crate::Tally;
use fx_base::{Facts, NoMemory, Seq, Value};
use join_memory::Candidates;
use join_tests::JoinValue;
use row_change::Change;
use row_delta::{Delta, Named, Row};
use std::alloc::Global;

impl<T: Tally> TallyNode<T> {
    /// Exchanges the candidates with shared ones, as they are lent for a turn and given back. Takes no memory.
    pub fn exchange_right(&mut self, shared: &mut Candidates)
        ensures memories { self.new.memories ≡ sharing self.old.memories shared.old }
        ensures pattern { shared.new.pattern ≡ shared.old.pattern }
        ensures names { shared.new.names ≡ tallied_candidates self.old }
    {
        self.memories.exchange_right(shared);
    }

    /// The value under which a row of the conditions before this one is kept. Takes no memory.
    pub fn row_value<'a, F: Facts>(&self, row: &Row, facts: &'a F) -> JoinValue<'a>
        ensures { shown_value result ≡ row_value self.now.memories.pattern (F.map facts.now) row.now }
    {
        self.memories.row_value(row, facts)
    }

    /// Whether a row of the conditions before this one is kept under a value. It takes no memory, and costs a hash.
    pub fn has_rows_under(&self, value: &Value) -> bool
        ensures bucket { result ≡ is_some (bucket_at same_value self.now.memories.left value.now) }
        ensures none { result ≡ false → (row : Row) → at same_value row_cmp self.now.memories.left value.now row ≡ None }
    {
        self.memories.has_rows_under(value)
    }

    /// A step of a node whose candidates have turned already: of those that went and came, these are handed to it. What it answers
    /// leads from the rows that it had to those that it has. It costs what a step costs in which these rows and candidates come
    /// and go.
    pub fn advance_turned<F: Facts>(
        &mut self,
        alloc: Global,
        plan: &T::Plan,
        left: &Delta,
        gone: &[Named],
        come: &[Named],
        facts: &F,
    ) -> Result<Delta, NoMemory>
        ensures right { OnOk result (tallied_candidates self.new ≡ tallied_candidates self.old) }
        ensures pattern { OnOk result (tallied_pattern self.new ≡ tallied_pattern self.old) }
        ensures kept { OnOk result ((was : Candidates) (right : Delta) → TakesOver self.old.memories was (F.map facts.now) right gone.now come.now
            → IsStepped (sharing self.old.memories was) self.new.memories (F.map facts.now) left.now right) }
        ensures tallies { OnOk result ((was : Candidates) (right : Delta) → TakesOver self.old.memories was (F.map facts.now) right gone.now come.now
            → TallyStep (T.holds plan.now) (F.map facts.now) (sharing self.old.memories was) self.new.memories left.now right) }
        ensures difference { IfOk result (λ delta. IsDifference (shown T.origin T.gives (T.output plan.now) self.old.memories (F.map facts.now)) (shown T.origin T.gives (T.output plan.now) self.new.memories (F.map facts.now)) delta) }
    {
        let mut change = Change::none(alloc);
        self.names_turn(alloc, plan, &mut change, gone, false, facts)?;
        self.names_turn(alloc, plan, &mut change, come, true, facts)?;
        self.rows_leave(alloc, plan, &mut change, left.gone.as_slice(), facts)?;
        self.rows_come(alloc, plan, &mut change, left.come.as_slice(), facts)?;
        let delta = change.delta(alloc)?;
        Ok(delta)
    }

    /// Drops left rows whose facts are forgotten, where old candidates were dropped already, and answers the rows that go with
    /// them, in order. The tallies of the rows that stay are left as they are, and no other row comes or goes.
    pub fn forget_turned<F: Facts>(
        &mut self,
        alloc: Global,
        plan: &T::Plan,
        rows: &[Row],
        facts: &F,
    ) -> Result<Seq<Row>, NoMemory>
        ensures right { OnOk result (tallied_candidates self.new ≡ tallied_candidates self.old) }
        ensures kept { OnOk result (KeepsMemories self.old.memories self.new.memories (F.map facts.now) (λ r. has_left self.old.memories (F.map facts.now) r && not (has rows.now r)) (has_right self.old.memories (F.map facts.now))) }
        ensures left { OnOk result ((r : Row) → left_at self.new.memories (F.map facts.now) r ≡ cond (has rows.now r) None (left_at self.old.memories (F.map facts.now) r)) }
        ensures in_order { IfOk result (λ gone. InOrder gone) }
        ensures rows { IfOk result (λ gone. (r : Row) → has gone r ≡ (shown T.origin T.gives (T.output plan.now) self.old.memories (F.map facts.now) r && not (shown T.origin T.gives (T.output plan.now) self.new.memories (F.map facts.now) r))) }
    {
        let mut change = Change::none(alloc);
        self.rows_leave(alloc, plan, &mut change, rows, facts)?;
        let delta = change.delta(alloc)?;
        Ok(delta.gone)
    }

    /// Candidates that are handed come or go, as far as the tallies are concerned.
    fn names_turn<F: Facts>(
        &mut self,
        alloc: Global,
        plan: &T::Plan,
        change: &mut Change,
        names: &[Named],
        comes: bool,
        facts: &F,
    ) -> Result<(), NoMemory>
        ensures turned { OnOk result (PartStep (shown T.origin T.gives (T.output plan.now)) (AllFollowMoved (T.holds plan.now) (F.map facts.now) comes names.now names.now) self.old.memories self.new.memories (F.map facts.now)
            (has_left self.old.memories (F.map facts.now)) (has_right self.old.memories (F.map facts.now)) change.old change.new) }
        ensures right { OnOk result (tallied_candidates self.new ≡ tallied_candidates self.old) }
    {
        for who in names {
            self.name_turns(alloc, plan, change, *who, comes, facts)?;
        }
        Ok(())
    }

    fn name_turns<F: Facts>(
        &mut self,
        alloc: Global,
        plan: &T::Plan,
        change: &mut Change,
        who: Named,
        comes: bool,
        facts: &F,
    ) -> Result<(), NoMemory>
        ensures turned { OnOk result (PartStep (shown T.origin T.gives (T.output plan.now))
            (AllTurned (T.holds plan.now) (F.map facts.now) comes who (λ r. has_left self.old.memories (F.map facts.now) r && joins self.old.memories.pattern (F.map facts.now) r who)) self.old.memories self.new.memories (F.map facts.now)
            (has_left self.old.memories (F.map facts.now)) (has_right self.old.memories (F.map facts.now)) change.old change.new) }
        ensures right { OnOk result (tallied_candidates self.new ≡ tallied_candidates self.old) }
    {
        let sight = self.memories.sight(who, facts);
        let rows = self.memories.partners(alloc, &sight, who, facts)?;
        self.turn_all(alloc, plan, change, rows.as_slice(), comes, who, facts)?;
        Ok(())
    }
}
