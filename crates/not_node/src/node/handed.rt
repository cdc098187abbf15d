ghost use Rattle.std.specs.Prelude.{◌≡◌, ◌&&◌, ◌||◌, not, cond, None, false, IfOk, OnOk};
ghost use Rattle.row_delta.specs.declared.delta.Delta.{Delta};
ghost use Rattle.row_delta.specs.declared.row.Row.{Row};
ghost use Rattle.row_delta.specs.Rows.{has, row_cmp, InOrder};
ghost use Rattle.row_change.specs.Changes.{IsDifference};
ghost use Rattle.fx_base.specs.Values.{same_value};
ghost use Rattle.std.specs.Option.{is_some};
ghost use Rattle.alpha_memory.specs.JoinIndex.{at, bucket_at};
ghost use Rattle.join_tests.specs.JoinValues.{shown};
ghost use Rattle.join_tests.specs.Kept.{row_value};
ghost use Rattle.join_memory.specs.declared.candidates.Candidates.{Candidates};
ghost use Rattle.join_memory.specs.Inputs.{IsStepped};
ghost use Rattle.join_memory.specs.Memories.{left_at, has_left, has_right, KeepsMemories};
ghost use Rattle.join_memory.specs.Shared.{sharing, TakesOver};
ghost use Rattle.counting_node.specs.Counts.{counts_blockers};
ghost use Rattle.counting_node.specs.Extras.{AllLaden, blockers_laden};
ghost use Rattle.counting_node.specs.Tallies.{TallyStep};
ghost use Rattle.not_node.specs.Doors.{blocker_tallies, blocking_candidates, blocking_pattern, with_tallies};
ghost use Rattle.not_node.specs.Rows.{IsInStep, not_rows};
ghost use Rattle.not_node.specs.Waiting.{later};

use super::NotNode;
use fx_base::{Facts, NoMemory, Seq, Value};
use join_memory::Candidates;
use join_tests::JoinValue;
use row_delta::{Delta, Extra, Named, Row};
use rule_model::Program;
use std::alloc::Global;

impl NotNode {
    /// Exchanges the candidates with shared ones, as they are lent for a turn and given back. Takes no memory.
    pub fn exchange_right(&mut self, shared: &mut Candidates)
        ensures node { self.new ≡ with_tallies (sharing self.old.tally.memories shared.old) self.old }
        ensures pattern { shared.new.pattern ≡ shared.old.pattern }
        ensures names { shared.new.names ≡ blocking_candidates self.old }
    {
        self.tally.exchange_right(shared);
    }

    /// The value under which a row of the conditions before this one is kept. Takes no memory.
    pub fn row_value<'a, F: Facts>(&self, row: &Row, facts: &'a F) -> JoinValue<'a>
        ensures { shown result ≡ row_value (blocking_pattern self.now) (F.map facts.now) row.now }
    {
        self.tally.row_value(row, facts)
    }

    /// Whether a row of the conditions before this one is kept under a value. It takes no memory, and costs a hash.
    pub fn has_rows_under(&self, value: &Value) -> bool
        ensures bucket { result ≡ is_some (bucket_at same_value (blocker_tallies self.now).left value.now) }
        ensures none { result ≡ false → (row : Row) → at same_value row_cmp (blocker_tallies self.now).left value.now row ≡ None }
    {
        self.tally.has_rows_under(value)
    }

    /// A step, as `advance` takes it, of a node whose candidates have turned already: of those that went and came, these are handed
    /// to it.
    pub fn advance_turned<F: Facts>(
        &mut self,
        alloc: Global,
        program: &Program,
        left: &Delta,
        gone: &[Named],
        come: &[Named],
        floor: i128,
        facts: &F,
    ) -> Result<Delta, NoMemory>
        ensures right { OnOk result (blocking_candidates self.new ≡ blocking_candidates self.old) }
        ensures pattern { OnOk result (blocking_pattern self.new ≡ blocking_pattern self.old) }
        ensures kept { OnOk result ((was : Candidates) (right : Delta) → TakesOver self.old.tally.memories was (F.map facts.now) right gone.now come.now
            → IsStepped (sharing self.old.tally.memories was) self.new.tally.memories (F.map facts.now) left.now right) }
        ensures tallies { OnOk result ((was : Candidates) (right : Delta) → TakesOver self.old.tally.memories was (F.map facts.now) right gone.now come.now
            → TallyStep counts_blockers (F.map facts.now) (sharing self.old.tally.memories was) self.new.tally.memories left.now right) }
        ensures floor { OnOk result (self.new.ripening.floor ≡ later self.old.ripening.floor floor) }
        ensures in_step { OnOk result (IsInStep program.now (F.map facts.now) self.old → IsInStep program.now (F.map facts.now) self.new) }
        ensures difference { IfOk result (λ delta. IsInStep program.now (F.map facts.now) self.old
            → IsDifference (not_rows program.now (F.map facts.now) self.old) (not_rows program.now (F.map facts.now) self.new) delta) }
    {
        let blocked = self
            .tally
            .advance_turned(alloc, &(), left, gone, come, facts)?;
        let delta = self.ripening.advance(
            alloc,
            &blocked,
            floor,
            program,
            self.tally.pattern(),
            facts,
        )?;
        Ok(delta)
    }

    /// Takes rows of the conditions before this one, extras and a floor, as `load` does, into a node that keeps no rows, and whose
    /// candidates are loaded already; and answers the rows that the node has then.
    pub fn load_turned<F: Facts>(
        &mut self,
        alloc: Global,
        program: &Program,
        left: &[Row],
        extras: &[Extra],
        floor: i128,
        facts: &F,
    ) -> Result<Delta, NoMemory>
        ensures right { OnOk result (blocking_candidates self.new ≡ blocking_candidates self.old) }
        ensures kept { OnOk result (KeepsMemories self.old.tally.memories self.new.tally.memories (F.map facts.now)
            (λ r. has_left self.old.tally.memories (F.map facts.now) r || has left.now r) (has_right self.old.tally.memories (F.map facts.now))) }
        ensures laden { OnOk result (AllLaden counts_blockers blockers_laden (F.map facts.now) extras.now (has left.now) self.old.tally.memories self.new.tally.memories) }
        ensures floor { OnOk result (self.new.ripening.floor ≡ later self.old.ripening.floor floor) }
        ensures in_step { OnOk result (IsInStep program.now (F.map facts.now) self.old → IsInStep program.now (F.map facts.now) self.new) }
        ensures difference { IfOk result (λ delta. IsInStep program.now (F.map facts.now) self.old
            → IsDifference (not_rows program.now (F.map facts.now) self.old) (not_rows program.now (F.map facts.now) self.new) delta) }
    {
        let counted = self.tally.load_turned(alloc, &(), left, extras, facts)?;
        let delta = self.ripening.advance(
            alloc,
            &counted,
            floor,
            program,
            self.tally.pattern(),
            facts,
        )?;
        Ok(delta)
    }

    /// Drops left rows whose facts are forgotten, where old candidates were dropped already, and answers the rows that go with
    /// them, in order. The counts of the rows that stay are left as they are.
    pub fn forget_turned<F: Facts>(
        &mut self,
        alloc: Global,
        program: &Program,
        rows: &[Row],
        facts: &F,
    ) -> Result<Seq<Row>, NoMemory>
        ensures right { OnOk result (blocking_candidates self.new ≡ blocking_candidates self.old) }
        ensures kept { OnOk result (KeepsMemories self.old.tally.memories self.new.tally.memories (F.map facts.now)
            (λ r. has_left self.old.tally.memories (F.map facts.now) r && not (has rows.now r)) (has_right self.old.tally.memories (F.map facts.now))) }
        ensures left { OnOk result ((r : Row) → left_at self.new.tally.memories (F.map facts.now) r ≡ cond (has rows.now r) None (left_at self.old.tally.memories (F.map facts.now) r)) }
        ensures floor { OnOk result (self.new.ripening.floor ≡ self.old.ripening.floor) }
        ensures in_step { OnOk result (IsInStep program.now (F.map facts.now) self.old → IsInStep program.now (F.map facts.now) self.new) }
        ensures in_order { IfOk result (λ gone. IsInStep program.now (F.map facts.now) self.old → InOrder gone) }
        ensures rows { IfOk result (λ gone. IsInStep program.now (F.map facts.now) self.old
            → (r : Row) → has gone r ≡ (not_rows program.now (F.map facts.now) self.old r && not (not_rows program.now (F.map facts.now) self.new r))) }
    {
        let gone = self.tally.forget_turned(alloc, &(), rows, facts)?;
        let dropped = Delta {
            gone,
            come: Seq::from_vec(Vec::new(alloc)),
        };
        let floor = self.ripening.floor();
        let delta = self.ripening.advance(
            alloc,
            &dropped,
            floor,
            program,
            self.tally.pattern(),
            facts,
        )?;
        Ok(delta.gone)
    }
}
