ghost use Rattle.std.specs.Prelude.{◌≡◌, ◌&&◌, ◌||◌, not, None, Bool, false, OnOk, IfOk};
ghost use Rattle.std.specs.Ordering.{eq_by_cmp};
ghost use Rattle.row_delta.specs.declared.row.Row.{Row};
ghost use Rattle.row_delta.specs.declared.row.Named.{Named};
ghost use Rattle.row_delta.specs.declared.delta.Delta.{Delta};
ghost use Rattle.row_delta.specs.Rows.{has, row_cmp, InOrder};
ghost use Rattle.row_delta.specs.NameOrder.{name_cmp};
ghost use Rattle.row_change.specs.Changes.{IsDifference, LeadsRows};
ghost use Rattle.fx_base.specs.Values.{same_value};
ghost use Rattle.std.specs.Option.{is_some};
ghost use Rattle.alpha_memory.specs.JoinIndex.{at, bucket_at};
ghost use Rattle.join_tests.specs.JoinValues.{shown};
ghost use Rattle.join_tests.specs.Joins.{Look, joins};
ghost use Rattle.join_tests.specs.Kept.{row_value};
ghost use Rattle.join_memory.specs.Memories.{has_left, has_right, made, KeepsMemories};
ghost use Rattle.join_memory.specs.declared.candidates.Candidates.{Candidates};
ghost use Rattle.join_memory.specs.Handed.{moved};
ghost use Rattle.join_memory.specs.Joined.{has_name, joined};
ghost use Rattle.join_memory.specs.Shared.{sharing, ForgoesOld, TakesOver};
ghost use Rattle.join_memory.specs.Standing.{no_rows, no_names, StandsFor};
ghost use Rattle.join_memory.specs.Inputs.{IsStepped};
ghost use Rattle.beta_join.specs.Doors.{joined_candidates, joined_pattern};
ghost use Rattle.beta_join.specs.Turns.{NamesTurned, TurnedMemories};

use fx_base::{Copies, Facts, NoMemory, Seq, Value};
use join_memory::{Candidates, Memories, names_alone};
use join_tests::JoinValue;
use row_change::{Change, changes_nothing};
use row_delta::{Delta, Named, Row};
use rule_model::Pattern;
use std::alloc::Global;

/// The node of a pattern that binds a fact. Its rows are what the pattern makes of the rows and candidates that it keeps; they
/// are not kept, since the nodes behind it keep them. After a call that was refused memory it is to be given up.
#[derive(Drop)]
pub struct BetaJoin {
    memories: Memories<()>,
}

impl BetaJoin {
    /// A node that keeps nothing, and so has no rows. Takes no memory.
    pub fn new(alloc: Global, pattern: Pattern) -> BetaJoin
        ensures pattern { result.memories.pattern ≡ pattern }
        ensures nothing { (look : Look) (forgotten : Named → Bool) → StandsFor result.memories look no_rows no_names forgotten }
    {
        BetaJoin {
            memories: Memories::new(alloc, pattern),
        }
    }

    /// The pattern of the candidates. Takes no memory.
    pub fn pattern(&self) -> &Pattern
        ensures { result.now ≡ self.now.memories.pattern }
    {
        self.memories.pattern()
    }

    /// Takes what has changed in the rows of the conditions before this one, and in its candidates, each named by a row of its
    /// own, and answers what has changed in the rows that are made of what is kept. For each row or candidate that comes or
    /// goes it costs the logarithm of what has the same join value, and a test of what has it on the other side. Where nothing
    /// has changed, it costs a comparison.
    pub fn advance<F: Facts>(
        &mut self,
        alloc: Global,
        left: &Delta,
        right: &Delta,
        facts: &F,
    ) -> Result<Delta, NoMemory>
        ensures kept { OnOk result (IsStepped self.old.memories self.new.memories (F.map facts.now) left.now right.now) }
        ensures difference { IfOk result (λ delta. IsDifference (made self.old.memories (F.map facts.now)) (made self.new.memories (F.map facts.now)) delta) }
    {
        if changes_nothing(left) && changes_nothing(right) {
            let delta = Change::none(alloc).delta(alloc)?;
            return Ok(delta);
        }
        let delta = self.advanced(alloc, left, right, facts)?;
        Ok(delta)
    }

    /// Drops left rows and candidates whose facts are forgotten, and answers the rows that go with them, in order. It costs what
    /// a step costs in which they go.
    pub fn forget<F: Facts>(
        &mut self,
        alloc: Global,
        rows: &[Row],
        old: &[Named],
        facts: &F,
    ) -> Result<Seq<Row>, NoMemory>
        ensures kept { OnOk result (KeepsMemories self.old.memories self.new.memories (F.map facts.now)
            (λ row. has_left self.old.memories (F.map facts.now) row && not (has rows.now row)) (λ who. has_right self.old.memories (F.map facts.now) who && not (has_name old.now who))) }
        ensures dropped { IfOk result (λ dropped. (row : Row) → has dropped row ≡ (made self.old.memories (F.map facts.now) row && not (made self.new.memories (F.map facts.now) row))) }
        ensures in_order { IfOk result (λ dropped. InOrder dropped) }
    {
        let mut change = Change::none(alloc);
        self.rows_leave(alloc, &mut change, rows, facts)?;
        self.names_leave(alloc, &mut change, old, facts)?;
        let delta = change.delta(alloc)?;
        Ok(delta.gone)
    }

    /// Exchanges the candidates with shared ones, as they are lent for a turn and given back. Takes no memory.
    pub fn exchange_right(&mut self, shared: &mut Candidates)
        ensures memories { self.new.memories ≡ sharing self.old.memories shared.old }
        ensures pattern { shared.new.pattern ≡ shared.old.pattern }
        ensures names { shared.new.names ≡ joined_candidates self.old }
    {
        self.memories.exchange_right(shared);
    }

    /// The value under which a row of the conditions before this one is kept. Takes no memory.
    pub fn row_value<'a, F: Facts>(&self, row: &Row, facts: &'a F) -> JoinValue<'a>
        ensures { shown result ≡ row_value self.now.memories.pattern (F.map facts.now) row.now }
    {
        self.memories.row_value(row, facts)
    }

    /// Whether a row of the conditions before this one is kept under a value. It takes no memory, and costs a hash.
    pub fn has_rows_under(&self, value: &Value) -> bool
        ensures bucket { result ≡ is_some (bucket_at same_value self.now.memories.left value.now) }
        ensures none { result ≡ false → (row : Row) → at same_value row_cmp self.now.memories.left value.now row ≡ None }
    {
        self.memories.has_rows_under(value)
    }

    /// A step of a node whose candidates have turned already: of those that went and came, these are handed to it. What it
    /// answers leads from the rows that it had with the candidates before to those that it has with the new ones. It costs what a
    /// step costs in which these rows and candidates come and go.
    pub fn advance_turned<F: Facts>(
        &mut self,
        alloc: Global,
        left: &Delta,
        gone: &[Named],
        come: &[Named],
        facts: &F,
    ) -> Result<Delta, NoMemory>
        ensures right { OnOk result (joined_candidates self.new ≡ joined_candidates self.old) }
        ensures pattern { OnOk result (joined_pattern self.new ≡ joined_pattern self.old) }
        ensures kept { OnOk result ((was : Candidates) (right : Delta) → TakesOver self.old.memories was (F.map facts.now) right gone.now come.now
            → IsStepped (sharing self.old.memories was) self.new.memories (F.map facts.now) left.now right) }
        ensures difference { IfOk result (λ delta. (was : Candidates) (right : Delta) → TakesOver self.old.memories was (F.map facts.now) right gone.now come.now
            → IsDifference (made (sharing self.old.memories was) (F.map facts.now)) (made self.new.memories (F.map facts.now)) delta) }
    {
        let mut change = Change::none(alloc);
        self.names_turn(alloc, &mut change, gone, false, facts)?;
        self.names_turn(alloc, &mut change, come, true, facts)?;
        self.rows_leave(alloc, &mut change, left.gone.as_slice(), facts)?;
        self.rows_come(alloc, &mut change, left.come.as_slice(), facts)?;
        let delta = change.delta(alloc)?;
        Ok(delta)
    }

    /// Drops left rows whose facts are forgotten, where old candidates were dropped already and these of them are handed, and
    /// answers the rows that go with both, in order. It costs what a step costs in which they go.
    pub fn forget_turned<F: Facts>(
        &mut self,
        alloc: Global,
        rows: &[Row],
        gone: &[Named],
        facts: &F,
    ) -> Result<Seq<Row>, NoMemory>
        ensures right { OnOk result (joined_candidates self.new ≡ joined_candidates self.old) }
        ensures pattern { OnOk result (joined_pattern self.new ≡ joined_pattern self.old) }
        ensures kept { OnOk result ((was : Candidates) (old : Named → Bool) → ForgoesOld self.old.memories was (F.map facts.now) old gone.now
            → KeepsMemories (sharing self.old.memories was) self.new.memories (F.map facts.now)
            (λ row. has_left (sharing self.old.memories was) (F.map facts.now) row && not (has rows.now row)) (λ who. has_right (sharing self.old.memories was) (F.map facts.now) who && not (old who))) }
        ensures dropped { IfOk result (λ dropped. (was : Candidates) (old : Named → Bool) → ForgoesOld self.old.memories was (F.map facts.now) old gone.now
            → (row : Row) → has dropped row ≡ (made (sharing self.old.memories was) (F.map facts.now) row && not (made self.new.memories (F.map facts.now) row))) }
        ensures in_order { IfOk result (λ dropped. (was : Candidates) (old : Named → Bool) → ForgoesOld self.old.memories was (F.map facts.now) old gone.now → InOrder dropped) }
    {
        let mut change = Change::none(alloc);
        self.names_turn(alloc, &mut change, gone, false, facts)?;
        self.rows_leave(alloc, &mut change, rows, facts)?;
        let delta = change.delta(alloc)?;
        Ok(delta.gone)
    }

    /// A step in which something changes.
    fn advanced<F: Facts>(
        &mut self,
        alloc: Global,
        left: &Delta,
        right: &Delta,
        facts: &F,
    ) -> Result<Delta, NoMemory>
        ensures kept { OnOk result (IsStepped self.old.memories self.new.memories (F.map facts.now) left.now right.now) }
        ensures difference { IfOk result (λ delta. IsDifference (made self.old.memories (F.map facts.now)) (made self.new.memories (F.map facts.now)) delta) }
    {
        let gone = names_alone(alloc, right.gone.as_slice())?;
        let come = names_alone(alloc, right.come.as_slice())?;
        let mut change = Change::none(alloc);
        self.rows_leave(alloc, &mut change, left.gone.as_slice(), facts)?;
        self.names_leave(alloc, &mut change, gone.as_slice(), facts)?;
        self.names_come(alloc, &mut change, come.as_slice(), facts)?;
        self.rows_come(alloc, &mut change, left.come.as_slice(), facts)?;
        let delta = change.delta(alloc)?;
        Ok(delta)
    }

    fn rows_leave<F: Facts>(
        &mut self,
        alloc: Global,
        change: &mut Change,
        rows: &[Row],
        facts: &F,
    ) -> Result<(), NoMemory>
        ensures turned { OnOk result (TurnedMemories self.old.memories self.new.memories (F.map facts.now)
            (λ r. has_left self.old.memories (F.map facts.now) r && not (has rows.now r)) (has_right self.old.memories (F.map facts.now)) change.old change.new) }
        ensures right { OnOk result (joined_candidates self.new ≡ joined_candidates self.old) }
    {
        for row in rows {
            self.row_leaves(alloc, change, row, facts)?;
        }
        Ok(())
    }

    fn rows_come<F: Facts>(
        &mut self,
        alloc: Global,
        change: &mut Change,
        rows: &[Row],
        facts: &F,
    ) -> Result<(), NoMemory>
        ensures turned { OnOk result (TurnedMemories self.old.memories self.new.memories (F.map facts.now)
            (λ r. has_left self.old.memories (F.map facts.now) r || has rows.now r) (has_right self.old.memories (F.map facts.now)) change.old change.new) }
        ensures right { OnOk result (joined_candidates self.new ≡ joined_candidates self.old) }
    {
        for row in rows {
            self.row_comes(alloc, change, row, facts)?;
        }
        Ok(())
    }

    fn names_leave<F: Facts>(
        &mut self,
        alloc: Global,
        change: &mut Change,
        names: &[Named],
        facts: &F,
    ) -> Result<(), NoMemory>
        ensures { OnOk result (TurnedMemories self.old.memories self.new.memories (F.map facts.now)
            (has_left self.old.memories (F.map facts.now)) (λ c. has_right self.old.memories (F.map facts.now) c && not (has_name names.now c)) change.old change.new) }
    {
        for who in names {
            self.name_leaves(alloc, change, *who, facts)?;
        }
        Ok(())
    }

    fn names_come<F: Facts>(
        &mut self,
        alloc: Global,
        change: &mut Change,
        names: &[Named],
        facts: &F,
    ) -> Result<(), NoMemory>
        ensures { OnOk result (TurnedMemories self.old.memories self.new.memories (F.map facts.now)
            (has_left self.old.memories (F.map facts.now)) (λ c. has_right self.old.memories (F.map facts.now) c || has_name names.now c) change.old change.new) }
    {
        for who in names {
            self.name_comes(alloc, change, *who, facts)?;
        }
        Ok(())
    }

    fn names_turn<F: Facts>(
        &self,
        alloc: Global,
        change: &mut Change,
        names: &[Named],
        comes: bool,
        facts: &F,
    ) -> Result<(), NoMemory>
        ensures { OnOk result (NamesTurned self.now.memories (F.map facts.now) comes names.now names.now change.old change.new) }
    {
        for who in names {
            self.name_turns(alloc, change, *who, comes, facts)?;
        }
        Ok(())
    }

    /// A candidate that is handed comes or goes, as far as the rows are concerned.
    fn name_turns<F: Facts>(
        &self,
        alloc: Global,
        change: &mut Change,
        who: Named,
        comes: bool,
        facts: &F,
    ) -> Result<(), NoMemory>
        ensures { OnOk result ((set : Named → Bool) (old : Row → Bool) → set who ≡ not comes
            → LeadsRows old (joined (joins self.now.memories.pattern (F.map facts.now)) (has_left self.now.memories (F.map facts.now)) set) change.old.gone.keys change.old.come.keys
            → LeadsRows old (joined (joins self.now.memories.pattern (F.map facts.now)) (has_left self.now.memories (F.map facts.now)) (moved comes (eq_by_cmp name_cmp who) set)) change.new.gone.keys change.new.come.keys) }
    {
        let sight = self.memories.sight(who, facts);
        let rows = self.memories.with_candidate(alloc, &sight, who, facts)?;
        if comes {
            change.arrive(alloc, rows)
        } else {
            change.leave(alloc, rows)
        }
    }

    fn row_leaves<F: Facts>(
        &mut self,
        alloc: Global,
        change: &mut Change,
        row: &Row,
        facts: &F,
    ) -> Result<(), NoMemory>
        ensures turned { OnOk result (TurnedMemories self.old.memories self.new.memories (F.map facts.now)
            (λ r. has_left self.old.memories (F.map facts.now) r && not (eq_by_cmp row_cmp row.now r)) (has_right self.old.memories (F.map facts.now)) change.old change.new) }
        ensures right { OnOk result (joined_candidates self.new ≡ joined_candidates self.old) }
    {
        match self.memories.take_left(row, facts) {
            Some(()) => {
                let rows = self.memories.with_row(alloc, row, facts)?;
                change.leave(alloc, rows)
            }
            None => Ok(()),
        }
    }

    fn row_comes<F: Facts>(
        &mut self,
        alloc: Global,
        change: &mut Change,
        row: &Row,
        facts: &F,
    ) -> Result<(), NoMemory>
        ensures turned { OnOk result (TurnedMemories self.old.memories self.new.memories (F.map facts.now)
            (λ r. has_left self.old.memories (F.map facts.now) r || eq_by_cmp row_cmp row.now r) (has_right self.old.memories (F.map facts.now)) change.old change.new) }
        ensures right { OnOk result (joined_candidates self.new ≡ joined_candidates self.old) }
    {
        let rows = self.memories.with_row(alloc, row, facts)?;
        match self.memories.put_left(alloc, row.copy(alloc)?, (), facts)? {
            Some(()) => Ok(()),
            None => change.arrive(alloc, rows),
        }
    }

    fn name_leaves<F: Facts>(
        &mut self,
        alloc: Global,
        change: &mut Change,
        who: Named,
        facts: &F,
    ) -> Result<(), NoMemory>
        ensures { OnOk result (TurnedMemories self.old.memories self.new.memories (F.map facts.now)
            (has_left self.old.memories (F.map facts.now)) (λ c. has_right self.old.memories (F.map facts.now) c && not (eq_by_cmp name_cmp who c)) change.old change.new) }
    {
        match self.memories.take_right(who, facts) {
            Some(sight) => {
                let rows = self.memories.with_candidate(alloc, &sight, who, facts)?;
                change.leave(alloc, rows)
            }
            None => Ok(()),
        }
    }

    fn name_comes<F: Facts>(
        &mut self,
        alloc: Global,
        change: &mut Change,
        who: Named,
        facts: &F,
    ) -> Result<(), NoMemory>
        ensures { OnOk result (TurnedMemories self.old.memories self.new.memories (F.map facts.now)
            (has_left self.old.memories (F.map facts.now)) (λ c. has_right self.old.memories (F.map facts.now) c || eq_by_cmp name_cmp who c) change.old change.new) }
    {
        match self.memories.put_right(alloc, who, facts)? {
            Some(sight) => {
                let rows = self.memories.with_candidate(alloc, &sight, who, facts)?;
                change.arrive(alloc, rows)
            }
            None => Ok(()),
        }
    }
}
