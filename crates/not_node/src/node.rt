ghost use Rattle.std.specs.Prelude.{◌≡◌, ◌&&◌, ◌||◌, not, cond, None, Bool, IfOk, OnOk, IsTrue, ℤ, int_lt, Option, IfSome, option_map, true, false};
ghost use Rattle.row_delta.specs.declared.row.Row.{Row};
ghost use Rattle.row_delta.specs.declared.row.Named.{Named};
ghost use Rattle.row_delta.specs.Rows.{has, InOrder};
ghost use Rattle.row_change.specs.Changes.{IsDifference};
ghost use Rattle.rule_model.specs.declared.program.Program.{Program};
ghost use Rattle.join_tests.specs.Joins.{Look};
ghost use Rattle.join_memory.specs.Joined.{has_name};
ghost use Rattle.join_memory.specs.Memories.{left_at, has_left, has_right, KeepsMemories};
ghost use Rattle.join_memory.specs.Standing.{no_rows, no_names, StandsFor};
ghost use Rattle.join_memory.specs.Inputs.{IsStepped};
ghost use Rattle.join_memory.specs.Shared.{over};
ghost use Rattle.counting_node.specs.Counts.{counts_blockers};
ghost use Rattle.counting_node.specs.Extras.{AllLaden, AreExtrasOf, blockers_laden, nothing_gathered};
ghost use Rattle.counting_node.specs.Tallies.{TallyStep};
ghost use Rattle.not_node.specs.Rows.{IsInStep, not_rows};
ghost use Rattle.not_node.specs.Waiting.{waits, IsMomentFrom, NoneDue, later};
ghost use Rattle.not_node.specs.Doors.{blocking_pattern};

mod handed;

use crate::ripening::Ripening;
use counting_node::{Blockers, TallyNode};
use fx_base::{Facts, NoMemory, RuleId, Seq};
use join_memory::Candidates;
use row_delta::{Delta, Extra, Named, Row};
use rule_model::{Pattern, Program};
use std::alloc::Global;

/// The node of a `not`: it counts for each left row the candidates that pass, and behind that the rows for which it counts none
/// wait until they are mature. After a call that was refused memory it is to be given up.
#[derive(Drop)]
pub struct NotNode {
    tally: TallyNode<Blockers>,
    ripening: Ripening,
}

impl NotNode {
    /// A node that keeps nothing, and so has no rows. Before the floor, a moment in milliseconds, no event of the pattern can
    /// start any more. Takes no memory.
    pub fn new(alloc: Global, pattern: Pattern, floor: i128) -> NotNode
        ensures pattern { blocking_pattern result ≡ pattern }
        ensures floor { result.ripening.floor ≡ floor }
        ensures nothing { (look : Look) (forgotten : Named → Bool) → StandsFor result.tally.memories look no_rows no_names forgotten }
        ensures in_step { (program : Program) (look : Look) → IsInStep program look result }
    {
        NotNode {
            tally: TallyNode::new(alloc, pattern),
            ripening: Ripening::new(alloc, floor),
        }
    }

    /// The pattern of the candidates. Takes no memory.
    pub fn pattern(&self) -> &Pattern
        ensures { result.now ≡ blocking_pattern self.now }
    {
        self.tally.pattern()
    }

    /// The least moment for which a row waits. Takes no memory.
    pub fn next_moment(&self) -> Option<i128>
        ensures waits { IfSome result (λ at. (row : Row) × (waits self.now.ripening.waiting.keys at row ≡ true)) }
        ensures least { (at : ℤ) (row : Row) → waits self.now.ripening.waiting.keys at row ≡ true → IsMomentFrom result at }
    {
        self.ripening.next_moment()
    }

    /// Whether no row that waits has its moment below this floor, in milliseconds: as long as nothing changes before the node, its
    /// rows by a floor up to this one are those that it has. It costs a look at the least moment. Takes no memory.
    pub fn is_still(&self, floor: i128) -> bool
        ensures quiet { IsTrue result → NoneDue self.now.ripening.waiting.keys floor }
        ensures due { result ≡ false → (at : ℤ) × (row : Row) × (waits self.now.ripening.waiting.keys at row ≡ true) × (int_lt at floor ≡ true) }
    {
        match self.next_moment() {
            Some(at) => floor <= at,
            None => true,
        }
    }

    /// Takes what has changed in the rows of the conditions before this one and in its candidates, and a new floor, and answers
    /// what has changed in the left rows for which no candidate passes and that are mature. A floor below that of the last call
    /// is not taken. Where nothing changes but the floor, it costs one look at the least moment, and for each row that becomes
    /// mature the logarithm of what waits; for each row for which the first candidate comes or the last one goes, the temporal
    /// tests and the logarithm of what waits.
    pub fn advance<F: Facts>(
        &mut self,
        alloc: Global,
        program: &Program,
        left: &Delta,
        right: &Delta,
        floor: i128,
        facts: &F,
    ) -> Result<Delta, NoMemory>
        ensures kept { OnOk result (IsStepped self.old.tally.memories self.new.tally.memories (F.map facts.now) left.now right.now) }
        ensures tallies { OnOk result (TallyStep counts_blockers (F.map facts.now) self.old.tally.memories self.new.tally.memories left.now right.now) }
        ensures floor { OnOk result (self.new.ripening.floor ≡ later self.old.ripening.floor floor) }
        ensures in_step { OnOk result (IsInStep program.now (F.map facts.now) self.old → IsInStep program.now (F.map facts.now) self.new) }
        ensures difference { IfOk result (λ delta. IsInStep program.now (F.map facts.now) self.old
            → IsDifference (not_rows program.now (F.map facts.now) self.old) (not_rows program.now (F.map facts.now) self.new) delta) }
    {
        let blocked = self.tally.advance(alloc, &(), left, right, facts)?;
        let delta = self.ripening.advance(
            alloc,
            &blocked,
            floor,
            program,
            self.tally.pattern(),
            facts,
        )?;
        Ok(delta)
    }

    /// Takes rows of the conditions before this one, candidates, and extras in the order of their rows, which are of these rows, into a
    /// node that keeps nothing, and a floor, and answers the rows that the node has then. It costs what a step costs in which these
    /// rows and candidates come, and for each row the logarithm of the extras.
    pub fn load<F: Facts>(
        &mut self,
        alloc: Global,
        program: &Program,
        left: &[Row],
        right: &[Named],
        extras: &[Extra],
        floor: i128,
        facts: &F,
    ) -> Result<Delta, NoMemory>
        ensures kept { OnOk result (KeepsMemories self.old.tally.memories self.new.tally.memories (F.map facts.now)
            (λ r. has_left self.old.tally.memories (F.map facts.now) r || has left.now r) (λ c. has_right self.old.tally.memories (F.map facts.now) c || has_name right.now c)) }
        ensures laden { OnOk result (AllLaden counts_blockers blockers_laden (F.map facts.now) extras.now (has left.now) self.old.tally.memories self.new.tally.memories) }
        ensures floor { OnOk result (self.new.ripening.floor ≡ later self.old.ripening.floor floor) }
        ensures in_step { OnOk result (IsInStep program.now (F.map facts.now) self.old → IsInStep program.now (F.map facts.now) self.new) }
        ensures difference { IfOk result (λ delta. IsInStep program.now (F.map facts.now) self.old
            → IsDifference (not_rows program.now (F.map facts.now) self.old) (not_rows program.now (F.map facts.now) self.new) delta) }
    {
        let counted = self.tally.load(alloc, &(), left, right, extras, facts)?;
        let delta = self.ripening.advance(
            alloc,
            &counted,
            floor,
            program,
            self.tally.pattern(),
            facts,
        )?;
        Ok(delta)
    }

    /// What is counted beside each left row beyond the candidates that are kept and pass there, where that is something, in the
    /// order of the rows, each under this rule and condition. The candidates are shared ones where some are given, and else its own.
    pub fn extras<F: Facts>(
        &self,
        alloc: Global,
        shared: Option<&Candidates>,
        rule: RuleId,
        condition: u8,
        facts: &F,
    ) -> Result<Vec<Extra>, NoMemory>
        ensures { IfOk result (λ extras. AreExtrasOf counts_blockers nothing_gathered (over self.now.tally.memories (option_map (λ c. c.now) shared.entry)) (F.map facts.now) rule condition extras.items) }
    {
        let extras = self
            .tally
            .extras(alloc, &(), shared, rule, condition, facts)?;
        Ok(extras)
    }

    /// Drops left rows and candidates whose facts are forgotten, and answers the rows that go with them, in order. The counts of
    /// the rows that stay are left as they are.
    pub fn forget<F: Facts>(
        &mut self,
        alloc: Global,
        program: &Program,
        rows: &[Row],
        old: &[Named],
        facts: &F,
    ) -> Result<Seq<Row>, NoMemory>
        ensures kept { OnOk result (KeepsMemories self.old.tally.memories self.new.tally.memories (F.map facts.now)
            (λ r. has_left self.old.tally.memories (F.map facts.now) r && not (has rows.now r)) (λ c. has_right self.old.tally.memories (F.map facts.now) c && not (has_name old.now c))) }
        ensures left { OnOk result ((r : Row) → left_at self.new.tally.memories (F.map facts.now) r ≡ cond (has rows.now r) None (left_at self.old.tally.memories (F.map facts.now) r)) }
        ensures floor { OnOk result (self.new.ripening.floor ≡ self.old.ripening.floor) }
        ensures in_step { OnOk result (IsInStep program.now (F.map facts.now) self.old → IsInStep program.now (F.map facts.now) self.new) }
        ensures in_order { IfOk result (λ gone. IsInStep program.now (F.map facts.now) self.old → InOrder gone) }
        ensures rows { IfOk result (λ gone. IsInStep program.now (F.map facts.now) self.old
            → (r : Row) → has gone r ≡ (not_rows program.now (F.map facts.now) self.old r && not (not_rows program.now (F.map facts.now) self.new r))) }
    {
        let gone = self.tally.forget(alloc, &(), rows, old, facts)?;
        let dropped = Delta {
            gone,
            come: Seq::from_vec(Vec::new(alloc)),
        };
        let floor = self.ripening.floor();
        let delta = self.ripening.advance(
            alloc,
            &dropped,
            floor,
            program,
            self.tally.pattern(),
            facts,
        )?;
        Ok(delta.gone)
    }
}
