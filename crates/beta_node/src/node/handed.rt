ghost use Rattle.std.specs.Prelude.{◌≡◌, not, Bool, true, false, List, IfOk, OnOk};
ghost use Rattle.row_delta.specs.declared.delta.Delta.{Delta};
ghost use Rattle.row_delta.specs.declared.row.Named.{Named};
ghost use Rattle.row_delta.specs.declared.row.Row.{Row};
ghost use Rattle.row_delta.specs.Rows.{has, InOrder};
ghost use Rattle.row_change.specs.Changes.{IsDifference};
ghost use Rattle.rule_model.specs.Moments.{IsAt};
ghost use Rattle.rule_model.specs.Snapshots.{Snapshot};
ghost use Rattle.join_tests.specs.JoinValues.{shown};
ghost use Rattle.join_tests.specs.Joins.{Look};
ghost use Rattle.join_memory.specs.declared.candidates.Candidates.{Candidates};
ghost use Rattle.join_memory.specs.Standing.{clean, cleaned, either, no_rows, no_names};
ghost use Rattle.counting_node.specs.Extras.{extra_for};
ghost use Rattle.condition_rows.specs.Lines.{line};
ghost use Rattle.condition_rows.specs.Looks.{empty_snapshot};
ghost use Rattle.beta_node.specs.Forgetting.{ForgetsIn};
ghost use Rattle.beta_node.specs.Lending.{with_candidates, candidates_in, NodeTakes, NodeForgoes, NodeHas, node_value, node_has_under, node_keeps_under};
ghost use Rattle.beta_node.specs.Loading.{IsLoad, Laden, node_rows};
ghost use Rattle.beta_node.specs.Nodes.{condition_of, NodeStands};
ghost use Rattle.beta_node.specs.Turns.{IsConditionTurn};

use super::loading::coming;
use super::{FoldNode, Node};
use fx_base::{Facts, NoMemory, Seq, Value};
use join_memory::Candidates;
use join_tests::JoinValue;
use row_delta::{Delta, Extra, Named, Row};
use rule_model::{Moment, Program};
use std::alloc::Global;

impl Node {
    /// Exchanges the candidates with shared ones, as they are lent for a turn and given back. Takes no memory.
    pub fn exchange_right(&mut self, shared: &mut Candidates)
        ensures node { self.new ≡ with_candidates shared.old self.old }
        ensures names { shared.new.names ≡ candidates_in self.old }
        ensures pattern { shared.new.pattern ≡ shared.old.pattern }
    {
        match self {
            Node::Join(join) => join.exchange_right(shared),
            Node::Not(waiting) => waiting.exchange_right(shared),
            Node::Exists(tally) => tally.exchange_right(shared),
            Node::Fold(fold) => fold.tally.exchange_right(shared),
        }
    }

    /// The value under which a row of the conditions before this one is kept. Takes no memory.
    pub fn row_value<'a, F: Facts>(&self, row: &Row, facts: &'a F) -> JoinValue<'a>
        ensures { shown result ≡ node_value self.now (F.map facts.now) row.now }
    {
        match self {
            Node::Join(join) => join.row_value(row, facts),
            Node::Not(waiting) => waiting.row_value(row, facts),
            Node::Exists(tally) => tally.row_value(row, facts),
            Node::Fold(fold) => fold.tally.row_value(row, facts),
        }
    }

    /// Whether a row of the conditions before this one is kept under a value. It takes no memory, and costs a hash.
    pub fn has_rows_under(&self, value: &Value) -> bool
        ensures bucket { result ≡ node_has_under self.now value.now }
        ensures none { result ≡ false → (row : Row) → node_keeps_under self.now value.now row ≡ false }
    {
        match self {
            Node::Join(join) => join.has_rows_under(value),
            Node::Not(waiting) => waiting.has_rows_under(value),
            Node::Exists(tally) => tally.has_rows_under(value),
            Node::Fold(fold) => fold.tally.has_rows_under(value),
        }
    }

    /// A step, as `advance` takes it, of a node whose candidates are lent and have turned already: of those that went and came,
    /// these are handed to it. What it answers leads from what the condition made of the candidates before.
    pub fn advance_turned<F: Facts>(
        &mut self,
        alloc: Global,
        program: &Program,
        left: &Delta,
        gone: &[Named],
        come: &[Named],
        moment: &Moment,
        facts: &F,
    ) -> Result<Delta, NoMemory>
        ensures condition { OnOk result (condition_of self.new ≡ condition_of self.old) }
        ensures right { OnOk result (candidates_in self.new ≡ candidates_in self.old) }
        ensures stands { OnOk result ((was : Candidates) (right : Delta) → NodeTakes self.old was (F.map facts.now) right gone.now come.now
            → (world : Look) (s next : Snapshot) (rows rows_now : Row → Bool) (forgotten : Named → Bool)
            → NodeStands program.now (with_candidates was self.old) (F.map facts.now) s rows forgotten → IsAt next moment.now
            → IsConditionTurn program.now (condition_of self.old) (F.map facts.now) world s next rows rows_now forgotten left.now right
            → NodeStands program.now self.new (F.map facts.now) next rows_now forgotten) }
        ensures difference { IfOk result (λ delta. (was : Candidates) (right : Delta) → NodeTakes self.old was (F.map facts.now) right gone.now come.now
            → (world : Look) (s next : Snapshot) (rows rows_now : Row → Bool) (forgotten : Named → Bool)
            → NodeStands program.now (with_candidates was self.old) (F.map facts.now) s rows forgotten → IsAt next moment.now
            → IsConditionTurn program.now (condition_of self.old) (F.map facts.now) world s next rows rows_now forgotten left.now right
            → IsDifference (cleaned (line program.now s (condition_of self.old) rows) forgotten) (cleaned (line program.now next (condition_of self.old) rows_now) forgotten) delta) }
    {
        match self {
            Node::Join(join) => {
                let delta = join.advance_turned(alloc, left, gone, come, facts)?;
                Ok(delta)
            }
            Node::Not(waiting) => {
                let floor = moment.floor(program, waiting.pattern().entry);
                let delta = waiting.advance_turned(alloc, program, left, gone, come, floor, facts)?;
                Ok(delta)
            }
            Node::Exists(tally) => {
                let delta = tally.advance_turned(alloc, &(), left, gone, come, facts)?;
                Ok(delta)
            }
            Node::Fold(fold) => {
                let FoldNode { accumulate, tally } = fold;
                let delta = tally.advance_turned(alloc, accumulate, left, gone, come, facts)?;
                Ok(delta)
            }
        }
    }

    /// Drops the rows of the conditions before this one that name an old fact (`rows`), as `forget` does, where the candidates are
    /// lent, and the old ones among them were dropped already; those of them that may join a row are handed (`gone`). A node that
    /// counts or gathers does not look at them.
    pub fn forget_turned<F: Facts>(
        &mut self,
        alloc: Global,
        program: &Program,
        rows: &[Row],
        gone: &[Named],
        facts: &F,
    ) -> Result<Seq<Row>, NoMemory>
        ensures condition { OnOk result (condition_of self.new ≡ condition_of self.old) }
        ensures right { OnOk result (candidates_in self.new ≡ candidates_in self.old) }
        ensures stands { OnOk result ((was : Candidates) (old : Named → Bool) → NodeForgoes self.old was (F.map facts.now) old gone.now
            → (s : Snapshot) (left : Row → Bool) (forgotten : Named → Bool) → ForgetsIn program.now (with_candidates was self.old) (F.map facts.now) s left forgotten old rows.now
            → NodeStands program.now self.new (F.map facts.now) s left (either forgotten old)) }
        ensures dropped { IfOk result (λ dropped. (was : Candidates) (old : Named → Bool) → NodeForgoes self.old was (F.map facts.now) old gone.now
            → (s : Snapshot) (left : Row → Bool) (forgotten : Named → Bool) → ForgetsIn program.now (with_candidates was self.old) (F.map facts.now) s left forgotten old rows.now
            → (row : Row) → cleaned (line program.now s (condition_of self.old) left) forgotten row ≡ true → has dropped row ≡ not (clean old row)) }
        ensures dropped_alone { IfOk result (λ dropped. (was : Candidates) (old : Named → Bool) → NodeForgoes self.old was (F.map facts.now) old gone.now
            → (s : Snapshot) (left : Row → Bool) (forgotten : Named → Bool) → ForgetsIn program.now (with_candidates was self.old) (F.map facts.now) s left forgotten old rows.now
            → (row : Row) → has dropped row ≡ true → cleaned (line program.now s (condition_of self.old) left) forgotten row ≡ true) }
        ensures in_order { IfOk result (λ dropped. (was : Candidates) (old : Named → Bool) → NodeForgoes self.old was (F.map facts.now) old gone.now
            → (s : Snapshot) (left : Row → Bool) (forgotten : Named → Bool) → ForgetsIn program.now (with_candidates was self.old) (F.map facts.now) s left forgotten old rows.now → InOrder dropped) }
    {
        match self {
            Node::Join(join) => {
                let dropped = join.forget_turned(alloc, rows, gone, facts)?;
                Ok(dropped)
            }
            Node::Not(waiting) => {
                let dropped = waiting.forget_turned(alloc, program, rows, facts)?;
                Ok(dropped)
            }
            Node::Exists(tally) => {
                let dropped = tally.forget_turned(alloc, &(), rows, facts)?;
                Ok(dropped)
            }
            Node::Fold(fold) => {
                let FoldNode { accumulate, tally } = fold;
                let dropped = tally.forget_turned(alloc, accumulate, rows, facts)?;
                Ok(dropped)
            }
        }
    }

    /// Takes the rows of the conditions before this one and the extras, as `load` does, into a node that keeps no rows, and to which
    /// the candidates are lent that are loaded already.
    pub fn load_turned<F: Facts>(
        &mut self,
        alloc: Global,
        program: &Program,
        left: &[Row],
        extras: &[Extra],
        moment: &Moment,
        facts: &F,
    ) -> Result<Delta, NoMemory>
        ensures condition { OnOk result (condition_of self.new ≡ condition_of self.old) }
        ensures right { OnOk result (candidates_in self.new ≡ candidates_in self.old) }
        ensures laden { OnOk result ((own : Candidates) (right : List Named) → NodeHas self.old (F.map facts.now) right
            → (world : Look) (s : Snapshot) (rows : Row → Bool)
            → NodeStands program.now (with_candidates own self.old) (F.map facts.now) empty_snapshot no_rows no_names → IsAt s moment.now
            → IsLoad program.now (condition_of self.old) (F.map facts.now) world s rows left.now right extras.now
            → Laden program.now self.new (F.map facts.now) world s rows (extra_for extras.now)) }
        ensures difference { IfOk result (λ delta. (own : Candidates) (right : List Named) → NodeHas self.old (F.map facts.now) right
            → NodeStands program.now (with_candidates own self.old) (F.map facts.now) empty_snapshot no_rows no_names
            → IsDifference (node_rows program.now (F.map facts.now) (with_candidates own self.old)) (node_rows program.now (F.map facts.now) self.new) delta) }
    {
        match self {
            Node::Join(join) => {
                let left = coming(alloc, left)?;
                let delta = join.advance_turned(alloc, &left, &[], &[], facts)?;
                Ok(delta)
            }
            Node::Not(waiting) => {
                let floor = moment.floor(program, waiting.pattern().entry);
                let delta = waiting.load_turned(alloc, program, left, extras, floor, facts)?;
                Ok(delta)
            }
            Node::Exists(tally) => {
                let delta = tally.load_turned(alloc, &(), left, extras, facts)?;
                Ok(delta)
            }
            Node::Fold(fold) => {
                let FoldNode { accumulate, tally } = fold;
                let delta = tally.load_turned(alloc, accumulate, left, extras, facts)?;
                Ok(delta)
            }
        }
    }
}
