ghost use Rattle.std.specs.Prelude.{◌≡◌, ◌-ℤ◌, ◌+ℤ◌, ◌≤ℤ◌, ◌<ℤ◌, ◌^◌, pos, ℤ, not, Bool, true, false, [], None, IfOk, IfSome, OnOk, IsTrue};
ghost use Rattle.row_delta.specs.declared.delta.Delta.{Delta};
ghost use Rattle.row_delta.specs.declared.row.Named.{Named};
ghost use Rattle.row_delta.specs.declared.row.Row.{Row};
ghost use Rattle.row_delta.specs.Rows.{has, InOrder};
ghost use Rattle.row_change.specs.Changes.{IsDifference, changes_nothing};
ghost use Rattle.rule_model.specs.declared.program.Program.{Program};
ghost use Rattle.rule_model.specs.Rows.{pattern_of};
ghost use Rattle.rule_model.specs.Moments.{IsAt};
ghost use Rattle.rule_model.specs.Snapshots.{Snapshot, floor};
ghost use Rattle.join_tests.specs.Joins.{Look};
ghost use Rattle.join_memory.specs.declared.candidates.Candidates.{Candidates};
ghost use Rattle.join_memory.specs.Joined.{has_name};
ghost use Rattle.join_memory.specs.Standing.{clean, cleaned, either, no_rows};
ghost use Rattle.condition_rows.specs.Lines.{line};
ghost use Rattle.condition_rows.specs.Looks.{empty_snapshot};
ghost use Rattle.beta_node.specs.Forgetting.{ForgetsIn};
ghost use Rattle.beta_node.specs.Lending.{with_candidates, NodeTakes};
ghost use Rattle.beta_node.specs.Nodes.{condition_of, is_negated, NodeStands};
ghost use Rattle.beta_node.specs.Quiet.{IsBefore, IsDue, IsQuiet};
ghost use Rattle.beta_node.specs.Turns.{IsConditionTurn};

mod handed;
mod loading;

use beta_join::BetaJoin;
use counting_node::{Gathered, TallyNode, Witnesses};
use fx_base::{Copies, EntryId, Facts, Millis, NoMemory, Seq};
use not_node::NotNode;
use row_delta::{Delta, Named, Row};
use rule_model::{Accumulate, Condition, Moment, Pattern, Program};
use std::alloc::Global;

/// The node of an `accumulate`, with what the condition says.
#[derive(Drop)]
pub struct FoldNode {
    accumulate: Accumulate,
    tally: TallyNode<Gathered>,
}

/// The node of a condition. After a call that was refused memory it is to be given up.
#[derive(Drop)]
pub enum Node {
    Join(BetaJoin),
    Not(NotNode),
    Exists(TallyNode<Witnesses>),
    Fold(FoldNode),
}

/// The floor of an entry point at the clock 0, where no event was inserted and nothing promised.
#[tactic(auto, unfolding(rule_model::specs::Snapshots::floor))]
fn first_floor(program: &Program, entry: EntryId) -> i128
    ensures { result ≡ floor program.now empty_snapshot entry.0 }
{
    let start: i128 = 0;
    start.max(start - i128::from(program.lateness(entry)))
}

/// The clock from which a moment is past at an entry point of this lateness; nothing where no clock of 64 bits comes so far.
fn clock_past(at: i128, lateness: Millis) -> Option<i128>
    ensures reaches { (clock : ℤ) → pos 0 ≤ℤ (at +ℤ lateness) → clock <ℤ pos (2 ^ 63) → IsBefore result clock → (clock -ℤ lateness) ≤ℤ at }
    ensures exact { IfSome result (λ moment. moment ≡ (at +ℤ lateness) +ℤ pos 1) }
{
    at.checked_add(i128::from(lateness) + 1)
}

impl Node {
    /// The node of a condition, which keeps nothing and so has no rows, at the clock 0. It copies the condition.
    pub fn new(alloc: Global, program: &Program, condition: &Condition) -> Result<Node, NoMemory>
        ensures condition { IfOk result (λ node. condition_of node ≡ condition.now) }
        ensures stands { IfOk result (λ node. (look : Look) (forgotten : Named → Bool) → NodeStands program.now node look empty_snapshot no_rows forgotten) }
    {
        match condition {
            Condition::Plain(pattern) => {
                let pattern = pattern.copy(alloc)?;
                Ok(Node::Join(BetaJoin::new(alloc, pattern)))
            }
            Condition::Negated(pattern) => {
                let pattern = pattern.copy(alloc)?;
                let floor = first_floor(program, pattern.entry);
                Ok(Node::Not(NotNode::new(alloc, pattern, floor)))
            }
            Condition::Existing(pattern) => {
                let pattern = pattern.copy(alloc)?;
                Ok(Node::Exists(TallyNode::new(alloc, pattern)))
            }
            Condition::Folded(accumulate) => {
                let pattern = accumulate.pattern.copy(alloc)?;
                let accumulate = accumulate.copy(alloc)?;
                let tally = TallyNode::new(alloc, pattern);
                Ok(Node::Fold(FoldNode { accumulate, tally }))
            }
        }
    }

    /// The pattern of the candidates. Takes no memory.
    pub fn pattern(&self) -> &Pattern
        ensures { result.now ≡ pattern_of (condition_of self.now) }
    {
        match self {
            Node::Join(join) => join.pattern(),
            Node::Not(waiting) => waiting.pattern(),
            Node::Exists(tally) => tally.pattern(),
            Node::Fold(fold) => &fold.accumulate.pattern,
        }
    }

    /// Takes what has changed in the rows of the conditions before this one, and in its candidates, each named by a row of its
    /// own, and the moment, and answers what has changed in what the condition makes of them. It costs what the
    /// node of the kind says; where nothing has changed and no row becomes mature, a comparison and a look at the least moment.
    pub fn advance<F: Facts>(
        &mut self,
        alloc: Global,
        program: &Program,
        left: &Delta,
        right: &Delta,
        moment: &Moment,
        facts: &F,
    ) -> Result<Delta, NoMemory>
        ensures condition { OnOk result (condition_of self.new ≡ condition_of self.old) }
        ensures stands { OnOk result ((world : Look) (s next : Snapshot) (rows rows_now : Row → Bool) (forgotten : Named → Bool)
            → NodeStands program.now self.old (F.map facts.now) s rows forgotten → IsAt next moment.now
            → IsConditionTurn program.now (condition_of self.old) (F.map facts.now) world s next rows rows_now forgotten left.now right.now
            → NodeStands program.now self.new (F.map facts.now) next rows_now forgotten) }
        ensures difference { IfOk result (λ delta. (world : Look) (s next : Snapshot) (rows rows_now : Row → Bool) (forgotten : Named → Bool)
            → NodeStands program.now self.old (F.map facts.now) s rows forgotten → IsAt next moment.now
            → IsConditionTurn program.now (condition_of self.old) (F.map facts.now) world s next rows rows_now forgotten left.now right.now
            → IsDifference (cleaned (line program.now s (condition_of self.old) rows) forgotten) (cleaned (line program.now next (condition_of self.old) rows_now) forgotten) delta) }
    {
        match self {
            Node::Join(join) => {
                let delta = join.advance(alloc, left, right, facts)?;
                Ok(delta)
            }
            Node::Not(waiting) => {
                let floor = moment.floor(program, waiting.pattern().entry);
                let delta = waiting.advance(alloc, program, left, right, floor, facts)?;
                Ok(delta)
            }
            Node::Exists(tally) => {
                let delta = tally.advance(alloc, &(), left, right, facts)?;
                Ok(delta)
            }
            Node::Fold(fold) => {
                let FoldNode { accumulate, tally } = fold;
                let delta = tally.advance(alloc, accumulate, left, right, facts)?;
                Ok(delta)
            }
        }
    }

    /// Drops the rows of the conditions before this one that name an old fact (`rows`), and the old candidates, and answers the rows
    /// of the condition that go with them, in order. What it counts or gathers beside rows that stay is left as it is, old facts
    /// included. `facts` still has the old facts. It costs what a step costs in which these rows and candidates go; where there
    /// are none, a comparison.
    pub fn forget<F: Facts>(
        &mut self,
        alloc: Global,
        program: &Program,
        rows: &[Row],
        old: &[Named],
        facts: &F,
    ) -> Result<Seq<Row>, NoMemory>
        ensures condition { OnOk result (condition_of self.new ≡ condition_of self.old) }
        ensures stands { OnOk result ((s : Snapshot) (left : Row → Bool) (forgotten : Named → Bool)
            → ForgetsIn program.now self.old (F.map facts.now) s left forgotten (has_name old.now) rows.now
            → NodeStands program.now self.new (F.map facts.now) s left (either forgotten (has_name old.now))) }
        ensures dropped { IfOk result (λ gone. (s : Snapshot) (left : Row → Bool) (forgotten : Named → Bool)
            → ForgetsIn program.now self.old (F.map facts.now) s left forgotten (has_name old.now) rows.now
            → (row : Row) → cleaned (line program.now s (condition_of self.old) left) forgotten row ≡ true → has gone row ≡ not (clean (has_name old.now) row)) }
        ensures dropped_alone { IfOk result (λ gone. (s : Snapshot) (left : Row → Bool) (forgotten : Named → Bool)
            → ForgetsIn program.now self.old (F.map facts.now) s left forgotten (has_name old.now) rows.now
            → (row : Row) → has gone row ≡ true → cleaned (line program.now s (condition_of self.old) left) forgotten row ≡ true) }
        ensures in_order { IfOk result (λ gone. (s : Snapshot) (left : Row → Bool) (forgotten : Named → Bool)
            → ForgetsIn program.now self.old (F.map facts.now) s left forgotten (has_name old.now) rows.now → InOrder gone) }
    {
        if rows.is_empty() && old.is_empty() {
            return Ok(Seq::from_vec(Vec::new(alloc)));
        }
        match self {
            Node::Join(join) => {
                let gone = join.forget(alloc, rows, old, facts)?;
                Ok(gone)
            }
            Node::Not(waiting) => {
                let gone = waiting.forget(alloc, program, rows, old, facts)?;
                Ok(gone)
            }
            Node::Exists(tally) => {
                let gone = tally.forget(alloc, &(), rows, old, facts)?;
                Ok(gone)
            }
            Node::Fold(fold) => {
                let FoldNode { accumulate, tally } = fold;
                let gone = tally.forget(alloc, accumulate, rows, old, facts)?;
                Ok(gone)
            }
        }
    }

    /// Whether the node stays as it is, and with it what its condition makes, at this moment, where nothing changes in the rows
    /// before it and in its candidates. So it is but for a `not` with a row that waits and is mature then; and so it is too where its
    /// candidates are lent and have turned, and nothing is handed to it. It costs a look at the least moment for which a row waits.
    /// Takes no memory.
    pub fn is_still(&self, program: &Program, moment: &Moment) -> bool
        ensures others { is_negated (condition_of self.now) ≡ false → result ≡ true }
        ensures stands { IsTrue result → (look world : Look) (s next : Snapshot) (rows rows_now : Row → Bool) (forgotten : Named → Bool) (left right : Delta)
            → changes_nothing left ≡ true → changes_nothing right ≡ true
            → NodeStands program.now self.now look s rows forgotten → IsAt next moment.now → IsConditionTurn program.now (condition_of self.now) look world s next rows rows_now forgotten left right
            → NodeStands program.now self.now look next rows_now forgotten }
        ensures rows { IsTrue result → (look world : Look) (s next : Snapshot) (rows rows_now : Row → Bool) (forgotten : Named → Bool) (left right : Delta)
            → changes_nothing left ≡ true → changes_nothing right ≡ true
            → NodeStands program.now self.now look s rows forgotten → IsAt next moment.now → IsConditionTurn program.now (condition_of self.now) look world s next rows rows_now forgotten left right
            → (row : Row) → cleaned (line program.now next (condition_of self.now) rows_now) forgotten row ≡ cleaned (line program.now s (condition_of self.now) rows) forgotten row }
        ensures untouched { IsTrue result → (was : Candidates) (look world : Look) (s next : Snapshot) (rows rows_now : Row → Bool) (forgotten : Named → Bool) (left right : Delta)
            → NodeTakes self.now was look right [] [] → changes_nothing left ≡ true
            → NodeStands program.now (with_candidates was self.now) look s rows forgotten → IsAt next moment.now → IsConditionTurn program.now (condition_of self.now) look world s next rows rows_now forgotten left right
            → NodeStands program.now self.now look next rows_now forgotten }
        ensures untouched_rows { IsTrue result → (was : Candidates) (look world : Look) (s next : Snapshot) (rows rows_now : Row → Bool) (forgotten : Named → Bool) (left right : Delta)
            → NodeTakes self.now was look right [] [] → changes_nothing left ≡ true
            → NodeStands program.now (with_candidates was self.now) look s rows forgotten → IsAt next moment.now → IsConditionTurn program.now (condition_of self.now) look world s next rows rows_now forgotten left right
            → (row : Row) → cleaned (line program.now next (condition_of self.now) rows_now) forgotten row ≡ cleaned (line program.now s (condition_of self.now) rows) forgotten row }
        ensures due { result ≡ false → (look world : Look) (s next : Snapshot) (rows rows_now : Row → Bool) (forgotten : Named → Bool) (left right : Delta)
            → changes_nothing left ≡ true → changes_nothing right ≡ true
            → NodeStands program.now self.now look s rows forgotten → IsAt next moment.now → IsConditionTurn program.now (condition_of self.now) look world s next rows rows_now forgotten left right
            → (row : Row) × (cleaned (line program.now s (condition_of self.now) rows) forgotten row ≡ false) × (cleaned (line program.now next (condition_of self.now) rows_now) forgotten row ≡ true) }
    {
        match self {
            Node::Not(waiting) => {
                let floor = moment.floor(program, waiting.pattern().entry);
                waiting.is_still(floor)
            }
            Node::Join(_) => true,
            Node::Exists(_) => true,
            Node::Fold(_) => true,
        }
    }

    /// The least clock, in milliseconds, at which a row that waits is mature: until then a move of the clock alone, which changes
    /// no candidates, changes nothing here, whatever candidates are lent to it, and with it a row comes. `None` where no row waits,
    /// or for no clock of 128 bits. Takes no memory.
    pub fn quiet_until(&self, program: &Program) -> Option<i128>
        ensures quiet { IsQuiet program.now self.now result }
        ensures lent { (own : Candidates) → IsQuiet program.now (with_candidates own self.now) result }
        ensures due { IfSome result (λ moment. IsDue program.now self.now moment) }
        ensures others { is_negated (condition_of self.now) ≡ false → result ≡ None }
    {
        match self {
            Node::Not(waiting) => match waiting.next_moment() {
                Some(at) => clock_past(at, program.lateness(waiting.pattern().entry)),
                None => None,
            },
            Node::Join(_) => None,
            Node::Exists(_) => None,
            Node::Fold(_) => None,
        }
    }
}
