ghost use Rattle.std.specs.Prelude.{◌≡◌, Bool, [], map, option_map, IfOk, OnOk};
ghost use Rattle.row_delta.specs.declared.row.Named.{Named};
ghost use Rattle.row_delta.specs.declared.row.Row.{Row};
ghost use Rattle.row_change.specs.Changes.{IsDifference};
ghost use Rattle.rule_model.specs.declared.program.Program.{Program};
ghost use Rattle.rule_model.specs.Moments.{IsAt};
ghost use Rattle.rule_model.specs.Distinct.{HaveDistinctTags};
ghost use Rattle.rule_model.specs.Snapshots.{Snapshot};
ghost use Rattle.join_tests.specs.Joins.{Look};
ghost use Rattle.join_memory.specs.Inputs.{row_naming};
ghost use Rattle.join_memory.specs.Standing.{no_rows, no_names};
ghost use Rattle.counting_node.specs.Extras.{extra_for};
ghost use Rattle.condition_rows.specs.Looks.{empty_snapshot, HasAllOf, NameHeld};
ghost use Rattle.beta_node.specs.Lending.{lent_to};
ghost use Rattle.beta_node.specs.Loading.{AreExtrasBeside, IsLoad, Laden, node_rows};
ghost use Rattle.beta_node.specs.Nodes.{condition_of, NodeStands};

use super::{FoldNode, Node};
use fx_base::{Copies, Facts, NoMemory, RuleId, Seq};
use join_memory::Candidates;
use row_delta::{Delta, Extra, Named, Row};
use rule_model::{Moment, Program};
use std::alloc::Global;

/// These rows come.
pub(super) fn coming(alloc: Global, rows: &[Row]) -> Result<Delta, NoMemory>
    ensures gone { IfOk result (λ delta. delta.gone ≡ []) }
    ensures come { IfOk result (λ delta. delta.come ≡ rows.now) }
{
    let mut come = Vec::with_capacity(alloc, rows.len())?;
    for row in rows {
        come.push(row.copy(alloc)?)?;
    }
    Ok(Delta {
        gone: Seq::from_vec(Vec::new(alloc)),
        come: Seq::from_vec(come),
    })
}

/// These candidates come, each named by a row of its own.
fn naming(alloc: Global, names: &[Named]) -> Result<Delta, NoMemory>
    ensures gone { IfOk result (λ delta. delta.gone ≡ []) }
    ensures come { IfOk result (λ delta. delta.come ≡ map row_naming names.now) }
{
    let mut come = Vec::with_capacity(alloc, names.len())?;
    for who in names {
        come.push(alone(alloc, *who)?)?;
    }
    Ok(Delta {
        gone: Seq::from_vec(Vec::new(alloc)),
        come: Seq::from_vec(come),
    })
}

/// The row that names a candidate alone.
fn alone(alloc: Global, who: Named) -> Result<Row, NoMemory>
    ensures { IfOk result (λ row. row ≡ row_naming who) }
{
    let mut facts = Vec::new(alloc);
    facts.push(who)?;
    Ok(Row {
        facts: Seq::from_vec(facts),
        values: Seq::from_vec(Vec::new(alloc)),
    })
}

impl Node {
    /// Takes the rows of the conditions before this one, the candidates and the extras of what is forgotten, in the order of their rows,
    /// into a node that keeps nothing, and the moment, and answers the rows that the condition makes then. What binds a fact has no
    /// extras. It costs what a step costs in which these rows and candidates come, and for each row the logarithm of the extras.
    pub fn load<F: Facts>(
        &mut self,
        alloc: Global,
        program: &Program,
        left: &[Row],
        right: &[Named],
        extras: &[Extra],
        moment: &Moment,
        facts: &F,
    ) -> Result<Delta, NoMemory>
        ensures condition { OnOk result (condition_of self.new ≡ condition_of self.old) }
        ensures laden { OnOk result ((world : Look) (s : Snapshot) (rows : Row → Bool)
            → NodeStands program.now self.old (F.map facts.now) empty_snapshot no_rows no_names → IsAt s moment.now
            → IsLoad program.now (condition_of self.old) (F.map facts.now) world s rows left.now right.now extras.now
            → Laden program.now self.new (F.map facts.now) world s rows (extra_for extras.now)) }
        ensures difference { IfOk result (λ delta. NodeStands program.now self.old (F.map facts.now) empty_snapshot no_rows no_names
            → IsDifference (node_rows program.now (F.map facts.now) self.old) (node_rows program.now (F.map facts.now) self.new) delta) }
    {
        match self {
            Node::Join(join) => {
                let left = coming(alloc, left)?;
                let right = naming(alloc, right)?;
                let delta = join.advance(alloc, &left, &right, facts)?;
                Ok(delta)
            }
            Node::Not(waiting) => {
                let floor = moment.floor(program, waiting.pattern().entry);
                let delta = waiting.load(alloc, program, left, right, extras, floor, facts)?;
                Ok(delta)
            }
            Node::Exists(tally) => {
                let delta = tally.load(alloc, &(), left, right, extras, facts)?;
                Ok(delta)
            }
            Node::Fold(fold) => {
                let FoldNode { accumulate, tally } = fold;
                let delta = tally.load(alloc, accumulate, left, right, extras, facts)?;
                Ok(delta)
            }
        }
    }

    /// What is counted or gathered beside each row before the condition beyond the candidates that are kept, where that is something, in
    /// the order of the rows, each under this rule and condition: what the condition counts of forgotten facts. The candidates are shared
    /// ones where some are given, and else its own. It costs for each row the tally of the candidates that pass.
    pub fn extras<F: Facts>(
        &self,
        alloc: Global,
        shared: Option<&Candidates>,
        rule: RuleId,
        condition: u8,
        facts: &F,
    ) -> Result<Vec<Extra>, NoMemory>
        ensures { IfOk result (λ extras. (p : Program) (s : Snapshot) (rows : Row → Bool) (forgotten : Named → Bool)
            → HaveDistinctTags s.facts → HasAllOf (F.map facts.now) s forgotten → NameHeld s rows → NodeStands p (lent_to (option_map (λ c. c.now) shared.entry) self.now) (F.map facts.now) s rows forgotten
            → AreExtrasBeside p (condition_of self.now) s rows forgotten rule condition extras.items) }
    {
        match self {
            Node::Join(_) => Ok(Vec::new(alloc)),
            Node::Not(waiting) => {
                let extras = waiting.extras(alloc, shared, rule, condition, facts)?;
                Ok(extras)
            }
            Node::Exists(tally) => {
                let extras = tally.extras(alloc, &(), shared, rule, condition, facts)?;
                Ok(extras)
            }
            Node::Fold(fold) => {
                let extras = fold
                    .tally
                    .extras(alloc, &fold.accumulate, shared, rule, condition, facts)?;
                Ok(extras)
            }
        }
    }
}
