ghost use Rattle.std.specs.Prelude.{◌≡◌, ◌+◌, ◌<◌, ◌≤◌, ◌^◌, ◌∷◌, ◌++◌, [], true, length, slice_get, filter_map, option_map, Some, IfOk, OnOk, IfSome, List};
ghost use Rattle.std.specs.List.{list_all};
ghost use Rattle.rule_model.specs.declared.matched.Match.{Match as MatchData};
ghost use Rattle.rule_model.specs.Matches.{fire_cmp};
ghost use Rattle.rule_model.specs.First.{first};
ghost use Rattle.rule_world.specs.Programs.{has_few_actions, IsRunnable};
ghost use Rattle.rule_world.specs.Worlds.{World, marked};
ghost use Rattle.engine.specs.Known.{is_known};
ghost use Rattle.session_model.specs.Gives.{cells, conditions_of, actions_of, does_all};
ghost use Rattle.session_model.specs.Leading.{AllFit, AllWantKnown, StayKnown};
ghost use Rattle.session_model.specs.Standing.{IsSound, Runs, Standing, StaysSound};
ghost use Rattle.session_model.specs.Places.{planned_for, planned, seen_at, told};

use crate::copying::copy_of;
use crate::refreshing::add_names;
use crate::state::State;
use crate::steps::Plan;
use action_eval::{EvalFault, planned_step};
use engine::{Cell, Detail, OutLine};
use fact_store::FactStore;
use fx_base::{Copies, Fact, Facts, NoMemory, Seq};
use row_delta::{Named, Row};
use rule_model::{Action, Condition, Match, Program, Rule, Step};
use rule_world::Code;
use session_model::{Memory, Setting};
use std::alloc::Global;

/// A firing that is planned: its line, and what its actions are to do.
#[derive(Drop)]
pub(crate) struct Firing {
    pub(crate) line: OutLine,
    pub(crate) plan: Plan,
}

// What an action is to do for a row.
fn plan_action(
    alloc: Global,
    action: &Action,
    row: &Row,
    facts: &FactStore,
) -> Result<Result<Step, Code>, NoMemory>
    ensures { IfOk result (λ wanted. wanted ≡ planned_for facts.now row.now action.now) }
{
    match planned_step(alloc, action, row, facts) {
        Ok(step) => Ok(Ok(step)),
        Err(EvalFault::Overflow) => Ok(Err(Code::Overflow)),
        Err(EvalFault::NoMemory) => Err(NoMemory),
    }
}

fn plan_actions(
    alloc: Global,
    actions: &[Action],
    row: &Row,
    facts: &FactStore,
) -> Result<Plan, NoMemory>
    ensures { IfOk result (λ plan. plan.items ≡ planned facts.now row.now actions.now) }
{
    let mut plan = Vec::with_capacity(alloc, actions.len())?;
    for action in actions {
        plan.push(plan_action(alloc, action, row, facts)?)?;
    }
    Ok(plan)
}

// The actions of the rule of a match.
fn actions_for<'r>(rules: &'r [Rule], fired: &Match) -> &'r [Action]
    ensures actions { result.now ≡ actions_of (slice_get rules.now fired.now.rule.0) }
    ensures few { list_all has_few_actions rules.now ≡ true → length result.now ≤ 16 }
{
    match rules.get(fired.rule.0 as usize) {
        Some(rule) => rule.actions.as_slice(),
        None => &[],
    }
}

// The conditions of the rule of a match.
fn conditions_for<'r>(rules: &'r [Rule], fired: &Match) -> &'r [Condition]
    ensures { result.now ≡ conditions_of (slice_get rules.now fired.now.rule.0) }
{
    match rules.get(fired.rule.0 as usize) {
        Some(rule) => rule.conditions.as_slice(),
        None => &[],
    }
}

fn cells_of(alloc: Global, conditions: &[Condition], row: &Row) -> Result<Vec<Cell>, NoMemory>
    ensures { IfOk result (λ found. found.items ≡ cells conditions.now row.now.facts row.now.values) }
{
    let mut found = Vec::with_capacity(alloc, conditions.len())?;
    let mut facts = row.facts.as_slice();
    let mut values = row.values.as_slice();
    for condition in conditions {
        match condition {
            Condition::Plain(_) => {
                if let Some((named, rest)) = facts.split_first() {
                    found.push(Cell::Fact(named.id))?;
                    facts = rest;
                }
            }
            Condition::Negated(_) | Condition::Existing(_) => {}
            Condition::Folded(_) => {
                if let Some((value, rest)) = values.split_first() {
                    found.push(Cell::Value(*value))?;
                    values = rest;
                }
            }
        }
    }
    Ok(found)
}

// Copies of the facts that are named, in their order.
fn seen_facts(alloc: Global, names: &[Named], facts: &FactStore) -> Result<Vec<Fact>, NoMemory>
    ensures { IfOk result (λ found. found.items ≡ filter_map (seen_at facts.now) names.now) }
{
    let mut found = Vec::with_capacity(alloc, names.len())?;
    for named in names {
        if let Some(fact) = facts.fact(named.tag) {
            found.push(copy_of(alloc, fact)?)?;
        }
    }
    Ok(found)
}

impl State {
    // The line of a match that fires, with the facts as they are now. In brief no fact is copied.
    fn line_of(&self, alloc: Global, setting: &Setting, fired: &Match) -> Result<OutLine, NoMemory>
        ensures { IfOk result (λ line. line ≡ told setting.now self.now fired.now) }
    {
        let row = &fired.row;
        match setting.detail {
            Detail::Brief => {
                let conditions = conditions_for(setting.program.rules.as_slice(), fired);
                Ok(OutLine::Fire {
                    rule: fired.rule,
                    cells: Seq::from_vec(cells_of(alloc, conditions, row)?),
                })
            }
            Detail::Full => Ok(OutLine::FiredFor {
                rule: fired.rule,
                clock: self.clock,
                facts: Seq::from_vec(seen_facts(alloc, row.facts.as_slice(), &self.facts)?),
                values: row.values.copy(alloc)?,
            }),
        }
    }

    /// The firing of the match that fires first, with the values that the facts have now; `None` exactly where nothing is pending.
    pub(crate) fn plan(&self, alloc: Global, setting: &Setting) -> Result<Option<Firing>, NoMemory>
        ensures line { IfOk result (λ firing. option_map (λ f. f.line) firing ≡ option_map (told setting.now self.now)
            (first (fire_cmp self.now.agenda.saliences) self.now.agenda.pending)) }
        ensures plan { IfOk result (λ firing. option_map (λ f. f.plan.items) firing ≡ option_map (λ (m : MatchData). planned self.now.facts m.row (actions_of (slice_get setting.now.program.rules m.rule.0)))
            (first (fire_cmp self.now.agenda.saliences) self.now.agenda.pending)) }
        ensures few { IsRunnable setting.now.program → IfOk result (λ firing. IfSome firing (λ f. length f.plan.items ≤ 16)) }
        ensures pending { IfOk result (λ firing. IfSome firing (λ _. 0 < length self.now.agenda.pending)) }
    {
        match self.top() {
            Some(top) => {
                let line = self.line_of(alloc, setting, top)?;
                let actions = actions_for(setting.program.rules.as_slice(), top);
                let plan = plan_actions(alloc, actions, &top.row, &self.facts)?;
                Ok(Some(Firing { line, plan }))
            }
            None => Ok(None),
        }
    }

    /// Marks the match that fires first, adds the line of the firing, and does what is planned.
    pub(crate) fn fire(
        &mut self,
        alloc: Global,
        setting: &Setting,
        memory: &mut Memory,
        firing: Firing,
        lines: &mut Vec<OutLine>,
    ) -> Result<(), NoMemory>
        requires runs { Runs setting.now }
        requires low { self.old.next_tag + length firing.plan.items ≤ 2 ^ 63 }
        requires pending { 0 < length self.old.agenda.pending }
        ensures stands { OnOk result ((w : World) (m : MatchData) → Standing setting.now memory.old self.old w → Some m ≡ first (fire_cmp self.old.agenda.saliences) self.old.agenda.pending
            → AllFit setting.now.program w firing.plan.items → Standing setting.now memory.new self.new (does_all setting.now.detail setting.now.program (marked w m) firing.plan.items).1) }
        ensures lines { OnOk result ((w : World) (m : MatchData) → Standing setting.now memory.old self.old w → Some m ≡ first (fire_cmp self.old.agenda.saliences) self.old.agenda.pending
            → AllFit setting.now.program w firing.plan.items
            → lines.new.items ≡ lines.old.items ++ firing.line ∷ [] ++ (does_all setting.now.detail setting.now.program (marked w m) firing.plan.items).0) }
        ensures tags { OnOk result (self.new.next_tag ≤ self.old.next_tag + length firing.plan.items) }
        ensures sound { AllWantKnown setting.now.program firing.plan.items → OnOk result (StaysSound setting.now.program memory.old self.old memory.new self.new) }
        ensures known { is_known setting.now.program firing.line ≡ true → AllWantKnown setting.now.program firing.plan.items
            → OnOk result (StayKnown setting.now.program lines.old.items lines.new.items) }
    {
        let Firing { line, plan } = firing;
        lines.push(line)?;
        self.mark(alloc, setting, memory)?;
        self.apply_all(alloc, setting, memory, plan, lines)
    }

    // Marks the match that fires first, and forgets what it alone had kept.
    fn mark(
        &mut self,
        alloc: Global,
        setting: &Setting,
        memory: &mut Memory,
    ) -> Result<(), NoMemory>
        requires runs { Runs setting.now }
        requires pending { 0 < length self.old.agenda.pending }
        ensures stands { OnOk result ((w : World) (m : MatchData) → Standing setting.now memory.old self.old w → Some m ≡ first (fire_cmp self.old.agenda.saliences) self.old.agenda.pending
            → Standing setting.now memory.new self.new (marked w m)) }
        ensures tags { OnOk result (self.new.next_tag ≡ self.old.next_tag) }
        ensures sound { OnOk result (StaysSound setting.now.program memory.old self.old memory.new self.new) }
    {
        let fired = self.agenda.fire_top(alloc)?;
        let mut left = Vec::new(alloc);
        add_names(&mut left, fired.row.facts.as_slice())?;
        self.settle(alloc, setting, memory, left.as_slice())
    }
}
