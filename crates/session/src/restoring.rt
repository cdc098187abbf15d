//! Parts of a session that are made from what an image keeps.
ghost use Rattle.std.specs.Prelude.{◌≡◌, ◌&&◌, ◌||◌, ◌==◌, ℕ, None, false, true, IfOk, OnOk, IsErrOf};
ghost use Rattle.std.specs.FinMap as map;
ghost use Rattle.fx_base.specs.Lists.{In};
ghost use Rattle.row_delta.specs.Rows.{has};
ghost use Rattle.checkpoint.specs.declared.image.FiredMatch.{FiredMatch as FiredMatchData};
ghost use Rattle.rule_model.specs.declared.matched.Match.{Match as MatchData};
ghost use Rattle.rule_model.specs.Matches.{has_match, saliences as saliences_in};
ghost use Rattle.image_laws.specs.Images.{match_fired};
ghost use Rattle.retention.specs.Retentions.{lingers};
ghost use Rattle.session_model.specs.Restoring.{stored, AreHeld, HasTimes, AreStorable, comes_by, NoneGo, AreMarked, AreMarking};
ghost use Rattle.session_model.specs.Standing.{Runs};

use crate::moving::{hold, life_end, put_fact, put_timer};
use crate::session::saliences_of;
use agenda::Agenda;
use checkpoint::FiredMatch;
use due_queue::DueQueue;
use engine::ResumeFault;
use fact_store::FactStore;
use fx_base::{Copies, Fact, NoMemory, RuleId};
use rete_net::RuleChange;
use retention::Retention;
use row_delta::Row;
use rule_model::{Match, Rule};
use session_model::Setting;
use std::alloc::Global;
use std::collections::BTreeSet;

/// Facts by their tags, the moments at which they expire, and those at which their lives end.
#[derive(Drop)]
pub(crate) struct Restored {
    pub(crate) facts: FactStore,
    pub(crate) expiries: DueQueue,
    pub(crate) retention: Retention,
}

impl Restored {
    // No facts.
    fn new(alloc: Global) -> Restored
        ensures facts { result.facts ≡ map.empty }
        ensures expiries { result.expiries ≡ map.empty }
        ensures due { result.retention.due ≡ map.empty }
        ensures lingering { (tag : ℕ) → lingers result.retention tag ≡ false }
    {
        Restored {
            facts: FactStore::new(alloc),
            expiries: DueQueue::new(alloc),
            retention: Retention::new(alloc),
        }
    }

    // Takes in a fact, whose tag is new.
    fn put(&mut self, setting: &Setting, fact: Fact) -> Result<(), NoMemory>
        requires runs { Runs setting.now }
        requires times { HasTimes fact }
        requires held { AreHeld setting.now.program setting.now.lives self.old.facts self.old.expiries self.old.retention }
        requires fresh { map.get self.old.facts fact.tag.0 ≡ None }
        ensures facts { OnOk result (self.new.facts ≡ map.insert self.old.facts fact.tag.0 fact) }
        ensures held { OnOk result (AreHeld setting.now.program setting.now.lives self.new.facts self.new.expiries self.new.retention) }
    {
        put_timer(&mut self.expiries, &setting.program, &fact)?;
        hold(
            &mut self.retention,
            fact.tag,
            life_end(&setting.lives, &fact),
        )?;
        put_fact(&mut self.facts, fact)
    }

    /// These facts.
    pub(crate) fn of(
        alloc: Global,
        setting: &Setting,
        facts: Vec<Fact>,
    ) -> Result<Restored, NoMemory>
        requires runs { Runs setting.now }
        requires storable { AreStorable facts.items }
        ensures facts { IfOk result (λ r. r.facts ≡ stored facts.items) }
        ensures held { IfOk result (λ r. AreHeld setting.now.program setting.now.lives r.facts r.expiries r.retention) }
    {
        let mut restored = Restored::new(alloc);
        for fact in facts {
            restored.put(setting, fact)?;
        }
        Ok(restored)
    }
}

// Adds matches of a rule with copies of these rows.
fn add_matches(
    alloc: Global,
    matches: &mut BTreeSet<Match, Global>,
    rule: RuleId,
    rows: &[Row],
) -> Result<(), NoMemory>
    ensures { OnOk result ((m : MatchData) → has_match matches.new.keys m ≡ (has_match matches.old.keys m || (rule.0 == m.rule.0 && has rows.now m.row))) }
{
    for row in rows {
        let copy = row.copy(alloc)?;
        matches.insert(Match { rule, row: copy })?;
    }
    Ok(())
}

// The matches of the rows that come by these changes.
fn matches_of(alloc: Global, changes: &[RuleChange]) -> Result<BTreeSet<Match, Global>, NoMemory>
    ensures { IfOk result (λ matches. (m : MatchData) → has_match matches.keys m ≡ comes_by changes.now m) }
{
    let mut matches = BTreeSet::new(alloc);
    for change in changes {
        add_matches(
            alloc,
            &mut matches,
            change.rule,
            change.delta.come.as_slice(),
        )?;
    }
    Ok(matches)
}

// The rows that come by these changes are pending too.
fn put_rows(agenda: &mut Agenda, changes: Vec<RuleChange>) -> Result<(), NoMemory>
    ensures saliences { OnOk result (agenda.new.saliences ≡ agenda.old.saliences) }
    ensures pending { NoneGo changes.items → OnOk result ((m : MatchData) → has_match agenda.new.pending m ≡ (has_match agenda.old.pending m || comes_by changes.items m)) }
    ensures fired { NoneGo changes.items → OnOk result ((m : MatchData) → has_match agenda.new.fired m ≡ has_match agenda.old.fired m) }
{
    for change in changes {
        let RuleChange { rule, delta } = change;
        agenda.change(rule, delta)?;
    }
    Ok(())
}

// Marks the matches that were fired; `Unfit` where one of them is not among those that came.
fn mark_fired(
    alloc: Global,
    agenda: &mut Agenda,
    came: &BTreeSet<Match, Global>,
    fired: &[FiredMatch],
) -> Result<(), ResumeFault>
    ensures marked { OnOk result (AreMarking came.now.keys agenda.old agenda.new fired.now) }
    ensures unfit { IsErrOf result ResumeFault.Unfit → (m : FiredMatchData) × In m fired.now × (has_match came.now.keys (match_fired m) ≡ false) }
{
    for matched in fired {
        let copy = matched.row.copy(alloc)?;
        let wanted = Match {
            rule: matched.rule,
            row: copy,
        };
        if !came.contains(&wanted) {
            return Err(ResumeFault::Unfit);
        }
        agenda.mark(wanted.rule, wanted.row)?;
    }
    Ok(())
}

/// The agenda in which the rows that come by these changes are pending, but for the fired matches, which are marked; `Unfit` where one of
/// these is none of the rows. It costs a copy of each row, and the logarithm of their number.
pub(crate) fn agenda_of(
    alloc: Global,
    rules: &[Rule],
    changes: Vec<RuleChange>,
    fired: &[FiredMatch],
) -> Result<Agenda, ResumeFault>
    ensures saliences { IfOk result (λ a. a.saliences ≡ saliences_in rules.now) }
    ensures marked { NoneGo changes.items → IfOk result (AreMarked (comes_by changes.items) fired.now) }
    ensures came { IfOk result (λ _. (m : FiredMatchData) → In m fired.now → comes_by changes.items (match_fired m) ≡ true) }
    ensures unfit { IsErrOf result ResumeFault.Unfit → (m : FiredMatchData) × In m fired.now × (comes_by changes.items (match_fired m) ≡ false) }
{
    let came = matches_of(alloc, changes.as_slice())?;
    let saliences = saliences_of(alloc, rules)?;
    let mut agenda = Agenda::new(alloc, &saliences)?;
    put_rows(&mut agenda, changes)?;
    mark_fired(alloc, &mut agenda, &came, fired)?;
    Ok(agenda)
}
