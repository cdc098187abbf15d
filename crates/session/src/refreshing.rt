ghost use Rattle.std.specs.Prelude.{◌≡◌, ◌<◌, ◌^◌, ◌==◌, ◌||◌, ℕ, ℤ, Bool, List, filter_map, option_map, IfOk, OnOk};
ghost use Rattle.std.specs.List.{list_any};
ghost use Rattle.fact_store.specs.Held.{HeldFacts};
ghost use Rattle.fx_base.specs.Lists.{In};
ghost use Rattle.rete_net.specs.declared.changes.RuleChange.{RuleChange as RuleChangeData};
ghost use Rattle.rete_net.specs.Doors.{IsNetwork, rule_count};
ghost use Rattle.rete_net.specs.Nets.{AreBetween, NetStands, clean_rows};
ghost use Rattle.session_model.specs.Standing.{AreOfRules};
ghost use Rattle.retention.specs.Retentions.{is_tag_among};
ghost use Rattle.forgetting_laws.specs.Steps.{HasLeft};
ghost use Rattle.row_delta.specs.declared.row.Named.{Named as NamedData};
ghost use Rattle.row_delta.specs.declared.row.Row.{Row as RowData};
ghost use Rattle.rule_model.specs.declared.program.Program.{Program as ProgramData};
ghost use Rattle.rule_model.specs.declared.program.Rule.{Rule as RuleData};
ghost use Rattle.rule_model.specs.Lent.{lent};
ghost use Rattle.rule_world.specs.Programs.{IsRunnable};
ghost use Rattle.session_model.specs.Following.{Instant, LeadsOn, facts_at, instant_at};
ghost use Rattle.session_model.specs.Refreshed.{IsRefreshed};
ghost use Rattle.session_model.specs.Waiting.{fact_left_at};
ghost use Rattle.std.specs.FinMap as map;

use agenda::Agenda;
use fact_store::FactStore;
use fx_base::{Fact, Facts, NoMemory, Tag};
use rete_net::{Rete, RuleChange};
use row_delta::{Named, Row};
use rule_model::{Moment, Program};
use std::alloc::Global;

/// Adds the tags of the facts that are named.
pub(crate) fn add_names(tags: &mut Vec<Tag>, names: &[Named]) -> Result<(), NoMemory>
    ensures { OnOk result ((tag : ℕ) → is_tag_among tags.new.items tag ≡ (is_tag_among tags.old.items tag || list_any (λ (n : NamedData). tag == n.tag.0) names.now)) }
{
    for name in names {
        tags.push(name.tag)?;
    }
    Ok(())
}

// Adds the tags of the facts that rows name.
fn add_rows(tags: &mut Vec<Tag>, rows: &[Row]) -> Result<(), NoMemory>
    ensures { OnOk result ((tag : ℕ) → is_tag_among tags.new.items tag ≡ (is_tag_among tags.old.items tag || list_any (λ (row : RowData). list_any (λ (n : NamedData). tag == n.tag.0) row.facts) rows.now)) }
{
    for row in rows {
        add_names(tags, row.facts.as_slice())?;
    }
    Ok(())
}

/// Takes these changes of the rows of rules into the agenda, and answers the tags that the rows which go name: among them are those of
/// the matches that have stopped pending.
pub(crate) fn refresh(
    alloc: Global,
    agenda: &mut Agenda,
    changes: Vec<RuleChange>,
) -> Result<Vec<Tag>, NoMemory>
    ensures agenda { (p : ProgramData) (old new : RuleData → List RowData) → AreBetween p old new changes.items → OnOk result (IsRefreshed p.rules old new agenda.old agenda.new) }
    ensures left { IfOk result (λ left. HasLeft agenda.old agenda.new (is_tag_among left.items)) }
    ensures rules { (rules : ℕ) → ((c : RuleChangeData) → In c changes.items → c.rule.0 < rules) → AreOfRules rules agenda.old.pending → OnOk result (AreOfRules rules agenda.new.pending) }
{
    let mut left = Vec::new(alloc);
    for change in changes {
        let RuleChange { rule, delta } = change;
        add_rows(&mut left, delta.gone.as_slice())?;
        agenda.change(rule, delta)?;
    }
    Ok(left)
}

// Those of the facts that have these tags, in the order of these.
fn facts_at<'s>(
    alloc: Global,
    facts: &'s FactStore,
    tags: &[u64],
) -> Result<Vec<&'s Fact>, NoMemory>
    ensures { IfOk result (λ found. lent found.items ≡ filter_map (map.get facts.now) tags.now) }
{
    let mut found = Vec::with_capacity(alloc, tags.len())?;
    for tag in tags {
        if let Some(fact) = facts.fact(Tag(*tag)) {
            found.push(fact)?;
        }
    }
    Ok(found)
}

/// The network takes the facts of these tags that go, the fact that comes, if one does, and the moment, and the agenda what changes by
/// that. It answers the tags that the rows which go name. The facts have those that go and the one that comes.
pub(crate) fn follow(
    alloc: Global,
    program: &Program,
    net: &mut Rete,
    agenda: &mut Agenda,
    facts: &FactStore,
    gone: &[u64],
    come: Option<&Fact>,
    moment: &Moment,
) -> Result<Vec<Tag>, NoMemory>
    requires { IsRunnable program.now }
    ensures net { (before behind all : HeldFacts) (from : Instant) (forgotten : NamedData → Bool) → LeadsOn program.now before from behind (instant_at moment.now) all gone.now (option_map (λ f. f.now) come.entry) forgotten facts.now
        → NetStands program.now net.old (facts_at before from) forgotten → OnOk result (NetStands program.now net.new (facts_at behind (instant_at moment.now)) forgotten) }
    ensures agenda { (before behind all : HeldFacts) (from : Instant) (forgotten : NamedData → Bool) → LeadsOn program.now before from behind (instant_at moment.now) all gone.now (option_map (λ f. f.now) come.entry) forgotten facts.now
        → NetStands program.now net.old (facts_at before from) forgotten
        → OnOk result (IsRefreshed program.now.rules (clean_rows program.now (facts_at before from) forgotten) (clean_rows program.now (facts_at behind (instant_at moment.now)) forgotten) agenda.old agenda.new) }
    ensures left { IfOk result (λ left. HasLeft agenda.old agenda.new (is_tag_among left.items)) }
    ensures shape { (p : ProgramData) → IsNetwork p net.old → OnOk result (IsNetwork p net.new) }
    ensures rules { rule_count net.old < 2 ^ 16 → AreOfRules (rule_count net.old) agenda.old.pending → OnOk result (AreOfRules (rule_count net.old) agenda.new.pending) }
{
    let gone = facts_at(alloc, facts, gone)?;
    let changes = net.advance(alloc, program, gone.as_slice(), come, moment, facts)?;
    refresh(alloc, agenda, changes)
}

/// Takes out the fact of a tag, if one is held. Takes no memory.
pub(crate) fn take_fact(facts: &mut FactStore, tag: Tag)
    ensures { facts.new ≡ map.remove facts.old tag.0 }
{
    facts.take(tag);
}

/// Takes out the facts of these tags. Takes no memory.
pub(crate) fn take_all(facts: &mut FactStore, tags: Vec<u64>)
    ensures { (tag : ℕ) → map.get facts.new tag ≡ fact_left_at facts.old tags.items tag }
{
    for tag in tags {
        take_fact(facts, Tag(tag));
    }
}
