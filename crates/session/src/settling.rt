ghost use Rattle.std.specs.Prelude.{◌≡◌, ◌<◌, ◌^◌, ◌&&◌, not, ℕ, filter_map, option_map, IfOk, OnOk, nat_eq};
ghost use Rattle.std.specs.List.{list_any};
ghost use Rattle.std.specs.FinMap as map;
ghost use Rattle.row_delta.specs.Rows.{has};
ghost use Rattle.rule_model.specs.declared.matched.Match.{Match};
ghost use Rattle.rule_model.specs.Matches.{has_match};
ghost use Rattle.rule_model.specs.Tuples.{name_of};
ghost use Rattle.rule_world.specs.Worlds.{World};
ghost use Rattle.retention.specs.Retentions.{has_listed_tag, is_tag_among};
ghost use Rattle.rete_net.specs.Dropped.{AreListed, rows_for};
ghost use Rattle.session_model.specs.Standing.{Awaits, Runs, Standing, StaysSound};

use crate::refreshing::take_all;
use crate::state::State;
use agenda::Agenda;
use fact_store::FactStore;
use fx_base::{Facts, NoMemory, RuleId, Tag};
use rete_net::RuleRows;
use row_delta::Named;
use session_model::{Memory, Setting};
use std::alloc::Global;
use std::collections::BTreeSet;

// The rule in a place.
fn rule_in(place: usize) -> RuleId
    ensures { place < 2 ^ 16 → result.0 ≡ place }
{
    RuleId(u16::try_from(place).unwrap_or(u16::MAX))
}

// The tags of a set.
fn tags_of(alloc: Global, set: &BTreeSet<u64, Global>) -> Result<Vec<u64>, NoMemory>
    ensures { IfOk result (λ tags. (tag : ℕ) → list_any (nat_eq tag) tags.items ≡ has_listed_tag set.now.keys tag) }
{
    Ok(set.iter().copied().collect(alloc)?)
}

// The names of the facts that have these tags.
fn names_at(alloc: Global, facts: &FactStore, tags: &[u64]) -> Result<Vec<Named>, NoMemory>
    ensures { IfOk result (λ names. names.items ≡ filter_map (λ tag. option_map name_of (map.get facts.now tag)) tags.now) }
{
    let mut names = Vec::with_capacity(alloc, tags.len())?;
    for tag in tags {
        if let Some(fact) = facts.fact(Tag(*tag)) {
            names.push(Named {
                id: fact.id,
                tag: fact.tag,
            })?;
        }
    }
    Ok(names)
}

// Drops the fired matches of these rows, of so many rules.
fn drop_fired(agenda: &mut Agenda, dropped: Vec<RuleRows>)
    ensures saliences { agenda.new.saliences ≡ agenda.old.saliences }
    ensures pending { agenda.new.pending ≡ agenda.old.pending }
    ensures fired { (rules : ℕ) → rules < 2 ^ 16 → AreListed dropped.items rules → (m : Match) → has_match agenda.new.fired m ≡ (has_match agenda.old.fired m && not (has (rows_for dropped.items m.rule.0) m.row)) }
{
    for answer in dropped {
        let RuleRows { place, rows } = answer;
        agenda.drop_fired(rule_in(place), rows.into_vec());
    }
}

impl State {
    /// Forgets what is past its life and named by no pending match: the events whose ends have come, and those past them which a match
    /// named that has stopped pending; `left` are the tags of these matches. Where nothing is old it costs what `Retention::past` says.
    pub(crate) fn settle(
        &mut self,
        alloc: Global,
        setting: &Setting,
        memory: &mut Memory,
        left: &[Tag],
    ) -> Result<(), NoMemory>
        requires runs { Runs setting.now }
        ensures stands { OnOk result ((w : World) → Awaits setting.now memory.old self.old (is_tag_among left.now) w → Standing setting.now memory.new self.new w) }
        ensures tags { OnOk result (self.new.next_tag ≡ self.old.next_tag) }
        ensures sound { OnOk result (StaysSound setting.now.program memory.old self.old memory.new self.new) }
    {
        let old = memory
            .retention
            .past(alloc, self.clock, left, &self.agenda)?;
        if old.is_empty() {
            return Ok(());
        }
        let tags = tags_of(alloc, &old)?;
        let names = names_at(alloc, &self.facts, &tags)?;
        let dropped = memory
            .net
            .forget(alloc, &setting.program, &names, &self.facts)?;
        drop_fired(&mut self.agenda, dropped);
        take_all(&mut self.facts, tags);
        Ok(())
    }
}
