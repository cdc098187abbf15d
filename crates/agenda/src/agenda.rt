ghost use Rattle.std.specs.Prelude.{◌≡◌, ℕ, ◌==◌, ◌&&◌, ◌||◌, not, List, [], ◌∷◌, length, ◌<◌, ◌+◌, ℤ, pos, slice_get, option_map, IfOk, OnOk, IsSome, ◌↔◌, Some};
ghost use Rattle.std.specs.Ordering.{eq_by_cmp};
ghost use Rattle.row_delta.specs.Rows.{has, row_cmp};
ghost use Rattle.rule_model.specs.Matches.{has_match, fire_cmp, match_cmp};
ghost use Rattle.rule_model.specs.First.{first};
ghost use Rattle.agenda.specs.Agendas.{IsChanged, names_id, names_tag};
ghost use Rattle.rule_model.specs.declared.matched.Match.{Match};
ghost use Rattle.agenda.specs.declared.ranked.Ranked.{Ranked};
ghost use Rattle.std.specs.List.{list_any};
ghost use Rattle.std.specs.List.Sorted.{IsStrictlySortedBy};

use crate::naming::{lower_all, put_ranked, take_ranked, times_of};
use crate::ranked::Ranked;
use fx_base::{Copies, FactId, NoMemory, RuleId, Seq, Tag};
use row_delta::{Delta, Row};
use rule_model::Match;
use std::alloc::Global;
use std::collections::{BTreeSet, HashMap};
use std::marker::Model;

/// The pending matches, in the order in which they fire, and those that were fired.
#[derive(Drop)]
pub struct Agenda {
    saliences: Seq<i64>,
    pending: BTreeSet<Ranked, Global>,
    fired: BTreeSet<Match, Global>,
    /// How often the pending matches name each tag.
    named: HashMap<u64, u64>,
}

impl Model for Agenda {
    ghost use Rattle.agenda.specs.Agendas.{Marks, matches};
    ghost use Rattle.agenda.specs.Namings.{IsSoundAgenda};

    ghost Value = { Marks };

    ghost view = { λ a. record { saliences = a.saliences; pending = matches a.pending.keys; fired = a.fired.keys } };

    ghost invariant = { λ a. IsSoundAgenda a.saliences a.pending.keys a.named.entries };
}

impl Agenda {
    /// Nothing is pending and nothing was fired.
    pub fn new(alloc: Global, saliences: &[i64]) -> Result<Agenda, NoMemory>
        ensures { IfOk result (λ a. a ≡ record { saliences = saliences.now; pending = []; fired = [] }) }
    {
        let mut kept = Vec::new(alloc);
        kept.extend_from_slice(saliences)?;
        Ok(Agenda {
            saliences: Seq::from_vec(kept),
            pending: BTreeSet::new(alloc),
            fired: BTreeSet::new(alloc),
            named: HashMap::new(alloc),
        })
    }

    /// The match that fires first.
    pub fn top(&self) -> Option<&Match>
        ensures { option_map (λ m. m.now) result ≡ first (fire_cmp self.now.saliences) self.now.pending }
    {
        // (the order of its members is known from this call)
        let _n = self.pending.len();
        match self.pending.first() {
            Some(ranked) => Some(&ranked.matched),
            None => None,
        }
    }

    /// How many matches are pending. Each stands once, in the order in which they fire. Takes no memory.
    pub fn pending_count(&self) -> usize
        ensures count { result ≡ length self.now.pending }
        ensures order { IsStrictlySortedBy (fire_cmp self.now.saliences) self.now.pending }
    {
        self.pending.len()
    }

    fn take_row(&mut self, rule: RuleId, row: Row)
        ensures saliences { self.new.saliences ≡ self.old.saliences }
        ensures pending { (m : Match) → has_match self.new.pending m ≡ (has_match self.old.pending m && not (rule.0 == m.rule.0 && eq_by_cmp row_cmp row m.row)) }
        ensures fired { (m : Match) → has_match self.new.fired m ≡ (has_match self.old.fired m && not (rule.0 == m.rule.0 && eq_by_cmp row_cmp row m.row)) }
    {
        let ranked = Ranked::of(self.saliences.as_slice(), rule, row);
        take_ranked(&mut self.pending, &mut self.named, &ranked);
        self.fired.remove(&ranked.matched);
    }

    fn put_row(&mut self, rule: RuleId, row: Row) -> Result<(), NoMemory>
        ensures saliences { OnOk result (self.new.saliences ≡ self.old.saliences) }
        ensures pending { OnOk result ((m : Match) → has_match self.new.pending m ≡ (has_match self.old.pending m || (rule.0 == m.rule.0 && eq_by_cmp row_cmp row m.row))) }
        ensures fired { OnOk result (self.new.fired ≡ self.old.fired) }
    {
        let ranked = Ranked::of(self.saliences.as_slice(), rule, row);
        put_ranked(&mut self.pending, &mut self.named, ranked)
    }

    fn take_rows(&mut self, rule: RuleId, rows: Seq<Row>)
        ensures saliences { self.new.saliences ≡ self.old.saliences }
        ensures pending { (m : Match) → has_match self.new.pending m ≡ (has_match self.old.pending m && not (rule.0 == m.rule.0 && has rows m.row)) }
        ensures fired { (m : Match) → has_match self.new.fired m ≡ (has_match self.old.fired m && not (rule.0 == m.rule.0 && has rows m.row)) }
    {
        for row in rows.into_vec() {
            self.take_row(rule, row);
        }
    }

    fn put_rows(&mut self, rule: RuleId, rows: Seq<Row>) -> Result<(), NoMemory>
        ensures saliences { OnOk result (self.new.saliences ≡ self.old.saliences) }
        ensures pending { OnOk result ((m : Match) → has_match self.new.pending m ≡ (has_match self.old.pending m || (rule.0 == m.rule.0 && has rows m.row))) }
        ensures fired { OnOk result (self.new.fired ≡ self.old.fired) }
    {
        for row in rows.into_vec() {
            self.put_row(rule, row)?;
        }
        Ok(())
    }

    /// Takes the rows that went out of both, and adds those that came to the pending ones. It costs the logarithm of the matches for
    /// each row, and a hash for each fact of a pending one. `NoMemory` is also told where a tag's count is full; nothing is promised of
    /// the matches then.
    pub fn change(&mut self, rule: RuleId, delta: Delta) -> Result<(), NoMemory>
        ensures { OnOk result (IsChanged rule.0 delta self.old self.new) }
    {
        let Delta { gone, come } = delta;
        self.take_rows(rule, gone);
        self.put_rows(rule, come)
    }

    /// Marks the match that fires first as fired, and answers it. Where memory is refused, nothing is promised of the matches.
    pub fn fire_top(&mut self, alloc: Global) -> Result<Match, NoMemory>
        requires { 0 < length self.old.pending }
        ensures saliences { OnOk result (self.new.saliences ≡ self.old.saliences) }
        ensures count { OnOk result (length self.new.pending + 1 ≡ length self.old.pending) }
        ensures top { IfOk result (λ fired. Some fired ≡ first (fire_cmp self.old.saliences) self.old.pending) }
        ensures pending { IfOk result (λ fired. (m : Match) → has_match self.new.pending m ≡ (has_match self.old.pending m && not (eq_by_cmp match_cmp fired m))) }
        ensures fired { IfOk result (λ fired. (m : Match) → has_match self.new.fired m ≡ (has_match self.old.fired m || eq_by_cmp match_cmp fired m)) }
    {
        // (the order of its members is known from this call)
        let _n = self.pending.len();
        match self.pending.pop_first() {
            Some(ranked) => {
                let Ranked { matched, .. } = ranked;
                lower_all(&mut self.named, matched.row.facts.as_slice());
                let row = matched.row.copy(alloc)?;
                let kept = Match {
                    rule: matched.rule,
                    row,
                };
                self.fired.insert(kept)?;
                Ok(matched)
            }
            None => Err(NoMemory),
        }
    }

    /// The fired matches, by rule and row. It costs a copy of each.
    pub fn fired(&self, alloc: Global) -> Result<Vec<Match>, NoMemory>
        ensures matches { IfOk result (λ ms. ms.items ≡ self.now.fired) }
        ensures order { IfOk result (λ ms. IsStrictlySortedBy match_cmp ms.items) }
    {
        let mut matches = Vec::with_capacity(alloc, self.fired.len())?;
        for matched in &self.fired {
            matches.push(Match {
                rule: matched.rule,
                row: matched.row.copy(alloc)?,
            })?;
        }
        Ok(matches)
    }

    /// Marks the match of a rule with this row as fired, whether it was pending or not. It costs the logarithm of the matches. Where
    /// memory is refused, nothing is promised of the matches.
    pub fn mark(&mut self, rule: RuleId, row: Row) -> Result<(), NoMemory>
        ensures saliences { OnOk result (self.new.saliences ≡ self.old.saliences) }
        ensures pending { OnOk result ((m : Match) → has_match self.new.pending m ≡ (has_match self.old.pending m && not (rule.0 == m.rule.0 && eq_by_cmp row_cmp row m.row))) }
        ensures fired { OnOk result ((m : Match) → has_match self.new.fired m ≡ (has_match self.old.fired m || (rule.0 == m.rule.0 && eq_by_cmp row_cmp row m.row))) }
    {
        let ranked = Ranked::of(self.saliences.as_slice(), rule, row);
        take_ranked(&mut self.pending, &mut self.named, &ranked);
        let Ranked { matched, .. } = ranked;
        self.fired.insert(matched)?;
        Ok(())
    }

    /// Drops the fired matches of a rule with these rows; pending ones stay. It costs the logarithm of the fired matches for each
    /// row. Takes no memory.
    pub fn drop_fired(&mut self, rule: RuleId, rows: Vec<Row>)
        ensures saliences { self.new.saliences ≡ self.old.saliences }
        ensures pending { self.new.pending ≡ self.old.pending }
        ensures fired { (m : Match) → has_match self.new.fired m ≡ (has_match self.old.fired m && not (rule.0 == m.rule.0 && has rows.items m.row)) }
    {
        drop_rows(&mut self.fired, rule, rows);
    }

    /// Whether a pending match names this version of a fact. It costs a hash. Takes no memory.
    pub fn names_tag(&self, tag: Tag) -> bool
        ensures { result ≡ list_any (names_tag tag.0) self.now.pending }
    {
        times_of(&self.named, tag.0) > 0
    }

    /// Whether a pending match names the id. It walks over the pending matches.
    pub fn names(&self, id: FactId) -> bool
        ensures { result ≡ list_any (names_id id.0) self.now.pending }
    {
        some_names(&self.pending, id)
    }
}

fn drop_rows(fired: &mut BTreeSet<Match, Global>, rule: RuleId, rows: Vec<Row>)
    ensures { (m : Match) → has_match fired.new.keys m ≡ (has_match fired.old.keys m && not (rule.0 == m.rule.0 && has rows.items m.row)) }
{
    for row in rows {
        fired.remove(&Match { rule, row });
    }
}

fn does_name(m: &Match, id: FactId) -> bool
    ensures { result ≡ names_id id.0 m.now }
{
    m.row.facts.as_slice().iter().any(|n| id == n.id)
}

fn some_names(pending: &BTreeSet<Ranked, Global>, id: FactId) -> bool
    ensures { result ≡ list_any (λ (k : Ranked). names_id id.0 k.matched) pending.now.keys }
{
    pending.iter().any(|k| does_name(&k.matched, id))
}
