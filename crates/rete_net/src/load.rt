ghost use Rattle.std.specs.Prelude.{◌≡◌, ◌<◌, ◌^◌, ℕ, Bool, true, false, length, IfOk, OnOk, IsErrOf};
ghost use Rattle.std.specs.List.Sorted.{IsStrictlySortedBy};
ghost use Rattle.fx_base.specs.Lists.{In};
ghost use Rattle.row_delta.specs.declared.extra.Extra.{Extra as ExtraData};
ghost use Rattle.row_delta.specs.declared.row.Named.{Named as NamedData};
ghost use Rattle.rule_model.specs.Lent.{lent};
ghost use Rattle.rule_model.specs.Snapshots.{Snapshot};
ghost use Rattle.rule_world.specs.Programs.{IsRunnable};
ghost use Rattle.laden_rows.specs.Extras.{extra_cmp};
ghost use Rattle.laden_rows.specs.Laden.{AreOwners};
ghost use Rattle.candidate_source.specs.Sources.{source_at, AreApart, AreLaidAs};
ghost use Rattle.rete_net.specs.declared.changes.RuleChange.{RuleChange as RuleChangeData};
ghost use Rattle.rete_net.specs.declared.load.LoadFault.TheVariants.{NoMemory as OutOfMemory};
ghost use Rattle.rete_net.specs.Doors.{IsNetwork};
ghost use Rattle.rete_net.specs.Fans.{AreFans, IsLaidAs, shown_nodes};
ghost use Rattle.rete_net.specs.Loading.{IsLoadable, IsThere, AreLadenRows, IsBehind};
ghost use Rattle.rete_net.specs.Loads.{AreLoaded, IsStuck};
ghost use Rattle.rete_net.specs.Nets.{NetStands};
ghost use Rattle.rete_net.specs.Schedules.{AreScheduled};
ghost use Rattle.rete_net.specs.Sources.{AreSources};
ghost use Rattle.rete_net.specs.Steps.{empty_row_comes};
ghost use Rattle.rete_net.specs.Walks.{IsReplaced, IsWired};

use crate::answered::Answered;
use crate::build::{empty_row_comes, no_change};
use crate::changes::{RuleChange, changes_of};
use crate::loading::Given;
use crate::net::Rete;
use crate::pieces::{by_type, extras_of, of_type};
use crate::steps::put_delta;
use fx_base::{Fact, Facts, NoMemory};
use row_delta::{Delta, Extra};
use rule_model::{Moment, Program};
use std::alloc::{AllocError, Global};
use std::collections::BTreeSet;

/// Why no network was loaded.
#[derive(Clone, Copy, Debug, PartialEq, Eq)]
pub enum LoadFault {
    /// The row of an extra is none of the conditions before its own.
    NoRow,
    /// Memory was refused.
    NoMemory,
}

impl From<NoMemory> for LoadFault {
    ghost from_gives = { λ _ fault. fault ≡ OutOfMemory };

    fn from(_: NoMemory) -> Self {
        LoadFault::NoMemory
    }
}

impl From<AllocError> for LoadFault {
    ghost from_gives = { λ _ fault. fault ≡ OutOfMemory };

    fn from(_: AllocError) -> Self {
        LoadFault::NoMemory
    }
}

impl Rete {
    /// The network of a program over these facts, in the order of their tags, at a moment, whose conditions count and gather beyond the
    /// facts what the extras say, which are ordered by rule, condition and row; and of the rules that have rows then, in their order, these
    /// rows as they come. It stands for every snapshot of which these are the kept facts and the extras. `NoRow`: exactly where the row of
    /// an extra is none of the conditions before its own. Each fact is asked of the nodes of its type, of those that take and keep candidates
    /// alike once, and each node costs what a step costs in which its rows and candidates come, and for each row the logarithm of its extras.
    pub fn load<F: Facts>(
        alloc: Global,
        program: &Program,
        kept: &[&Fact],
        extras: &[Extra],
        moment: &Moment,
        facts: &F,
    ) -> Result<(Rete, Vec<RuleChange>), LoadFault>
        ensures net { IsRunnable program.now → IfOk result (λ loaded. IsNetwork program.now loaded.0) }
        ensures rules { length program.now.rules < 2 ^ 16 → IfOk result (λ loaded. (c : RuleChangeData) → In c loaded.1.items → c.rule.0 < length program.now.rules) }
        ensures rows { IfOk result (λ loaded. (t : Snapshot) (owners : ℕ → ℕ → ℕ) → IsLoadable program.now t (lent kept.now) extras.now moment.now (F.map facts.now) → AreOwners program.now owners
            → AreLadenRows program.now t extras.now owners loaded.1.items) }
        ensures stands { IfOk result (λ loaded. (s t : Snapshot) (forgotten : NamedData → Bool) → IsLoadable program.now t (lent kept.now) extras.now moment.now (F.map facts.now)
            → IsBehind program.now s t forgotten extras.now (F.map facts.now) → NetStands program.now loaded.0 s forgotten) }
        ensures all_there { OnOk result ((t : Snapshot) (owners : ℕ → ℕ → ℕ) → IsLoadable program.now t (lent kept.now) extras.now moment.now (F.map facts.now) → AreOwners program.now owners
            → (e : ExtraData) → In e extras.now → IsThere program.now t extras.now owners e true) }
        ensures no_row { IsErrOf result LoadFault.NoRow → (t : Snapshot) (owners : ℕ → ℕ → ℕ) → IsLoadable program.now t (lent kept.now) extras.now moment.now (F.map facts.now) → AreOwners program.now owners
            → (e : ExtraData) × In e extras.now × IsThere program.now t extras.now owners e false }
    {
        let mut net = Rete::of_rules(alloc, program)?;
        let answered = net.load_nodes(alloc, program, kept, extras, moment, facts)?;
        net.quiet_until = net.schedule.first();
        let changes = changes_of(alloc, &answered, &net.ends)?;
        Ok((net, changes))
    }

    // Loads the sources, and then nodes that keep nothing, each with the rows that its parent answered, and answers what they answer.
    fn load_nodes<'g, F: Facts>(
        &mut self,
        alloc: Global,
        program: &Program,
        kept: &'g [&'g Fact],
        extras: &'g [Extra],
        moment: &'g Moment<'g>,
        facts: &F,
    ) -> Result<Answered<Delta>, LoadFault>
        ensures ends { OnOk result (self.new.ends ≡ self.old.ends) }
        ensures owners { OnOk result (self.new.owners ≡ self.old.owners) }
        ensures index { OnOk result (self.new.index ≡ self.old.index) }
        ensures replaced { OnOk result (IsReplaced self.old.nodes.items self.new.nodes.items) }
        ensures sourced { OnOk result (AreLaidAs self.old.sources self.new.sources) }
        ensures apart { OnOk result (AreApart self.old.sources → AreApart self.new.sources) }
        ensures scheduled { OnOk result (AreScheduled program.now self.new.sources self.new.nodes.items self.new.schedule) }
        ensures laid { OnOk result (IsLaidAs self.old.fans self.new.fans) }
        ensures loaded { IfOk result (λ a. IsWired self.old.sources self.old.nodes.items self.old.ends.items self.old.index → IsStrictlySortedBy extra_cmp extras.now
            → AreFans self.old.nodes.items self.old.fans → AreSources self.old.nodes.items self.old.fans self.old.sources
            → AreLoaded program.now (F.map facts.now) (lent kept.now) extras.now moment.now empty_row_comes (source_at self.old.sources) (source_at self.new.sources) (shown_nodes self.old) (shown_nodes self.new) self.old.owners.items self.old.ends.items a (length (shown_nodes self.old))) }
        ensures stuck { IsErrOf result LoadFault.NoRow → IsWired self.old.sources self.old.nodes.items self.old.ends.items self.old.index → IsStrictlySortedBy extra_cmp extras.now
            → AreFans self.old.nodes.items self.old.fans → AreSources self.old.nodes.items self.old.fans self.old.sources
            → IsStuck program.now (F.map facts.now) (lent kept.now) extras.now moment.now empty_row_comes (source_at self.old.sources) (shown_nodes self.old) self.old.owners.items self.old.ends.items }
    {
        let groups = by_type(alloc, kept)?;
        self.sources.load(alloc, &groups, moment.clock, facts)?;
        let none = Vec::new(alloc);
        let first = empty_row_comes(alloc)?;
        let mut due = BTreeSet::new(alloc);
        let mut answered = Answered::new(alloc, no_change(alloc));
        self.fans.begin(alloc);
        for place in 0..self.nodes.len() {
            let own = extras_of(extras, &self.owners, place);
            let node = &mut self.nodes[place];
            let left = answered.left(&first, node.parent);
            let rows = left.come.as_slice();
            let theirs = of_type(&groups, &none, node.ty());
            let given = Given {
                rows,
                theirs,
                extras: own,
                moment,
            };
            let delta = node.load_in(
                alloc,
                program,
                &mut self.fans,
                &mut self.sources,
                place,
                &given,
                facts,
            )?;
            self.schedule
                .put(alloc, program, place, node, &self.sources)?;
            let came = delta.come.as_slice();
            self.fans
                .turn_rows(alloc, &mut due, place, &[], came, facts)?;
            put_delta(&mut answered, &self.index, place, delta)?;
        }
        Ok(answered)
    }
}
