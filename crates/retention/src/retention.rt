ghost use Rattle.std.specs.Prelude.{◌≡◌, ℕ, None, false, ◌==◌, ◌&&◌, ◌||◌, not, cond, OnOk, OnErr, IfOk, map as list_map, nat_eq, filter};
ghost use Rattle.std.specs.FinMap as map;
ghost use Rattle.std.specs.List.{list_any};
ghost use Rattle.std.specs.List.Sorted.{IsStrictlySortedBy};
ghost use Rattle.std.specs.Ordering.{nat_cmp};
ghost use Rattle.fx_base.specs.declared.ids.Tag.{Tag as TagData};
ghost use Rattle.retention.specs.Retentions.{has_listed_tag, is_tag_among, is_named, lingers, PassesLives};

use agenda::Agenda;
use due_queue::DueQueue;
use fx_base::{Millis, NoMemory, Tag};
use std::alloc::Global;
use std::collections::BTreeSet;

/// The held events of finite life, by their tags: those within their lives wait for the first moment past them, and those past them
/// linger while a pending match names them. Each call costs the logarithm of what is held, for each tag that it looks at.
#[derive(Drop)]
pub struct Retention {
    due: DueQueue,
    lingering: BTreeSet<u64, Global>,
}

impl Retention {
    /// No events. Takes no memory.
    pub fn new(alloc: Global) -> Retention
        ensures due { result.due ≡ map.empty }
        ensures lingering { (tag : ℕ) → lingers result tag ≡ false }
    {
        Retention {
            due: DueQueue::new(alloc),
            lingering: BTreeSet::new(alloc),
        }
    }

    /// Holds a new event, which is past its life from this moment on, in milliseconds; the moment may have come already. Where memory
    /// is refused, nothing changes.
    pub fn hold(&mut self, tag: Tag, past_from: Millis) -> Result<(), NoMemory>
        requires { map.get self.old.due tag.0 ≡ None }
        ensures ok { OnOk result (self.new.due ≡ map.insert self.old.due tag.0 past_from) }
        ensures err { OnErr result (self.new.due ≡ self.old.due) }
        ensures lingering { self.new.lingering ≡ self.old.lingering }
    {
        self.due.put(past_from, tag.0)
    }

    /// The event is no longer held; where it was not, nothing changes. Takes no memory.
    pub fn release(&mut self, tag: Tag)
        ensures due { self.new.due ≡ map.remove self.old.due tag.0 }
        ensures lingering { (other : ℕ) → lingers self.new other ≡ (lingers self.old other && not (other == tag.0)) }
    {
        self.due.cancel(tag.0);
        self.lingering.remove(&tag.0);
    }

    /// Takes out the events that are past their lives at `now` and that no pending match names, and answers their tags. `left` are
    /// the tags of the matches that have stopped pending since the call before, in any order, also twice. It costs the logarithm of
    /// what is held for each event that is due and each tag of `left`; with neither it looks at the front of the queue, and takes
    /// no memory. Where memory is refused, nothing is promised of what is held.
    pub fn past(
        &mut self,
        alloc: Global,
        now: Millis,
        left: &[Tag],
        agenda: &Agenda,
    ) -> Result<BTreeSet<u64, Global>, NoMemory>
        ensures passes { IfOk result (λ old. PassesLives now (is_tag_among left.now) (is_named agenda.now) self.old self.new (has_listed_tag old.keys)) }
        ensures in_order { IfOk result (λ old. IsStrictlySortedBy nat_cmp old.keys) }
    {
        let mut touched = self.due.take_due(now)?;
        let no_longer_named = those_in(alloc, &self.lingering, left)?;
        touched.extend_from_slice(&no_longer_named)?;
        let mut old = BTreeSet::new(alloc);
        settle_all(&mut self.lingering, &mut old, &touched, agenda)?;
        let _count = old.len();
        Ok(old)
    }
}

// The tags of a list that a set has.
fn those_in(alloc: Global, set: &BTreeSet<u64, Global>, tags: &[Tag]) -> Result<Vec<u64>, NoMemory>
    ensures { IfOk result (λ found. found.items ≡ filter (has_listed_tag set.now.keys) (list_map (λ (tag : TagData). tag.0) tags.now)) }
{
    Ok(
        tags.iter()
            .map(|tag| tag.0)
            .filter(|tag| set.contains(tag))
            .collect(alloc)?,
    )
}

// An event past its life lingers where a pending match names it, and is old otherwise.
fn settle(
    lingering: &mut BTreeSet<u64, Global>,
    old: &mut BTreeSet<u64, Global>,
    tag: u64,
    agenda: &Agenda,
) -> Result<(), NoMemory>
    ensures lingering { OnOk result ((other : ℕ) → has_listed_tag lingering.new.keys other ≡ cond (other == tag) (is_named agenda.now other) (has_listed_tag lingering.old.keys other)) }
    ensures old { OnOk result ((other : ℕ) → has_listed_tag old.new.keys other ≡ (has_listed_tag old.old.keys other || (other == tag && not (is_named agenda.now other)))) }
{
    if agenda.names_tag(Tag(tag)) {
        lingering.insert(tag)?;
        Ok(())
    } else {
        lingering.remove(&tag);
        old.insert(tag)?;
        Ok(())
    }
}

fn settle_all(
    lingering: &mut BTreeSet<u64, Global>,
    old: &mut BTreeSet<u64, Global>,
    tags: &[u64],
    agenda: &Agenda,
) -> Result<(), NoMemory>
    ensures lingering { OnOk result ((other : ℕ) → has_listed_tag lingering.new.keys other ≡ cond (list_any (nat_eq other) tags.now) (is_named agenda.now other) (has_listed_tag lingering.old.keys other)) }
    ensures old { OnOk result ((other : ℕ) → has_listed_tag old.new.keys other ≡ (has_listed_tag old.old.keys other || (list_any (nat_eq other) tags.now && not (is_named agenda.now other)))) }
{
    for tag in tags {
        settle(lingering, old, *tag, agenda)?;
    }
    Ok(())
}
