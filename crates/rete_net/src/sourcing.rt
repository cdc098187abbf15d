ghost use Rattle.std.specs.Prelude.{◌≡◌, ℤ, length, Option, None, Some, IfOk, IfSome, IsTrue, OnOk};
ghost use Rattle.rule_model.specs.declared.condition.Pattern.{Pattern as PatternData};
ghost use Rattle.candidate_source.specs.declared.source.Source.{Source as SourceData};
ghost use Rattle.candidate_source.specs.Doors.{listed_source, source_pattern};
ghost use Rattle.candidate_source.specs.Sources.{is_follower, is_lead, AreApart};
ghost use Rattle.beta_node.specs.Quiet.{IsBefore};
ghost use Rattle.rete_net.specs.Schedules.{gate_told, IsGateStill};
ghost use Rattle.rete_net.specs.declared.fans.Seat.{Seat as SeatData};
ghost use Rattle.rete_net.specs.Sourcing.{AreAlike, AreSourcesBelow, IsNodePut};

use crate::alike::SourceKey;
use crate::fans::{Fans, Seat};
use crate::grouping::Groups;
use crate::node::NetNode;
use crate::quiet::widened;
use candidate_source::Sources;
use fx_base::{Copies, NoMemory};
use rule_model::Pattern;
use std::alloc::Global;

/// The sources of these nodes: of those without a seat that take and keep candidates alike, two and more. They keep nothing. It costs for
/// each node a key, and a look at the nodes that ask for the same first constant, or, without one, at those of its type.
pub(crate) fn sources_of(alloc: Global, nodes: &[NetNode], fans: &Fans) -> Result<Sources, NoMemory>
    ensures { IfOk result (λ sources. AreSourcesBelow nodes.now fans.now.seats.items sources (length nodes.now)) }
{
    let mut groups = Groups::of(alloc, nodes, fans)?;
    let mut sources = Sources::new(alloc);
    for (place, node) in nodes.iter().enumerate() {
        let seat = fans.seat(place);
        put_node(
            &mut sources,
            alloc,
            &mut groups,
            place,
            node.pattern(),
            seat,
        )?;
    }
    Ok(sources)
}

// Puts the node in a place behind the others: where it has no seat and its group has others, of the source of these.
fn put_node(
    sources: &mut Sources,
    alloc: Global,
    groups: &mut Groups,
    place: usize,
    pattern: &Pattern,
    seat: Option<Seat>,
) -> Result<(), NoMemory>
    ensures { AreApart sources.old → OnOk result (IsNodePut pattern.now seat sources.old sources.new) }
{
    match (seat, groups.shared(place)) {
        (None, Some(group)) => put_shared(sources, alloc, groups, group, pattern),
        (None, None) => put_alone(sources),
        (Some(_), _) => put_alone(sources),
    }
}

// Puts a node of no source.
fn put_alone(sources: &mut Sources) -> Result<(), NoMemory>
    ensures { (p : PatternData) (seat : Option SeatData) → AreApart sources.old → OnOk result (IsNodePut p seat sources.old sources.new) }
{
    sources.put_node(None)
}

// Puts a node of the source of a group, which is put with it where it is not there.
fn put_shared(
    sources: &mut Sources,
    alloc: Global,
    groups: &mut Groups,
    group: usize,
    pattern: &Pattern,
) -> Result<(), NoMemory>
    ensures { AreApart sources.old → OnOk result (IsNodePut pattern.now None sources.old sources.new) }
{
    match groups.source(group) {
        Some(source) => put_follower(sources, alloc, source, pattern),
        None => {
            groups.set_source(group, sources.count());
            let own = pattern.copy(alloc)?;
            sources.put_lead(alloc, own)
        }
    }
}

// Puts a node of a source, if that takes and keeps alike with its pattern.
fn put_follower(
    sources: &mut Sources,
    alloc: Global,
    source: usize,
    pattern: &Pattern,
) -> Result<(), NoMemory>
    ensures { AreApart sources.old → OnOk result (IsNodePut pattern.now None sources.old sources.new) }
{
    if is_alike(sources, alloc, source, pattern)? {
        return sources.put_node(Some(source));
    }
    put_alone(sources)
}

// Whether there is such a source, and it takes and keeps alike with a pattern. It takes the keys.
fn is_alike(
    sources: &Sources,
    alloc: Global,
    source: usize,
    pattern: &Pattern,
) -> Result<bool, NoMemory>
    ensures { IfOk result (λ is. IsTrue is → (s : SourceData) × (listed_source sources.now source ≡ Some s) × AreAlike pattern.now (source_pattern s)) }
{
    match sources.listed(source) {
        Some(found) => are_alike(alloc, pattern, found.pattern()),
        None => Ok(false),
    }
}

// Whether patterns take and keep alike. It takes their keys.
fn are_alike(alloc: Global, pattern: &Pattern, other: &Pattern) -> Result<bool, NoMemory>
    ensures { IfOk result (λ are. IsTrue are → AreAlike pattern.now other.now) }
{
    let ours = SourceKey::of(alloc, pattern)?;
    let theirs = SourceKey::of(alloc, other)?;
    Ok(ours.is_same(&theirs))
}

/// Whether the node in a place is of a source of which another is the first one. Takes no memory.
pub(crate) fn is_follower(sources: &Sources, place: usize) -> bool
    ensures { result ≡ is_follower sources.now place }
{
    match sources.lead(place) {
        Some(lead) => lead != place,
        None => false,
    }
}

/// The moment of the clock, in milliseconds, from which a candidate leaves the window of the gate of which the schedule tells in a place:
/// the node's own, or, at the first node of a source, that of the source. Takes no memory.
pub(crate) fn gate_until(sources: &Sources, place: usize, node: &NetNode) -> Option<i128>
    ensures { IfSome (gate_told sources.now place node.now) (λ gate. (clock : ℤ) → IsBefore result clock → IsGateStill gate clock) }
{
    match sources.source(place) {
        Some(source) => {
            if is_lead(sources, place) {
                widened(source.quiet_until())
            } else {
                None
            }
        }
        None => widened(node.gate.quiet_until()),
    }
}

// Whether the node in a place is the first one of its source. Takes no memory.
fn is_lead(sources: &Sources, place: usize) -> bool
    ensures { result ≡ is_lead sources.now place }
{
    match sources.lead(place) {
        Some(lead) => lead == place,
        None => false,
    }
}
