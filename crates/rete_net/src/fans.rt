ghost use Rattle.std.specs.Prelude.{◌≡◌, ◌<◌, ℕ, List, true, false, length, slice_get, None, Some, IfOk, OnOk, IsTrue};
ghost use Rattle.row_change.specs.Changes.{are_none};
ghost use Rattle.fan_join.specs.Fans.{member_delta, AreBeside, IsReached, AreRowsTurned as JoinTurned};
ghost use Rattle.rete_net.specs.declared.fans.Fan.{Fan as FanData};
ghost use Rattle.rete_net.specs.declared.fans.Seat.{Seat as SeatData};
ghost use Rattle.rete_net.specs.declared.node.NetNode.{NetNode as NetNodeData};
ghost use Rattle.rete_net.specs.Fans.{half_at, member_of, seat_at, given_span, AreFans, AreNamesTurnedAt, AreFanRowsTurned, AreWoken, IsHalf, IsLaidAs, IsLeft};
ghost use Rattle.fan_join.specs.Reaching.{has_place};
ghost use Rattle.fan_join.specs.Doors.{shared_key};
ghost use Rattle.rete_net.specs.Steps.{no_change as nothing};

use crate::build::no_change;
use crate::due::put_all;
use crate::lists::Lists;
use fan_join::FanJoin;
use fx_base::{Facts, NoMemory};
use row_delta::{Delta, Named, Row};
use std::alloc::Global;
use std::collections::{BTreeMap, BTreeSet};

/// Which member of which fan a node is.
#[derive(Clone, Copy)]
pub(crate) struct Seat {
    pub(crate) fan: usize,
    pub(crate) member: usize,
}

/// The fans behind a node: those from a place on and before another.
#[derive(Clone, Copy)]
pub(crate) struct Span {
    pub(crate) from: usize,
    pub(crate) to: usize,
}

/// Nodes of patterns that bind a fact, behind one parent, that keep its rows alike: the rows once, the candidates of each, and the
/// places of these nodes, in the order of the members.
#[derive(Drop)]
pub(crate) struct Fan {
    pub(crate) parent: usize,
    pub(crate) join: FanJoin,
    pub(crate) places: Vec<usize>,
}

/// What stands behind each node, by what it keeps rows: the fans, those of a parent side by side; for each node which member it is, if it
/// is one; the fans behind each node, and its other children; and, while a step goes on, what the rows of a fan have changed for those
/// of its members for which they changed something.
#[derive(Drop)]
pub(crate) struct Fans {
    pub(crate) list: Vec<Fan>,
    pub(crate) seats: Vec<Option<Seat>>,
    pub(crate) spans: Vec<Span>,
    pub(crate) lone: Lists,
    pub(crate) halves: BTreeMap<usize, BTreeMap<usize, Delta>>,
}

impl Fans {
    /// Which member the node in a place is, if it is one. Takes no memory.
    pub(crate) fn seat(&self, place: usize) -> Option<Seat>
        ensures { result ≡ seat_at self.now.seats.items place }
    {
        seat_in(&self.seats, place)
    }

    /// Begins a step, in which no rows have changed anything. Takes no memory.
    pub(crate) fn begin(&mut self, alloc: Global)
        ensures seats { self.new.seats ≡ self.old.seats }
        ensures spans { self.new.spans ≡ self.old.spans }
        ensures lone { self.new.lone ≡ self.old.lone }
        ensures list { self.new.list ≡ self.old.list }
        ensures halves { (seat : SeatData) → half_at self.new seat ≡ nothing }
    {
        self.halves = BTreeMap::new(alloc);
    }

    /// Rows of a node leave and then come for what stands behind it, and what they concern is due: the children that keep rows of their
    /// own, and those members of its fans for which something changes. It costs what a fan costs for each of these rows; without rows,
    /// nothing.
    pub(crate) fn turn_rows<F: Facts>(
        &mut self,
        alloc: Global,
        due: &mut BTreeSet<usize, Global>,
        parent: usize,
        gone: &[Row],
        come: &[Row],
        facts: &F,
    ) -> Result<(), NoMemory>
        ensures laid { OnOk result (IsLaidAs self.old self.new) }
        ensures turned { OnOk result ((nodes : List NetNodeData) → AreFans nodes self.old → AreFanRowsTurned (F.map facts.now) parent gone.now come.now self.old self.new) }
        ensures woken { OnOk result ((nodes : List NetNodeData) → AreFans nodes self.old → AreWoken parent gone.now come.now self.old self.new due.old.keys due.new.keys) }
    {
        if is_nothing(gone, come) {
            return Ok(());
        }
        put_all(due, self.lone.list(parent))?;
        let span = self.span(parent);
        for fan in span.from..span.to {
            self.turn_fan(alloc, due, fan, gone, come, facts)?;
        }
        Ok(())
    }

    // The fans behind a node. Takes no memory.
    fn span(&self, parent: usize) -> Span
        ensures { result ≡ given_span (slice_get self.now.spans.items parent) }
    {
        match self.spans.get(parent) {
            Some(span) => *span,
            None => Span { from: 0, to: 0 },
        }
    }

    // Rows leave and then come for the fan in a place, if it is there, and the members for which something changes are due.
    fn turn_fan<F: Facts>(
        &mut self,
        alloc: Global,
        due: &mut BTreeSet<usize, Global>,
        fan: usize,
        gone: &[Row],
        come: &[Row],
        facts: &F,
    ) -> Result<(), NoMemory>
        ensures laid { OnOk result (IsLaidAs self.old self.new) }
        ensures others { OnOk result ((seat : SeatData) → (seat.fan ≡ fan → ⊥) → IsLeft self.old self.new seat) }
        ensures turned { OnOk result ((seat : SeatData) (f : FanData) → seat.fan ≡ fan → slice_get self.old.list.items fan ≡ Some f → AreBeside f.join → IsReached f.join
            → IsHalf (F.map facts.now) gone.now come.now (member_of self.old.list.items (Some seat)) (member_of self.new.list.items (Some seat)) (half_at self.new seat)) }
        ensures still { OnOk result ((k : ℕ) → has_place due.old.keys k ≡ true → has_place due.new.keys k ≡ true) }
        ensures woken { OnOk result ((seat : SeatData) (f : FanData) (k : ℕ) → seat.fan ≡ fan → slice_get self.old.list.items fan ≡ Some f → slice_get f.places.items seat.member ≡ Some k
            → has_place due.new.keys k ≡ false → half_at self.new seat ≡ nothing) }
    {
        if fan >= self.list.len() {
            return Ok(());
        }
        let halves = self.list[fan].turn_rows(alloc, due, gone, come, facts)?;
        self.halves.insert(fan, halves)?;
        Ok(())
    }

    /// Takes out what the rows before a member have changed for it in this step. It costs the logarithm of the fans that rows reached and
    /// of the members for which they changed something. Takes no memory.
    pub(crate) fn take_half(&mut self, alloc: Global, seat: Seat) -> Delta
        ensures half { result ≡ half_at self.old seat }
        ensures others { (other : SeatData) → (other ≡ seat → ⊥) → half_at self.new other ≡ half_at self.old other }
        ensures seats { self.new.seats ≡ self.old.seats }
        ensures spans { self.new.spans ≡ self.old.spans }
        ensures lone { self.new.lone ≡ self.old.lone }
        ensures list { self.new.list ≡ self.old.list }
    {
        match self.halves.get_mut(&seat.fan) {
            Some(halves) => taken(halves, alloc, seat.member),
            None => no_change(alloc),
        }
    }

    /// Candidates of a member leave and then come, behind what its rows have changed.
    pub(crate) fn turn_names<F: Facts>(
        &mut self,
        alloc: Global,
        seat: Seat,
        half: Delta,
        gone: &[Named],
        come: &[Named],
        facts: &F,
    ) -> Result<Delta, NoMemory>
        ensures laid { OnOk result (IsLaidAs self.old self.new) }
        ensures halves { OnOk result (self.new.halves ≡ self.old.halves) }
        ensures others { OnOk result ((other : SeatData) → (other ≡ seat → ⊥) → member_of self.new.list.items (Some other) ≡ member_of self.old.list.items (Some other)) }
        ensures turned { IfOk result (λ delta. AreNamesTurnedAt (F.map facts.now) gone.now come.now half delta self.old.list.items self.new.list.items seat) }
    {
        if !self.has(seat) {
            return Ok(half);
        }
        let delta = self.list[seat.fan]
            .join
            .turn_names(alloc, seat.member, half, gone, come, facts)?;
        Ok(delta)
    }

    // Whether there is such a member. Takes no memory.
    fn has(&self, seat: Seat) -> bool
        ensures there { IsTrue result → (f : FanData) × (slice_get self.now.list.items seat.fan ≡ Some f) × (seat.member < length f.join.members.items) }
        ensures missing { result ≡ false → member_of self.now.list.items (Some seat) ≡ None }
    {
        match self.list.get(seat.fan) {
            Some(fan) => seat.member < fan.join.count(),
            None => false,
        }
    }
}

/// The seat in a place, where there is one. Takes no memory.
pub(crate) fn seat_in(seats: &[Option<Seat>], place: usize) -> Option<Seat>
    ensures { result ≡ seat_at seats.now place }
{
    match seats.get(place) {
        Some(seat) => *seat,
        None => None,
    }
}

// Whether there are no rows of either kind. Takes no memory.
fn is_nothing(gone: &[Row], come: &[Row]) -> bool
    ensures { result ≡ are_none gone.now come.now }
{
    match (gone, come) {
        ([], []) => true,
        _ => false,
    }
}

// Takes out what has changed for a member; where nothing stands, nothing has. Takes no memory.
fn taken(halves: &mut BTreeMap<usize, Delta>, alloc: Global, member: usize) -> Delta
    ensures half { result ≡ member_delta halves.old member }
    ensures others { (other : ℕ) → (other ≡ member → ⊥) → member_delta halves.new other ≡ member_delta halves.old other }
{
    match halves.remove(&member) {
        Some(half) => half,
        None => no_change(alloc),
    }
}

impl Fan {
    // Rows leave and then come for the members; it answers what changes for those for which something does, and these are due.
    fn turn_rows<F: Facts>(
        &mut self,
        alloc: Global,
        due: &mut BTreeSet<usize, Global>,
        gone: &[Row],
        come: &[Row],
        facts: &F,
    ) -> Result<BTreeMap<usize, Delta>, NoMemory>
        ensures parent { OnOk result (self.new.parent ≡ self.old.parent) }
        ensures places { OnOk result (self.new.places ≡ self.old.places) }
        ensures key { OnOk result (shared_key self.new.join ≡ shared_key self.old.join) }
        ensures members { OnOk result (self.new.join.members ≡ self.old.join.members) }
        ensures reached { OnOk result (self.new.join.reached ≡ self.old.join.reached) }
        ensures turned { IfOk result (λ halves. AreBeside self.old.join → IsReached self.old.join → JoinTurned self.old.join self.new.join (F.map facts.now) gone.now come.now halves) }
        ensures still { OnOk result ((k : ℕ) → has_place due.old.keys k ≡ true → has_place due.new.keys k ≡ true) }
        ensures woken { IfOk result (λ halves. (m k : ℕ) → slice_get self.old.places.items m ≡ Some k → has_place due.new.keys k ≡ false → member_delta halves m ≡ nothing) }
    {
        let halves = self.join.turn_rows(alloc, gone, come, facts)?;
        put_members(due, &self.places, &halves)?;
        Ok(halves)
    }
}

// Puts the places of the members for which something has changed.
fn put_members(
    due: &mut BTreeSet<usize, Global>,
    places: &[usize],
    halves: &BTreeMap<usize, Delta>,
) -> Result<(), NoMemory>
    ensures still { OnOk result ((k : ℕ) → has_place due.old.keys k ≡ true → has_place due.new.keys k ≡ true) }
    ensures woken { OnOk result ((m k : ℕ) → slice_get places.now m ≡ Some k → has_place due.new.keys k ≡ false → member_delta halves.now m ≡ nothing) }
{
    for member in halves.keys() {
        put_member(due, places, *member)?;
    }
    Ok(())
}

// Puts the place of a member.
fn put_member(
    due: &mut BTreeSet<usize, Global>,
    places: &[usize],
    member: usize,
) -> Result<(), NoMemory>
    ensures still { OnOk result ((k : ℕ) → has_place due.old.keys k ≡ true → has_place due.new.keys k ≡ true) }
    ensures put { OnOk result ((k : ℕ) → slice_get places.now member ≡ Some k → has_place due.new.keys k ≡ true) }
{
    match places.get(member) {
        Some(place) => {
            due.insert(*place)?;
            Ok(())
        }
        None => Ok(()),
    }
}
