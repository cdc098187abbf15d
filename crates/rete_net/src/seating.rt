ghost use Rattle.std.specs.Prelude.{◌≡◌, ◌∷◌, ◌++◌, ◌≤◌, ◌<◌, ℕ, List, [], length, None, Some, true, slice_get, IfOk, IfSome, IsTrue, OnOk};
ghost use Rattle.rule_model.specs.declared.condition.Condition.TheVariants.{Plain};
ghost use Rattle.join_tests.specs.RowKeys.{row_key};
ghost use Rattle.beta_node.specs.Nodes.{condition_of};
ghost use Rattle.rete_net.specs.declared.fans.Fan.{Fan as FanData};
ghost use Rattle.rete_net.specs.declared.node.NetNode.{NetNode as NetNodeData};
ghost use Rattle.rete_net.specs.Fans.{seat_at, AreEmpty, AreFans, AreLoneFound};
ghost use Rattle.rete_net.specs.Indexes.{is_listed};
ghost use Rattle.rete_net.specs.Seating.{AreGrowing, GrowsTo, IsFanPut, IsFanWith, IsNewFan};
ghost use Rattle.fan_join.specs.Doors.{shared_key};

use crate::fans::{Fan, Fans, Seat, Span, seat_in};
use crate::lists::Lists;
use crate::node::NetNode;
use fan_join::FanJoin;
use fx_base::{Copies, NoMemory};
use join_tests::RowKey;
use rule_model::Pattern;
use std::alloc::Global;
use std::collections::BTreeMap;

// The places of the nodes that have a parent, by their parents.
fn by_parent(alloc: Global, nodes: &[NetNode]) -> Result<Lists, NoMemory> {
    let mut children = Lists::new(alloc);
    for (place, node) in nodes.iter().enumerate() {
        match node.parent {
            Some(parent) => children.put(alloc, parent, place)?,
            None => {}
        }
    }
    Ok(children)
}

// The places of the nodes that have a parent and no seat, by their parents.
fn lone_of(alloc: Global, nodes: &[NetNode], seats: &[Option<Seat>]) -> Result<Lists, NoMemory>
    ensures { IfOk result (λ lone. AreLoneFound nodes.now seats.now lone) }
{
    let mut lone = Lists::new(alloc);
    for (place, node) in nodes.iter().enumerate() {
        put_lone(&mut lone, alloc, place, node.parent, seat_in(seats, place))?;
    }
    Ok(lone)
}

// Puts a place under its parent, if it has one and no seat.
fn put_lone(
    lone: &mut Lists,
    alloc: Global,
    place: usize,
    parent: Option<usize>,
    seat: Option<Seat>,
) -> Result<(), NoMemory>
    ensures kept { OnOk result ((n k : ℕ) → is_listed lone.old n k ≡ true → is_listed lone.new n k ≡ true) }
    ensures put { OnOk result ((p : ℕ) → parent ≡ Some p → seat ≡ None → is_listed lone.new p place ≡ true) }
{
    match (parent, seat) {
        (Some(parent), None) => lone.put(alloc, parent, place),
        (Some(_), Some(_)) => Ok(()),
        (None, _) => Ok(()),
    }
}

// The pattern of the node in a place, where it binds a fact and stands behind this parent. Takes no memory.
fn pattern_behind(nodes: &[NetNode], place: usize, parent: usize) -> Option<&Pattern>
    ensures { IfSome result (λ q. (n : NetNodeData) × (slice_get nodes.now place ≡ Some n) × (n.parent ≡ Some parent) × (condition_of n.node ≡ Plain q.now)) }
{
    match nodes.get(place) {
        Some(node) => node.joined_behind(parent),
        None => None,
    }
}

// Whether the node in a place stands behind this parent and keeps its rows by this key. It takes its key.
fn is_sibling(
    alloc: Global,
    nodes: &[NetNode],
    place: usize,
    parent: usize,
    key: &RowKey,
) -> Result<bool, NoMemory> {
    match pattern_behind(nodes, place, parent) {
        Some(pattern) => {
            let other = RowKey::of(alloc, pattern)?;
            Ok(other.is_same(key))
        }
        None => Ok(false),
    }
}

// Whether one of these places has a node behind this parent that keeps its rows by this key. It takes the keys until then.
fn has_sibling(
    alloc: Global,
    nodes: &[NetNode],
    places: &[usize],
    parent: usize,
    key: &RowKey,
) -> Result<bool, NoMemory> {
    for place in places {
        if is_sibling(alloc, nodes, *place, parent, key)? {
            return Ok(true);
        }
    }
    Ok(false)
}

impl Fans {
    /// The fans of these nodes: of those behind one parent that bind a fact and keep its rows by one key, two and more. They keep nothing.
    /// For each node it looks at the fans of its parent, and where none keeps rows alike at its later siblings until one does.
    pub(crate) fn of(alloc: Global, nodes: &[NetNode]) -> Result<Fans, NoMemory>
        ensures fans { IfOk result (λ fans. AreFans nodes.now fans) }
        ensures empty { IfOk result (λ fans. AreEmpty fans) }
    {
        let children = by_parent(alloc, nodes)?;
        let mut fans = Fans::none(alloc, nodes.len())?;
        for parent in 0..nodes.len() {
            fans.put_behind(alloc, nodes, children.list(parent))?;
        }
        let lone = lone_of(alloc, nodes, &fans.seats)?;
        fans.lone = lone;
        Ok(fans)
    }

    // No fans, of so many nodes.
    fn none(alloc: Global, nodes: usize) -> Result<Fans, NoMemory>
        ensures seats { IfOk result (λ fans. length fans.seats.items ≡ nodes) }
        ensures none { IfOk result (λ fans. (k : ℕ) → seat_at fans.seats.items k ≡ None) }
        ensures list { IfOk result (λ fans. fans.list.items ≡ []) }
        ensures spans { IfOk result (λ fans. fans.spans.items ≡ []) }
    {
        let mut seats = Vec::with_capacity(alloc, nodes)?;
        for place in 0..nodes {
            // (read, so that its range is known)
            let _ = place;
            seats.push(None)?;
        }
        Ok(Fans {
            list: Vec::new(alloc),
            seats,
            spans: Vec::new(alloc),
            lone: Lists::new(alloc),
            halves: BTreeMap::new(alloc),
        })
    }

    // Puts the fans of the next parent, whose children are in these places, behind those of the parents before it.
    fn put_behind(
        &mut self,
        alloc: Global,
        nodes: &[NetNode],
        children: &[usize],
    ) -> Result<(), NoMemory>
        ensures grown { OnOk result (AreGrowing nodes.now self.old (length self.old.list.items) → AreGrowing nodes.now self.new (length self.new.list.items)) }
    {
        let from = self.list.len();
        for child in 0..children.len() {
            self.put_first(alloc, nodes, from, &children[child..])?;
        }
        let to = self.list.len();
        self.spans.push(Span { from, to })?;
        Ok(())
    }

    // Puts the node in the first of these places into a fan from a place on, if it stands behind the next parent, has no seat, and has a
    // sibling there or in one of the later places.
    fn put_first(
        &mut self,
        alloc: Global,
        nodes: &[NetNode],
        from: usize,
        places: &[usize],
    ) -> Result<(), NoMemory>
        ensures { OnOk result (GrowsTo nodes.now from self.old self.new) }
    {
        match places {
            [] => Ok(()),
            [place, later @ ..] => self.put_node(alloc, nodes, from, *place, later),
        }
    }

    fn put_node(
        &mut self,
        alloc: Global,
        nodes: &[NetNode],
        from: usize,
        place: usize,
        later: &[usize],
    ) -> Result<(), NoMemory>
        ensures { OnOk result (GrowsTo nodes.now from self.old self.new) }
    {
        match pattern_behind(nodes, place, self.spans.len()) {
            Some(pattern) => {
                let key = RowKey::of(alloc, pattern)?;
                match self.fan_for(alloc, nodes, from, key, later)? {
                    Some(fan) => {
                        self.put_member(alloc, fan, place, pattern)?;
                        Ok(())
                    }
                    None => Ok(()),
                }
            }
            None => Ok(()),
        }
    }

    // The fan from a place on that keeps rows by this key, or a new one where one of the later places has a node that keeps them so.
    fn fan_for(
        &mut self,
        alloc: Global,
        nodes: &[NetNode],
        from: usize,
        key: RowKey,
        later: &[usize],
    ) -> Result<Option<usize>, NoMemory>
        ensures grows { OnOk result (GrowsTo nodes.now from self.old self.new) }
        ensures fan { IfOk result (λ fan. IfSome fan (λ f. IsFanWith self.new.list.items key f)) }
        ensures low { IfOk result (λ fan. IfSome fan (λ f. AreGrowing nodes.now self.old from → from ≤ f)) }
    {
        match self.fan_with(from, &key) {
            Some(fan) => Ok(Some(fan)),
            None => {
                if !has_sibling(alloc, nodes, later, self.spans.len(), &key)? {
                    return Ok(None);
                }
                let fan = self.list.len();
                self.put_fan(alloc, key)?;
                Ok(Some(fan))
            }
        }
    }

    // The first fan from a place on that keeps rows by this key. Takes no memory.
    fn fan_with(&self, from: usize, key: &RowKey) -> Option<usize>
        ensures fan { IfSome result (λ f. IsFanWith self.now.list.items key.now f) }
        ensures low { IfSome result (λ f. from ≤ f) }
    {
        for fan in from..self.list.len() {
            if self.list[fan].join.key().is_same(key) {
                return Some(fan);
            }
        }
        None
    }

    // Puts a fan without members behind the next parent.
    fn put_fan(&mut self, alloc: Global, key: RowKey) -> Result<(), NoMemory>
        ensures list { OnOk result ((f : FanData) × (self.new.list.items ≡ self.old.list.items ++ f ∷ []) × IsNewFan (length self.old.spans.items) key f) }
        ensures seats { OnOk result (self.new.seats ≡ self.old.seats) }
        ensures spans { OnOk result (self.new.spans ≡ self.old.spans) }
    {
        let parent = self.spans.len();
        self.list.push(Fan {
            parent,
            join: FanJoin::new(alloc, key),
            places: Vec::new(alloc),
        })?;
        Ok(())
    }

    // Puts the node in a place into a fan, if that is there and the node has no seat.
    fn put_member(
        &mut self,
        alloc: Global,
        fan: usize,
        place: usize,
        pattern: &Pattern,
    ) -> Result<(), NoMemory>
        requires { (f : FanData) → slice_get self.now.list.items fan ≡ Some f → row_key pattern.now ≡ shared_key f.join }
        ensures spans { OnOk result (self.new.spans ≡ self.old.spans) }
        ensures grown { OnOk result ((nodes : List NetNodeData) (from : ℕ) (n : NetNodeData) → from ≤ fan → slice_get nodes place ≡ Some n → n.parent ≡ Some (length self.old.spans.items)
            → condition_of n.node ≡ Plain pattern.now → AreGrowing nodes self.old from → AreGrowing nodes self.new from) }
    {
        if fan >= self.list.len() || !self.is_free(place) {
            return Ok(());
        }
        let member = self.list[fan].places.len();
        self.list[fan].put(alloc, place, pattern)?;
        self.seats[place] = Some(Seat { fan, member });
        Ok(())
    }

    // Whether there is such a place, and the node in it has no seat. Takes no memory.
    fn is_free(&self, place: usize) -> bool
        ensures { IsTrue result → slice_get self.now.seats.items place ≡ Some None }
    {
        match self.seats.get(place) {
            Some(None) => true,
            Some(Some(_)) => false,
            None => false,
        }
    }
}

impl Fan {
    // Puts the node in a place as the next member.
    fn put(&mut self, alloc: Global, place: usize, pattern: &Pattern) -> Result<(), NoMemory>
        requires { row_key pattern.now ≡ shared_key self.now.join }
        ensures { OnOk result (IsFanPut self.old self.new place pattern.now) }
    {
        let copy = pattern.copy(alloc)?;
        self.join.put(alloc, copy)?;
        self.places.push(place)?;
        Ok(())
    }
}
