ghost use Rattle.std.specs.Prelude.{◌≡◌, ◌<◌, ◌++◌, ◌∷◌, [], length, IfOk, OnOk};
ghost use Rattle.join_tests.specs.RowKeys.{row_key};
ghost use Rattle.join_memory.specs.declared.candidates.Candidates.{Candidates as CandidatesData};
ghost use Rattle.fan_join.specs.Fans.{IsMemberAt, AreBeside, AreRowsTurned, IsEmpty, IsMemberTurned, IsReached};
ghost use Rattle.fan_join.specs.Reaching.{AreAsked};

use crate::asking::differences;
use crate::member::names_turned;
use crate::reach::{add_reached, all_places, put_values, take_values};
use crate::row_turn::RowTurn;
use alpha_memory::JoinIndex;
use fx_base::{Facts, NoMemory, Value};
use join_memory::{Candidates, LeftRows};
use join_tests::RowKey;
use row_delta::{Delta, Named, Row};
use rule_model::Pattern;
use std::alloc::Global;
use std::collections::{BTreeMap, BTreeSet};

/// Nodes of patterns that bind a fact, which stand behind one node and keep its rows by the same key: the rows are kept once, the
/// candidates by each member, and where the key has no range of time, under each join value the places of the members that keep a candidate
/// under it, so that a row asks these alone. After a call that was refused memory it is to be given up.
#[derive(Drop)]
pub struct FanJoin {
    left: LeftRows,
    members: Vec<Candidates>,
    reached: JoinIndex<Value, usize, ()>,
}

impl FanJoin {
    /// No members; their rows are to be kept by this key. Takes no memory.
    pub fn new(alloc: Global, key: RowKey) -> FanJoin
        ensures key { result.left.key ≡ key }
        ensures none { result.members.items ≡ [] }
        ensures empty { IsEmpty result }
        ensures beside { AreBeside result }
        ensures reached { IsReached result }
    {
        FanJoin {
            left: LeftRows::new(alloc, key),
            members: Vec::new(alloc),
            reached: JoinIndex::new(alloc),
        }
    }

    /// By what the members keep rows. Takes no memory.
    pub fn key(&self) -> &RowKey
        ensures { result.now ≡ self.now.left.key }
    {
        self.left.key()
    }

    /// Puts a member behind the others, which has no candidates. In a fan that keeps nothing it keeps nothing.
    pub fn put(&mut self, alloc: Global, pattern: Pattern) -> Result<(), NoMemory>
        requires { row_key pattern ≡ self.now.left.key }
        ensures left { OnOk result (self.new.left ≡ self.old.left) }
        ensures member { OnOk result ((c : CandidatesData) × (self.new.members.items ≡ self.old.members.items ++ c ∷ []) × (c.pattern ≡ pattern)) }
        ensures empty { OnOk result (IsEmpty self.old → IsEmpty self.new) }
        ensures beside { OnOk result (AreBeside self.old → AreBeside self.new) }
        ensures reached { OnOk result (IsReached self.old → IsReached self.new) }
    {
        let member = Candidates::new(alloc, pattern);
        self.members.push(member)?;
        Ok(())
    }

    /// How many members there are. Takes no memory.
    pub fn count(&self) -> usize
        ensures { result ≡ length self.now.members.items }
    {
        self.members.len()
    }

    /// The pattern of the member in a place. Takes no memory.
    pub fn pattern(&self, place: usize) -> &Pattern
        requires { place < length self.now.members.items }
        ensures { (c : CandidatesData) → IsMemberAt self.now place c → result.now ≡ c.pattern }
    {
        self.members[place].pattern()
    }

    /// Rows before the members leave and then come. The answer is what has changed in the rows that the members make, by their places;
    /// of the others nothing has. A row costs the logarithm of what has the same join value and a hash, and for each member that it
    /// reaches a hash and a test of the candidates that are sought. It reaches those that keep a candidate under its join value, or all
    /// of them where the key has a range of time.
    pub fn turn_rows<F: Facts>(
        &mut self,
        alloc: Global,
        gone: &[Row],
        come: &[Row],
        facts: &F,
    ) -> Result<BTreeMap<usize, Delta>, NoMemory>
        ensures key { OnOk result (self.new.left.key ≡ self.old.left.key) }
        ensures members { OnOk result (self.new.members ≡ self.old.members) }
        ensures reached { OnOk result (self.new.reached ≡ self.old.reached) }
        ensures turned { IfOk result (λ deltas. AreBeside self.old → IsReached self.old → AreRowsTurned self.old self.new (F.map facts.now) gone.now come.now deltas) }
    {
        let went = self.left.leave(alloc, gone, facts)?;
        let came = self.left.come(alloc, come, facts)?;
        let turn = RowTurn { went, came };
        let places = self.asked(alloc, &turn, facts)?;
        let deltas = differences(alloc, &self.members, &places, &turn, facts)?;
        Ok(deltas)
    }

    /// The places of the members to ask of a turn.
    fn asked<F: Facts>(
        &self,
        alloc: Global,
        turn: &RowTurn,
        facts: &F,
    ) -> Result<BTreeSet<usize, Global>, NoMemory>
        ensures { IfOk result (λ places. AreAsked self.now (F.map facts.now) turn.now places.keys) }
    {
        let key = self.left.key();
        if key.is_timed() {
            return all_places(alloc, self.members.len());
        }
        let mut places = BTreeSet::new(alloc);
        add_reached(&mut places, &self.reached, key, turn.went.as_slice(), facts)?;
        add_reached(&mut places, &self.reached, key, turn.came.as_slice(), facts)?;
        Ok(places)
    }

    /// Candidates of the member in a place leave and then come; `so_far` is what has changed in its rows so far, and the answer what
    /// has then. A candidate costs a hash or three, the logarithm of what has the same join value, and a test of the left rows that are
    /// sought.
    pub fn turn_names<F: Facts>(
        &mut self,
        alloc: Global,
        place: usize,
        so_far: Delta,
        gone: &[Named],
        come: &[Named],
        facts: &F,
    ) -> Result<Delta, NoMemory>
        requires { place < length self.now.members.items }
        ensures { IfOk result (λ delta. IsMemberTurned self.old self.new (F.map facts.now) place gone.now come.now so_far delta) }
    {
        let member = &mut self.members[place];
        let delta = names_turned(member, alloc, &self.left, so_far, gone, come, facts)?;
        if self.left.key().is_timed() {
            return Ok(delta);
        }
        take_values(&mut self.reached, member, place, gone, facts);
        put_values(&mut self.reached, alloc, member, place, come, facts)?;
        Ok(delta)
    }
}
