ghost use Rattle.std.specs.Prelude.{◌≡◌, ℕ, [], false, true, length, Some, slice_get, IfOk, OnOk};
ghost use Rattle.join_memory.specs.Joined.{has_name};
ghost use Rattle.rete_net.specs.Answers.{answer_in, AreRuled, IsAnswerPut};
ghost use Rattle.rete_net.specs.Dropped.{rows_for, with_rows, AreDue, AreListed, HasNoOld};
ghost use Rattle.rete_net.specs.Indexes.{IsNodeFound};
ghost use Rattle.fan_join.specs.Reaching.{has_place};
ghost use Rattle.fx_base.specs.declared.fact.Fact.{Fact as FactData};
ghost use Rattle.rete_net.specs.declared.node.NetNode.{NetNode as NetNodeData};

use crate::answered::Answered;
use crate::due::{first_below, put_all};
use crate::index::Index;
use fx_base::{Copies, Facts, NoMemory, Seq, TypeId};
use row_delta::{Named, Row};
use std::alloc::Global;
use std::collections::BTreeSet;

/// Rows of the rule in a place of the program, in order.
#[derive(Drop)]
pub struct RuleRows {
    pub place: usize,
    pub rows: Seq<Row>,
}

/// The nodes of the types of the old facts. It costs a look at each of these, and for each type its nodes.
pub(crate) fn with_old<F: Facts>(
    alloc: Global,
    index: &Index,
    old: &[Named],
    facts: &F,
) -> Result<BTreeSet<usize, Global>, NoMemory>
    ensures { IfOk result (λ due. (k : ℕ) (n : NetNodeData) → IsNodeFound index.now k n → has_place due.keys k ≡ false → HasNoOld (F.map facts.now) (has_name old.now) n) }
{
    let mut due = BTreeSet::new(alloc);
    let mut types = BTreeSet::new(alloc);
    for named in old {
        put_old(&mut due, &mut types, index, *named, facts)?;
    }
    Ok(due)
}

// Puts the nodes of the type of an old fact that is at hand.
fn put_old<F: Facts>(
    due: &mut BTreeSet<usize, Global>,
    types: &mut BTreeSet<usize, Global>,
    index: &Index,
    named: Named,
    facts: &F,
) -> Result<(), NoMemory>
    ensures put { OnOk result (AreDue index.now types.old.keys due.old.keys → AreDue index.now types.new.keys due.new.keys) }
    ensures kept { OnOk result ((ty : ℕ) → has_place types.old.keys ty ≡ true → has_place types.new.keys ty ≡ true) }
    ensures there { OnOk result ((f : FactData) → F.map facts.now named.tag ≡ Some f → has_place types.new.keys f.ty.0 ≡ true) }
{
    match facts.fact(named.tag) {
        Some(fact) => put_type(due, types, index, fact.ty),
        None => Ok(()),
    }
}

// Puts a type, and its nodes if it was not there.
fn put_type(
    due: &mut BTreeSet<usize, Global>,
    types: &mut BTreeSet<usize, Global>,
    index: &Index,
    ty: TypeId,
) -> Result<(), NoMemory>
    ensures put { OnOk result (AreDue index.now types.old.keys due.old.keys → AreDue index.now types.new.keys due.new.keys) }
    ensures kept { OnOk result ((other : ℕ) → has_place types.old.keys other ≡ true → has_place types.new.keys other ≡ true) }
    ensures there { OnOk result (has_place types.new.keys ty.0 ≡ true) }
{
    let fresh = types.insert(usize::from(ty.0))?;
    if !fresh {
        return Ok(());
    }
    put_all(due, index.of_type(ty))?;
    Ok(())
}

/// Puts the rows that the node in a place dropped, where there are some.
pub(crate) fn put_dropped(
    dropped: &mut Answered<Seq<Row>>,
    index: &Index,
    place: usize,
    rows: Seq<Row>,
) -> Result<(), NoMemory>
    ensures put { OnOk result (dropped.old.none ≡ [] → IsAnswerPut index.now place rows dropped.old dropped.new) }
    ensures nothing { OnOk result (rows ≡ [] → dropped.new ≡ dropped.old) }
{
    if rows.as_slice().is_empty() {
        return Ok(());
    }
    dropped.put(index, place, rows)
}

// Puts the entry of a rule, where rows of it were dropped.
fn put_rows(
    answers: &mut Vec<RuleRows>,
    alloc: Global,
    place: usize,
    rows: &Seq<Row>,
) -> Result<(), NoMemory>
    ensures { OnOk result (answers.new.items ≡ with_rows answers.old.items place rows.now) }
{
    if rows.as_slice().is_empty() {
        return Ok(());
    }
    let rows = rows.copy(alloc)?;
    answers.push(RuleRows { place, rows })?;
    Ok(())
}

/// The rows that the last nodes of the rules dropped, for the rules of which rows were dropped, in their order.
pub(crate) fn rows_of_rules(
    alloc: Global,
    dropped: &Answered<Seq<Row>>,
    ends: &[usize],
) -> Result<Vec<RuleRows>, NoMemory>
    ensures listed { IfOk result (λ answers. AreListed answers.items (length ends.now)) }
    ensures rows { IfOk result (λ answers. dropped.now.none ≡ [] → AreRuled dropped.now ends.now
        → (place end : ℕ) → slice_get ends.now place ≡ Some end → rows_for answers.items place ≡ answer_in dropped.now end) }
{
    let mut answers = Vec::new(alloc);
    let mut next = 0;
    'rules: while let Some(place) = first_below(dropped.rules(), next, ends.len()) {
        let rows = dropped.answer(ends[place]);
        put_rows(&mut answers, alloc, place, rows)?;
        next = place + 1;
    }
    Ok(answers)
}
