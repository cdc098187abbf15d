use agenda::Agenda;
use fx_base::{FactId, NoMemory, RuleId, Seq, Tag};
use row_delta::{Delta, Named, Row};
use std::alloc::Global;
use std::test::Fail;

/// The row of one fact.
fn row_of(alloc: Global, tag: u64) -> Result<Row, NoMemory> {
    let named = Named {
        id: FactId(tag),
        tag: Tag(tag),
    };
    Ok(Row {
        facts: Seq::from_vec(vec![in alloc; named]?),
        values: Seq::from_vec(Vec::new(alloc)),
    })
}

/// One row of one fact comes.
pub(crate) fn comes(alloc: Global, tag: u64) -> Result<Delta, NoMemory> {
    let row = row_of(alloc, tag)?;
    Ok(Delta {
        gone: Seq::from_vec(Vec::new(alloc)),
        come: Seq::from_vec(vec![in alloc; row]?),
    })
}

/// Whether the first match is of this rule.
fn is_first(agenda: &Agenda, rule: u16) -> bool {
    match agenda.top() {
        Some(top) => top.rule == RuleId(rule),
        None => false,
    }
}

/// Fires the match that fires first, if one is pending.
pub(crate) fn fire_one(alloc: Global, agenda: &mut Agenda) -> Result<(), NoMemory> {
    if agenda.top().is_none() {
        return Ok(());
    }
    agenda.fire_top(alloc)?;
    Ok(())
}

#[test]
fn the_greatest_salience_fires_first(rt: HostRuntime) -> Result<(), Fail> {
    let alloc = rt.alloc();
    let mut agenda = Agenda::new(alloc, &[0, 5])?;
    agenda.change(RuleId(0), comes(alloc, 2)?)?;
    agenda.change(RuleId(1), comes(alloc, 1)?)?;
    assert!(rt; is_first(&agenda, 1));
    fire_one(alloc, &mut agenda)?;
    assert!(rt; was_fired(alloc, &agenda, 1)?);
    assert!(rt; is_first(&agenda, 0));
    fire_one(alloc, &mut agenda)?;
    assert!(rt; agenda.top().is_none());
    Ok(())
}

#[test]
fn a_tag_is_named_while_its_match_is_pending(rt: HostRuntime) -> Result<(), Fail> {
    let alloc = rt.alloc();
    let mut agenda = Agenda::new(alloc, &[0])?;
    agenda.change(RuleId(0), comes(alloc, 2)?)?;
    assert!(rt; agenda.names_tag(Tag(2)));
    assert!(rt; !agenda.names_tag(Tag(1)));
    fire_one(alloc, &mut agenda)?;
    assert!(rt; !agenda.names_tag(Tag(2)));
    let fired = vec![in alloc; row_of(alloc, 2)?]?;
    agenda.drop_fired(RuleId(0), fired);
    assert!(rt; agenda.top().is_none());
    Ok(())
}

/// Whether one match was fired, of this rule.
fn was_fired(alloc: Global, agenda: &Agenda, rule: u16) -> Result<bool, NoMemory> {
    Ok(match agenda.fired(alloc)?.as_slice() {
        [matched] => matched.rule == RuleId(rule),
        _ => false,
    })
}

#[test]
fn a_pending_match_is_marked_as_fired(rt: HostRuntime) -> Result<(), Fail> {
    let alloc = rt.alloc();
    let mut agenda = Agenda::new(alloc, &[0])?;
    agenda.change(RuleId(0), comes(alloc, 2)?)?;
    assert!(rt; !was_fired(alloc, &agenda, 0)?);
    agenda.mark(RuleId(0), row_of(alloc, 2)?)?;
    assert!(rt; agenda.top().is_none());
    assert!(rt; was_fired(alloc, &agenda, 0)?);
    Ok(())
}
