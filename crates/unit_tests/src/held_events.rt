use crate::pending::{comes, fire_one};
use agenda::Agenda;
use fx_base::{NoMemory, RuleId, Tag};
use retention::Retention;
use std::test::Fail;

/// Holds events that are not held yet, each to the same moment.
fn hold_all(retention: &mut Retention, tags: &[u64], past_from: i64) -> Result<(), NoMemory> {
    for tag in tags {
        retention.release(Tag(*tag));
        retention.hold(Tag(*tag), past_from)?;
    }
    Ok(())
}

#[test]
fn an_event_past_its_life_lingers_while_it_is_named(rt: HostRuntime) -> Result<(), Fail> {
    let alloc = rt.alloc();
    let mut agenda = Agenda::new(alloc, &[0])?;
    agenda.change(RuleId(0), comes(alloc, 2)?)?;
    let mut retention = Retention::new(alloc);
    hold_all(&mut retention, &[1, 2], 5)?;
    let old = retention.past(alloc, 5, &[], &agenda)?;
    assert!(rt; old.contains(&1));
    assert!(rt; !old.contains(&2));
    fire_one(alloc, &mut agenda)?;
    let old = retention.past(alloc, 5, &[Tag(2)], &agenda)?;
    assert!(rt; old.contains(&2));
    Ok(())
}
