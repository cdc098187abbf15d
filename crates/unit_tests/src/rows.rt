use fx_base::{Copies, FactId, NoMemory, RuleId, Seq, Tag};
use row_delta::{Delta, Extra, Named, Row};
use std::alloc::Global;
use std::test::Fail;

pub(crate) fn row_of_one_fact(alloc: Global) -> Result<Row, NoMemory> {
    let named = Named {
        id: FactId(1),
        tag: Tag(3),
    };
    Ok(Row {
        facts: Seq::from_vec(vec![in alloc; named]?),
        values: Seq::from_vec(vec![in alloc; -2]?),
    })
}

#[test]
fn a_row_is_copied(rt: HostRuntime) -> Result<(), Fail> {
    let row = row_of_one_fact(rt.alloc())?;
    assert_eq!(rt; row.copy(rt.alloc())?, row);
    Ok(())
}

/// Whether one row alone goes, or comes.
fn is_only(rows: &[Row], others: &[Row], one: &[Row]) -> bool {
    rows == one && others.is_empty()
}

#[test]
fn a_row_comes_and_goes(rt: HostRuntime) -> Result<(), Fail> {
    let alloc = rt.alloc();
    let one = vec![in alloc; row_of_one_fact(alloc)?]?;
    let goes = Delta::between(alloc, &one, &[])?;
    assert!(rt; is_only(goes.gone.as_slice(), goes.come.as_slice(), &one));
    let comes = Delta::between(alloc, &[], &one)?;
    assert!(rt; is_only(comes.come.as_slice(), comes.gone.as_slice(), &one));
    assert_eq!(rt; comes.applied(alloc, &[])?, one);
    let net = comes.then(alloc, goes)?;
    assert!(rt; is_only(net.gone.as_slice(), net.come.as_slice(), &[]));
    Ok(())
}

pub(crate) fn extra(alloc: Global) -> Result<Extra, NoMemory> {
    Ok(Extra {
        rule: RuleId(2),
        condition: 1,
        row: row_of_one_fact(alloc)?,
        count: 4,
        values: Seq::from_vec(vec![in alloc; 5, 6]?),
    })
}

#[test]
fn an_extra_is_copied(rt: HostRuntime) -> Result<(), Fail> {
    let extra = extra(rt.alloc())?;
    assert_eq!(rt; extra.copy(rt.alloc())?, extra);
    Ok(())
}
