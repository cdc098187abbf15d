use candidate_source::Sources;
use fx_base::{EntryId, NoMemory, Seq, TypeId};
use rule_model::{Pattern, WindowTag};
use std::alloc::Global;
use std::test::Fail;

/// Any fact of a type.
fn any_of(alloc: Global, ty: u16) -> Pattern {
    Pattern {
        ty: TypeId(ty),
        entry: EntryId(0),
        window: WindowTag::Whole,
        alone: Seq::from_vec(Vec::new(alloc)),
        joined: Seq::from_vec(Vec::new(alloc)),
        times: Seq::from_vec(Vec::new(alloc)),
    }
}

/// Whether the node in a place has this first node of its source, if it is of one, and a source of this type.
fn is_led(sources: &Sources, place: usize, lead: Option<usize>, ty: Option<u16>) -> bool {
    let found = match sources.source(place) {
        Some(source) => Some(source.pattern().ty.0),
        None => None,
    };
    sources.lead(place) == lead && found == ty
}

fn three_of_two(alloc: Global) -> Result<Sources, NoMemory> {
    let mut sources = Sources::new(alloc);
    sources.put_lead(alloc, any_of(alloc, 7))?;
    sources.put_node(None)?;
    sources.put_lead(alloc, any_of(alloc, 8))?;
    sources.put_node(Some(0))?;
    Ok(sources)
}

#[test]
fn nodes_have_the_sources_that_they_were_put_with(rt: HostRuntime) -> Result<(), Fail> {
    let mut sources = three_of_two(rt.alloc())?;
    assert_eq!(rt; sources.count(), 2);
    assert!(rt; is_led(&sources, 0, Some(0), Some(7)));
    assert!(rt; is_led(&sources, 1, None, None));
    assert!(rt; is_led(&sources, 2, Some(2), Some(8)));
    assert!(rt; is_led(&sources, 3, Some(0), Some(7)));
    assert!(rt; is_led(&sources, 4, None, None));
    assert!(rt; sources.take_handed(rt.alloc(), 3).come.is_empty());
    Ok(())
}
