use fact_store::FactStore;
use fx_base::{EntryId, Fact, FactId, Facts, Seq, Tag, Times, TypeId};
use std::alloc::Global;
use std::test::Fail;

fn fact(alloc: Global, id: u64, tag: u64) -> Fact {
    Fact {
        id: FactId(id),
        ty: TypeId(3),
        entry: EntryId(0),
        fields: Seq::from_vec(Vec::new(alloc)),
        tag: Tag(tag),
        times: Times { start: 0, end: 0 },
    }
}

/// Whether a fact is held now whose tag was new.
fn hold(store: &mut FactStore, fact: Fact) -> bool {
    match store.fact(fact.tag) {
        Some(_) => false,
        None => store.put(fact).is_ok(),
    }
}

/// Whether the newest version of the id 7 has this tag.
fn is_newest(store: &FactStore, tag: u64) -> bool {
    match store.get(FactId(7)) {
        Some(fact) => fact.tag == Tag(tag),
        None => false,
    }
}

/// Whether the fact with this tag was the one taken.
fn takes(store: &mut FactStore, tag: u64) -> bool {
    match store.take(Tag(tag)) {
        Some(fact) => fact.tag == Tag(tag) && fact.id == FactId(7),
        None => false,
    }
}

#[test]
fn a_modified_fact_is_held_twice_and_counts_once(rt: HostRuntime) -> Result<(), Fail> {
    let mut store = FactStore::new(rt.alloc());
    assert!(rt; hold(&mut store, fact(rt.alloc(), 7, 1)));
    assert!(rt; hold(&mut store, fact(rt.alloc(), 7, 2)));
    assert_eq!(rt;
        store.tags(rt.alloc())?.as_slice(),
        [Tag(1), Tag(2)].as_slice()
    );
    assert_eq!(rt; store.facts(rt.alloc())?.len(), 2);
    assert_eq!(rt; store.held_of(TypeId(3)), 1);
    assert!(rt; is_newest(&store, 2));
    assert!(rt; takes(&mut store, 2));
    assert!(rt; is_newest(&store, 1));
    assert_eq!(rt; store.held_of(TypeId(3)), 1);
    Ok(())
}
