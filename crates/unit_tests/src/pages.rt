use page_map::PageMap;
use std::test::Fail;

#[test]
fn keys_of_pages_and_directories_are_found_and_stand_in_order(rt: HostRuntime) -> Result<(), Fail> {
    let mut map = PageMap::new(rt.alloc());
    map.insert(5000, 9)?;
    map.insert(130, 7)?;
    map.insert(3, 5)?;
    map.insert(4, 6)?;
    assert_eq!(rt; map.get(4), Some(6));
    assert_eq!(rt; map.replace(4, 8), Some(6));
    assert_eq!(rt; map.replace(5, 8), None);
    assert_eq!(rt;
        map.entries(rt.alloc())?.as_slice(),
        [(3, 5), (4, 8), (130, 7), (5000, 9)].as_slice()
    );
    assert_eq!(rt; map.remove(130), Some(7));
    assert_eq!(rt; map.remove(130), None);
    assert_eq!(rt; map.get(130), None);
    assert_eq!(rt; map.get(5000), Some(9));
    Ok(())
}

/// Keys in the order in which they come: some that rise, one behind a gap, some before all others and then up to them, and some
/// that rise behind another gap, below one that is there.
const KEYS: &[u64] = &[
    20480, 22528, 24576, 225280, 7, 16384, 28672, 208896, 219136, 208899,
];

/// The same keys with themselves as their values, in order.
const ENTRIES: &[(u64, u64)] = &[
    (7, 7),
    (16384, 16384),
    (20480, 20480),
    (22528, 22528),
    (24576, 24576),
    (28672, 28672),
    (208896, 208896),
    (208899, 208899),
    (219136, 219136),
    (225280, 225280),
];

#[test]
fn keys_behind_gaps_and_before_others_are_found(rt: HostRuntime) -> Result<(), Fail> {
    let mut map = PageMap::new(rt.alloc());
    for key in KEYS.iter() {
        map.insert(*key, *key)?;
        assert_eq!(rt; map.get(*key), Some(*key));
    }
    assert_eq!(rt; map.entries(rt.alloc())?.as_slice(), ENTRIES);
    assert_eq!(rt; map.get(208898), None);
    assert_eq!(rt; map.get(225281), None);
    assert_eq!(rt; map.replace(208896, 1), Some(208896));
    assert_eq!(rt; map.replace(7, 2), Some(7));
    assert_eq!(rt; map.replace(8, 2), None);
    assert_eq!(rt; map.remove(208896), Some(1));
    assert_eq!(rt; map.remove(208899), Some(208899));
    assert_eq!(rt; map.remove(219136), Some(219136));
    assert_eq!(rt; map.remove(7), Some(2));
    map.insert(u64::MAX, 3)?;
    map.insert(7, 4)?;
    assert_eq!(rt; map.get(u64::MAX), Some(3));
    assert_eq!(rt; map.remove(208896), None);
    assert_eq!(rt; map.remove(16384), Some(16384));
    assert_eq!(rt;
        map.entries(rt.alloc())?.as_slice(),
        [
            (7, 4),
            (20480, 20480),
            (22528, 22528),
            (24576, 24576),
            (28672, 28672),
            (225280, 225280),
            (u64::MAX, 3)
        ]
        .as_slice()
    );
    Ok(())
}
