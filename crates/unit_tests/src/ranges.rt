use fx_base::NoMemory;
use range_index::{PlacedRange, RangeIndex};
use std::alloc::Global;
use std::test::Fail;

/// The places that are found for a number.
fn places_with(alloc: Global, index: &RangeIndex, number: i64) -> Result<Vec<usize>, NoMemory> {
    let mut places = Vec::new(alloc);
    let mut hits = index.hits(number);
    'hits: while let Some(place) = hits.next() {
        places.push(place)?;
    }
    Ok(places)
}

/// The least and the most number of ranges, and their places. The sixth has no number.
const RANGES: &[(i64, i64, usize)] = &[
    (5, 9, 1),
    (1, 3, 2),
    (7, 20, 3),
    (9, 9, 4),
    (i64::MIN, i64::MAX, 5),
    (4, 2, 6),
    (30, 40, 7),
];

fn put_all(index: &mut RangeIndex, ranges: &[(i64, i64, usize)]) -> Result<(), NoMemory> {
    for (least, most, place) in ranges {
        index.put(PlacedRange {
            least: *least,
            most: *most,
            place: *place,
        })?;
    }
    Ok(())
}

#[test]
fn ranges_that_have_a_number_are_found_whatever_their_order(rt: HostRuntime) -> Result<(), Fail> {
    let alloc = rt.alloc();
    let mut index = RangeIndex::new(alloc);
    assert_eq!(rt; places_with(alloc, &index, 9)?.as_slice(), [].as_slice());
    put_all(&mut index, RANGES)?;
    assert_eq!(rt;
        places_with(alloc, &index, 9)?.as_slice(),
        [1, 3, 4, 5].as_slice()
    );
    index.settle(alloc)?;
    assert_eq!(rt;
        places_with(alloc, &index, 9)?.as_slice(),
        [5, 1, 3, 4].as_slice()
    );
    assert_eq!(rt;
        places_with(alloc, &index, 3)?.as_slice(),
        [5, 2].as_slice()
    );
    assert_eq!(rt; places_with(alloc, &index, 4)?.as_slice(), [5].as_slice());
    assert_eq!(rt;
        places_with(alloc, &index, 20)?.as_slice(),
        [5, 3].as_slice()
    );
    assert_eq!(rt;
        places_with(alloc, &index, 40)?.as_slice(),
        [5, 7].as_slice()
    );
    assert_eq!(rt; places_with(alloc, &index, 41)?.as_slice(), [5].as_slice());
    assert_eq!(rt;
        places_with(alloc, &index, i64::MIN)?.as_slice(),
        [5].as_slice()
    );
    Ok(())
}

#[test]
fn ranges_that_are_put_behind_a_tree_are_found(rt: HostRuntime) -> Result<(), Fail> {
    let alloc = rt.alloc();
    let mut index = RangeIndex::new(alloc);
    put_all(&mut index, RANGES)?;
    index.settle(alloc)?;
    put_all(&mut index, &[(0, 4, 8), (41, 41, 9)])?;
    assert_eq!(rt;
        places_with(alloc, &index, 4)?.as_slice(),
        [5, 8].as_slice()
    );
    assert_eq!(rt;
        places_with(alloc, &index, 41)?.as_slice(),
        [5, 9].as_slice()
    );
    index.settle(alloc)?;
    assert_eq!(rt;
        places_with(alloc, &index, 3)?.as_slice(),
        [5, 8, 2].as_slice()
    );
    Ok(())
}
