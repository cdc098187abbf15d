use due_queue::{DueMap, DueQueue, RisingMap};
use fx_base::NoMemory;
use std::ops::Bound;
use std::test::Fail;

/// Lets keys wait that do not wait yet.
fn put_all(queue: &mut DueQueue, timers: &[(i64, u64)]) -> Result<(), NoMemory> {
    for (at, key) in timers {
        if !queue.cancel(*key) {
            queue.put(*at, *key)?;
        }
    }
    Ok(())
}

#[test]
fn due_keys_come_in_the_order_of_their_moments(rt: HostRuntime) -> Result<(), Fail> {
    let mut queue = DueQueue::new(rt.alloc());
    put_all(&mut queue, &[(5, 1), (3, 2), (9, 3)])?;
    assert_eq!(rt; queue.take_due(5)?.as_slice(), [2, 1].as_slice());
    assert!(rt; queue.cancel(3));
    assert!(rt; !queue.cancel(3));
    Ok(())
}

#[test]
fn a_key_that_is_put_again_waits_for_its_new_moment(rt: HostRuntime) -> Result<(), Fail> {
    let mut waiting: DueMap<i64, u64, u64> = DueMap::new(rt.alloc());
    waiting.put(5, 1, 10)?;
    waiting.put(3, 2, 20)?;
    waiting.put(9, 1, 11)?;
    assert_eq!(rt;
        waiting.due(rt.alloc(), Bound::Unbounded)?.as_slice(),
        [2, 1].as_slice()
    );
    assert!(rt; waiting.take_due(Bound::Excluded(3)).is_none());
    assert_eq!(rt; waiting.take_due(Bound::Included(3)), Some((3, 2, 20)));
    assert_eq!(rt; waiting.moment(1), Some(9));
    assert_eq!(rt; waiting.first(), Some((9, 1)));
    assert_eq!(rt; waiting.cancel(1), Some((9, 11)));
    Ok(())
}

#[test]
fn keys_that_rise_and_others_come_in_one_order(rt: HostRuntime) -> Result<(), Fail> {
    let mut waiting: RisingMap<i64, u64, u64> = RisingMap::new(rt.alloc());
    waiting.put(3, 1, 10)?;
    waiting.put(7, 2, 20)?;
    waiting.put(5, 3, 30)?;
    assert_eq!(rt;
        waiting.due(rt.alloc(), Bound::Included(7))?.as_slice(),
        [1, 3, 2].as_slice()
    );
    assert_eq!(rt; waiting.cancel(1), Some((3, 10)));
    assert_eq!(rt; waiting.first(), Some((5, 3)));
    assert_eq!(rt; waiting.take_due(Bound::Included(6)), Some((5, 3, 30)));
    assert_eq!(rt; waiting.take_due(Bound::Unbounded), Some((7, 2, 20)));
    Ok(())
}
