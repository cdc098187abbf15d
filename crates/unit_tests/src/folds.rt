use fold_fn::{AnyFold, Fold, FoldKind};
use fx_base::NoMemory;
use std::alloc::Global;
use std::test::Fail;

/// The results behind the first, the second and the third change.
type Results = (Option<i64>, Option<i64>, Option<i64>);

/// The results after each of three values has been added to a fold.
fn results(alloc: Global, kind: FoldKind, added: (i64, i64, i64)) -> Result<Results, NoMemory> {
    let mut fold = AnyFold::new(alloc, kind);
    fold.add(added.0)?;
    let first = fold.result();
    fold.add(added.1)?;
    let second = fold.result();
    fold.add(added.2)?;
    Ok((first, second, fold.result()))
}

const MAX: i64 = i64::MAX;

/// A kind, the values, and the results behind each of them.
const ROWS: &[(FoldKind, (i64, i64, i64), Results)] = &[
    (FoldKind::Count, (5, 5, 3), (Some(1), Some(2), Some(3))),
    (FoldKind::Sum, (MAX, 1, -1), (Some(MAX), None, Some(MAX))),
    (FoldKind::Least, (5, 3, 4), (Some(5), Some(3), Some(3))),
    (FoldKind::Greatest, (3, 5, 4), (Some(3), Some(5), Some(5))),
    (FoldKind::Average, (-3, 0, 4), (Some(-3), Some(-2), Some(0))),
];

#[test]
fn results_follow_the_values(rt: HostRuntime) -> Result<(), Fail> {
    for row in ROWS {
        assert_eq!(rt; results(rt.alloc(), row.0, row.1)?, row.2, "{:?}", row.0);
    }
    Ok(())
}

/// The results of the least of 3 and of 5, which is added behind it, and then of 5 alone.
fn least(alloc: Global) -> Result<Results, NoMemory> {
    let mut fold = AnyFold::new(alloc, FoldKind::Least);
    fold.add(3)?;
    let first = fold.result();
    fold.add(5)?;
    let second = fold.result();
    fold.take_back(3);
    Ok((first, second, fold.result()))
}

#[test]
fn values_are_taken_back(rt: HostRuntime) -> Result<(), Fail> {
    assert_eq!(rt; least(rt.alloc())?, (Some(3), Some(3), Some(5)));
    Ok(())
}

#[test]
fn values_are_kept(rt: HostRuntime) -> Result<(), Fail> {
    let mut fold = AnyFold::new(rt.alloc(), FoldKind::Sum);
    fold.add(5)?;
    fold.add(3)?;
    assert_eq!(rt; fold.values(rt.alloc())?.as_slice(), [3, 5].as_slice());
    Ok(())
}

#[test]
fn held_values_are_told_and_counted(rt: HostRuntime) -> Result<(), Fail> {
    let mut fold = AnyFold::new(rt.alloc(), FoldKind::Average);
    fold.add(5)?;
    fold.add(5)?;
    assert_eq!(rt; fold.count(), 2);
    assert_eq!(rt; (fold.holds(5), fold.holds(3)), (true, false));
    Ok(())
}
