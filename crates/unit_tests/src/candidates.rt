use alpha_memory::{AlphaMemory, JoinIndex};
use fx_base::{FactId, NoMemory, Tag, Value};
use row_delta::Named;
use std::test::Fail;

fn named(id: u64, tag: u64) -> Named {
    Named {
        id: FactId(id),
        tag: Tag(tag),
    }
}

/// Adds candidates, each with its join value; of one with a tag that is there already the older one goes.
fn add_all(memory: &mut AlphaMemory, candidates: &[(Named, i64)]) -> Result<(), NoMemory> {
    for (candidate, join) in candidates {
        if !memory.drop_tag(candidate.tag) {
            memory.add(*candidate, Value::Int(*join))?;
        }
    }
    Ok(())
}

/// Whether these and no others have the join value, in this order.
fn have_join(memory: &AlphaMemory, join: i64, candidates: &[Named]) -> Result<bool, NoMemory> {
    Ok(memory.equal_to(&Value::Int(join))?.as_slice() == candidates)
}

#[test]
fn candidates_are_found_by_their_join_value(rt: HostRuntime) -> Result<(), Fail> {
    let mut memory = AlphaMemory::new(rt.alloc());
    let all = [named(5, 1), named(6, 2), named(7, 3)];
    add_all(&mut memory, &[(all[0], 7), (all[1], 8), (all[2], 7)])?;
    assert!(rt; have_join(&memory, 7, &[all[0], all[2]])?);
    assert_eq!(rt; memory.all()?.as_slice(), all.as_slice());
    assert!(rt; memory.drop_tag(Tag(1)));
    assert!(rt; !memory.drop_tag(Tag(1)));
    assert!(rt; have_join(&memory, 7, &all[2..])?);
    Ok(())
}

#[test]
fn what_is_kept_stands_under_its_join_value(rt: HostRuntime) -> Result<(), Fail> {
    let mut index: JoinIndex<Value, u64, u64> = JoinIndex::new(rt.alloc());
    assert_eq!(rt; index.put(Value::Int(7), 1, 10)?, None);
    assert_eq!(rt; index.put(Value::Int(7), 1, 20)?, Some(10));
    assert_eq!(rt; index.get(&Value::Int(7), &1), Some(&20));
    assert_eq!(rt; index.get(&Value::Int(8), &1), None);
    assert_eq!(rt; index.take(&Value::Int(7), &1), Some(20));
    assert!(rt; index.bucket(&Value::Int(7)).is_none());
    Ok(())
}
