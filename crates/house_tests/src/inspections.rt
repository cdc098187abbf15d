use crate::programs::program;
use crate::sessions::item;
use expiry_infer::lives as inferred;
use fx_base::{FactId, NoMemory, Seq, Text};
use script_read::{Change, Given};
use session::{DetailedSession, Inspect, Session};
use std::alloc::Global;
use std::test::Fail;

/// The item with this id gets another price.
fn repriced(alloc: Global, id: u64, price: i64) -> Result<Change, NoMemory> {
    let given = (Text::new(alloc, "price")?, Given::Int(price));
    Ok(Change::Modify {
        ty: Text::new(alloc, "Item")?,
        id: FactId(id),
        fields: Seq::from_vec(vec![in alloc; given]?),
    })
}

/// What an engine over these rules, which are accepted, tells 5 ms after two items came and the first of them got another price.
fn told<E: Inspect>(alloc: Global, rules: &str) -> Result<String, NoMemory> {
    match program(alloc, rules) {
        Some(program) => {
            let lives = inferred(alloc, &program)?;
            let engine = E::new(alloc, program, lives)?;
            let (engine, _) = engine.apply(alloc, &item(alloc, 11)?)?;
            let (engine, _) = engine.apply(alloc, &item(alloc, 7)?)?;
            let (engine, _) = engine.apply(alloc, &repriced(alloc, 1, 12)?)?;
            let (engine, _) = engine.apply(alloc, &Change::Advance(5))?;
            let facts = engine.kept(alloc)?;
            let counts = engine.world_counts(alloc)?;
            Ok(format!(in alloc; "{facts:?} {counts:?}")?)
        }
        None => Err(NoMemory),
    }
}

const ITEM: &str = "declare Item price : long end rule dear when Item( price > 10 ) then end";

const TOLD: &str =
    "[Fact { id: FactId(2), ty: TypeId(0), entry: EntryId(0), fields: [Int(7)], tag: Tag(2), times: Times { start: 0, end: 0 } }, \
    Fact { id: FactId(1), ty: TypeId(0), entry: EntryId(0), fields: [Int(12)], tag: Tag(3), times: Times { start: 0, end: 0 } }] \
    WorldCounts { clock: 5, facts: [2], floors: [5], pending: 1 }";

#[test]
fn an_engine_tells_what_it_keeps(rt: HostRuntime) -> Result<(), Fail> {
    assert_eq!(rt; told::<Session>(rt.alloc(), ITEM)?.as_str(), TOLD);
    assert_eq!(rt; told::<DetailedSession>(rt.alloc(), ITEM)?.as_str(), TOLD);
    Ok(())
}
