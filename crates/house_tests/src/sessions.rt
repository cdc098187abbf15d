ghost use Rattle.std.specs.Prelude.{◌≡◌, IfOk};

use crate::programs::program;
use checkpoint::{ImagePieces, LentImage, RunPart, encode};
use expiry_infer::lives as inferred;
use fx_base::{NoMemory, Seq, Text};
use rule_model::LifeTable;
use script_read::{Change, Given};
use session::Session;
use std::alloc::Global;
use std::test::Fail;

/// A session over these rules, which are accepted.
fn opened(alloc: Global, rules: &str) -> Result<Session, NoMemory>
    ensures { IfOk result (λ s. s.state.value.next_tag ≡ 1) }
{
    match program(alloc, rules) {
        Some(program) => {
            let lives = inferred(alloc, &program)?;
            Session::new(alloc, program, lives)
        }
        None => Err(NoMemory),
    }
}

/// A new item with this price.
pub(crate) fn item(alloc: Global, price: i64) -> Result<Change, NoMemory> {
    let given = (Text::new(alloc, "price")?, Given::Int(price));
    Ok(Change::Insert {
        ty: Text::new(alloc, "Item")?,
        entry: None,
        fields: Seq::from_vec(vec![in alloc; given]?),
    })
}

const ITEM: &str = "declare Item price : long end rule dear when Item( price > 10 ) then end";

#[test]
fn an_engine_answers_changes_and_firings(rt: HostRuntime) -> Result<(), Fail> {
    let session = opened(rt.alloc(), ITEM)?;
    let (session, lines) = session.apply(rt.alloc(), &item(rt.alloc(), 11)?)?;
    let (_, fired) = session.fire_one(rt.alloc())?;
    assert_eq!(rt;
        format!(in rt.alloc(); "{lines:?} {fired:?}")?.as_str(),
        "[New { id: FactId(1), ty: TypeId(0) }] Yes([Fire { rule: RuleId(0), cells: [Fact(FactId(1))] }])"
    );
    Ok(())
}

#[test]
fn an_engine_has_a_clock(rt: HostRuntime) -> Result<(), Fail> {
    let session = opened(rt.alloc(), ITEM)?;
    let (session, lines) = session.apply(rt.alloc(), &Change::Advance(5))?;
    assert!(rt; lines.as_slice().is_empty() && !session.due());
    assert_eq!(rt; session.clock(), 5);
    Ok(())
}

/// What an image says of a run that has just begun.
fn first_part(alloc: Global) -> RunPart {
    RunPart {
        rules: Seq::from_vec(Vec::new(alloc)),
        lines: 0,
        firings: 0,
        faulty: false,
    }
}

/// The bytes of an image of a few facts, piece by piece.
fn all_pieces(alloc: Global, image: LentImage<'_>) -> Result<Vec<u8>, NoMemory> {
    let mut pieces = ImagePieces::new(image);
    let mut bytes = Vec::new(alloc);
    for _ in 0..8 {
        pieces.put_next(&mut bytes)?;
    }
    Ok(bytes)
}

#[test]
fn an_engine_tells_what_it_would_save(rt: HostRuntime) -> Result<(), Fail> {
    let alloc = rt.alloc();
    let session = opened(alloc, ITEM)?;
    let (session, _) = session.apply(alloc, &item(alloc, 11)?)?;
    assert_eq!(rt; session.tags_given(), 1);
    let told = all_pieces(alloc, session.image(alloc, first_part(alloc))?)?;
    let saved = session.save(alloc, first_part(alloc))?;
    assert!(rt; told.as_slice() == encode(alloc, &saved)?.as_slice());
    Ok(())
}

const EVENTS: &str = "declare A @role( event ) end declare B @role( event ) end declare P end
    rule r when A() B() P() then end";

/// The table of lives of these rules, as it is shown for debugging.
fn lives(alloc: Global, rules: &str) -> Result<String, NoMemory> {
    match program(alloc, rules) {
        Some(program) => {
            let table = LifeTable::without(alloc, &program)?;
            Ok(format!(in alloc; "{:?}", table.lives)?)
        }
        None => Err(NoMemory),
    }
}

#[test]
fn events_live_for_ever(rt: HostRuntime) -> Result<(), Fail> {
    assert_eq!(rt;
        lives(rt.alloc(), EVENTS)?.as_str(),
        "[Infinite, Infinite, Plain]"
    );
    Ok(())
}
