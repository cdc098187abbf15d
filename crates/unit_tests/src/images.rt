use crate::rows::{extra, row_of_one_fact};
use crate::texts::values;
use checkpoint::{DecodeFault, FiredMatch, Image, RunPart, decode, encode};
use fx_base::{EntryId, Fact, FactId, NoMemory, RuleId, Seq, Tag, Times, TypeId};
use std::alloc::Global;
use std::test::Fail;

/// An event with a value of each kind.
fn event(alloc: Global) -> Result<Fact, NoMemory> {
    Ok(Fact {
        id: FactId(1),
        ty: TypeId(0),
        entry: EntryId(1),
        fields: values(alloc)?,
        tag: Tag(2),
        times: Times { start: 5, end: 7 },
    })
}

/// An image with one of each. The last of its bytes are the number of extras and the extra.
pub(crate) fn image(alloc: Global) -> Result<Image, NoMemory> {
    let run = RunPart {
        rules: Seq::from_vec(Vec::from_slice(alloc, b"rule")?),
        lines: 3,
        firings: 1,
        faulty: false,
    };
    let fired = FiredMatch {
        rule: RuleId(0),
        row: row_of_one_fact(alloc)?,
    };
    Ok(Image {
        run,
        clock: 9,
        begun: true,
        last_starts: Seq::from_vec(vec![in alloc; 0, 5]?),
        promises: Seq::from_vec(vec![in alloc; 0, -6]?),
        next_id: 2,
        next_tag: 3,
        facts: Seq::from_vec(vec![in alloc; event(alloc)?]?),
        fired: Seq::from_vec(vec![in alloc; fired]?),
        extras: Seq::from_vec(vec![in alloc; extra(alloc)?]?),
    })
}

#[test]
fn an_image_is_read_from_its_bytes(rt: HostRuntime) -> Result<(), Fail> {
    let alloc = rt.alloc();
    let bytes = encode(alloc, &image(alloc)?)?;
    assert_eq!(rt; bytes.len(), 313);
    let again = decode(alloc, bytes.as_slice())?;
    assert_eq!(rt; encode(alloc, &again)?, bytes);
    Ok(())
}

/// Bytes to be cut from the end of an image's, those that come in their place, and whether that is refused.
const CHANGES: &[(usize, &[u8], bool)] = &[
    (0, b"", false),
    (1, b"", true),
    (0, b"\x00", true),
    (83, b"\x00\x00\x00\x00\x00\x00\x00\x00", false),
    (83, b"\x10\x00\x00\x00\x00\x00\x00\x00", true),
    (313, b"", true),
];

/// Whether these bytes, changed at the end, are no image's.
fn is_refused(alloc: Global, bytes: &[u8], cut: usize, more: &[u8]) -> Result<bool, NoMemory> {
    let kept = bytes.len().saturating_sub(cut);
    let mut changed = Vec::from_slice(alloc, &bytes[..kept])?;
    changed.extend_from_slice(more)?;
    match decode(alloc, changed.as_slice()) {
        Ok(_) => Ok(false),
        Err(DecodeFault::BadImage) => Ok(true),
        Err(DecodeFault::NoMemory) => Err(NoMemory),
    }
}

#[test]
fn other_bytes_are_refused(rt: HostRuntime) -> Result<(), Fail> {
    let alloc = rt.alloc();
    let bytes = encode(alloc, &image(alloc)?)?;
    for (cut, more, refused) in CHANGES {
        assert_eq!(rt; is_refused(alloc, bytes.as_slice(), *cut, more)?, *refused);
    }
    Ok(())
}
