use crate::images::image;
use checkpoint::{DecodeFault, encode};
use desk_image::{DeskImage, decode_desk, lives_front};
use fx_base::{NoMemory, Seq};
use rule_model::{Life, LifeTable};
use std::alloc::Global;
use std::test::Fail;

/// A table with a life of each kind.
fn lives(alloc: Global) -> Result<LifeTable, NoMemory> {
    let lives = vec![in alloc;
        Life::Plain,
        Life::Explicit(-2),
        Life::Finite(258),
        Life::Infinite,
    ]?;
    Ok(LifeTable {
        lives: Seq::from_vec(lives),
    })
}

/// What stands in front of an image to say them.
const FRONT: &[u8] =
    b"FXC2\x00\x00\x00\x00\x00\x00\x00\x04\x00\x01\xff\xff\xff\xff\xff\xff\xff\xfe\x02\x00\x00\x00\x00\x00\x00\x01\x02\x03";

/// The bytes of an image behind others.
fn behind(alloc: Global, front: &[u8]) -> Result<Vec<u8>, NoMemory> {
    let mut bytes = Vec::from_slice(alloc, front)?;
    let image = encode(alloc, &image(alloc)?)?;
    bytes.extend_from_slice(image.as_slice())?;
    Ok(bytes)
}

/// The bytes of an image with the lives that it says.
fn spelled(alloc: Global, desk: &DeskImage) -> Result<Vec<u8>, NoMemory> {
    let mut bytes = match &desk.lives {
        Some(lives) => lives_front(alloc, lives)?,
        None => Vec::new(alloc),
    };
    let image = encode(alloc, &desk.image)?;
    bytes.extend_from_slice(image.as_slice())?;
    Ok(bytes)
}

#[test]
fn lives_stand_in_front_of_an_image(rt: HostRuntime) -> Result<(), Fail> {
    let alloc = rt.alloc();
    assert_eq!(rt; lives_front(alloc, &lives(alloc)?)?.as_slice(), FRONT);
    Ok(())
}

/// What stands in front of an image, and whether that is refused.
const FRONTS: &[(&[u8], bool)] = &[
    (b"", false),
    (FRONT, false),
    (b"FXC2\x00\x00\x00\x00\x00\x00\x00\x00", false),
    (b"FXC2\x00\x00\x00\x00\x00\x00\x00\x01\x04", true),
    (b"FXC2\x00\x00\x00\x00\x00\x00\x00\x01", true),
    (b"FXC2\x10\x00\x00\x00\x00\x00\x00\x00", true),
    (b"FXC2", true),
    (b"FXC3", true),
];

/// Whether no image of a desk has these bytes, or one that is spelled otherwise.
fn is_refused(alloc: Global, bytes: &[u8]) -> Result<bool, NoMemory> {
    match decode_desk(alloc, bytes) {
        Ok(desk) => Ok(spelled(alloc, &desk)?.as_slice() != bytes),
        Err(DecodeFault::BadImage) => Ok(true),
        Err(DecodeFault::NoMemory) => Err(NoMemory),
    }
}

#[test]
fn an_image_of_a_desk_is_read_from_its_bytes(rt: HostRuntime) -> Result<(), Fail> {
    let alloc = rt.alloc();
    for (front, refused) in FRONTS {
        let bytes = behind(alloc, front)?;
        assert_eq!(rt; is_refused(alloc, bytes.as_slice())?, *refused);
    }
    Ok(())
}
