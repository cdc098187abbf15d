//! The bytes of lives in front of an image.
ghost use Rattle.std.specs.Prelude.{◌≡◌, ◌++◌, ◌∷◌, codes, OnOk, IfOk};
ghost use Rattle.checkpoint.specs.Bytes.{Each, IsSigned, each_bytes, signed_bytes};
ghost use Rattle.desk_image.specs.Bytes.{AreTableLives, IsImageLife, life_bytes, lives_bytes};

use fx_base::{Millis, NoMemory};
use rule_model::{Life, LifeTable};
use std::alloc::Global;

// Appends the kind of a life and its milliseconds.
fn put_millis(kind: u8, millis: Millis, out: &mut Vec<u8>) -> Result<(), NoMemory>
    ensures appends { OnOk result (out.new.items ≡ out.old.items ++ (kind ∷ signed_bytes millis)) }
    ensures fits { OnOk result (IsSigned millis) }
{
    out.push(kind)?;
    out.extend_from_slice(&millis.to_be_bytes())?;
    Ok(())
}

// Appends a life.
fn put_life(life: Life, out: &mut Vec<u8>) -> Result<(), NoMemory>
    ensures appends { OnOk result (out.new.items ≡ out.old.items ++ life_bytes life) }
    ensures fits { OnOk result (IsImageLife life) }
{
    match life {
        Life::Plain => Ok(out.push(0)?),
        Life::Explicit(expiry) => put_millis(1, expiry, out),
        Life::Finite(millis) => put_millis(2, millis, out),
        Life::Infinite => Ok(out.push(3)?),
    }
}

// Appends lives one behind the other.
fn put_each(lives: &[Life], out: &mut Vec<u8>) -> Result<(), NoMemory>
    ensures appends { OnOk result (out.new.items ≡ out.old.items ++ each_bytes life_bytes lives.now) }
    ensures fits { OnOk result (Each IsImageLife lives.now) }
{
    for life in lives {
        put_life(*life, out)?;
    }
    Ok(())
}

/// What stands in front of the bytes of an image to say its lives: `FXC2`, the number of the lives, and each life: a byte 0 (a plain type), 1 and an
/// explicit expiry, 2 and so many milliseconds, or 3 (for ever). A number has 8 bytes, the highest first, in two's complement.
pub fn lives_front(alloc: Global, lives: &LifeTable) -> Result<Vec<u8>, NoMemory>
    ensures bytes { IfOk result (λ bytes. bytes.items ≡ codes "FXC2" ++ lives_bytes lives.now) }
    ensures fits { IfOk result (λ _. AreTableLives lives.now) }
{
    let lives = lives.lives.as_slice();
    let count = lives.len() as u64;
    let mut out = Vec::new(alloc);
    out.extend_from_slice(b"FXC2")?;
    out.extend_from_slice(&count.to_be_bytes())?;
    put_each(lives, &mut out)?;
    Ok(out)
}
