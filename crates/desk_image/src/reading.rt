//! Lives from the front of bytes.
ghost use Rattle.std.specs.Prelude.{◌≡◌, ◌≤◌, length, option_map, IfOk, IfErr, Some};
ghost use Rattle.std.specs.Int.{w64};
ghost use Rattle.checkpoint.specs.Reading.{TellsDecodeFault, read_items, read_number, signed_at};
ghost use Rattle.desk_image.specs.Reading.{behind_lives_header, life_at, lives_at};

use checkpoint::DecodeFault;
use fx_base::{Millis, Seq};
use rule_model::{Life, LifeTable};
use std::alloc::Global;

/// The fewest bytes of a life.
const LIFE_LEAST: usize = 1;

// A number of 8 bytes, and the bytes behind it.
fn number_at(from: &[u8]) -> Result<(u64, &[u8]), DecodeFault>
    ensures found { IfOk result (λ f. read_number w64 from.now ≡ Some (f.0, f.1.now)) }
    ensures bad { IfErr result (TellsDecodeFault (read_number w64 from.now)) }
{
    if from.len() < 8 {
        return Err(DecodeFault::BadImage);
    }
    let (front, rest) = from.split_at(8);
    let number = u64::from_be_bytes([
        front[0], front[1], front[2], front[3], front[4], front[5], front[6], front[7],
    ]);
    Ok((number, rest))
}

// So many milliseconds, and the bytes behind them.
#[tactic(auto, unfolding(checkpoint::specs::Reading::signed_at))]
fn millis_at(from: &[u8]) -> Result<(Millis, &[u8]), DecodeFault>
    ensures found { IfOk result (λ f. signed_at from.now ≡ Some (f.0, f.1.now)) }
    ensures bad { IfErr result (TellsDecodeFault (signed_at from.now)) }
{
    let (bits, rest) = number_at(from)?;
    Ok((bits.cast_signed(), rest))
}

// A life, and the bytes behind it.
#[tactic(auto, unfolding(crate::specs::Reading::life_at))]
fn life_at(from: &[u8]) -> Result<(Life, &[u8]), DecodeFault>
    ensures found { IfOk result (λ f. life_at from.now ≡ Some (f.0, f.1.now)) }
    ensures bad { IfErr result (TellsDecodeFault (life_at from.now)) }
{
    match from {
        [0, rest @ ..] => Ok((Life::Plain, rest)),
        [1, rest @ ..] => {
            let (expiry, behind) = millis_at(rest)?;
            Ok((Life::Explicit(expiry), behind))
        }
        [2, rest @ ..] => {
            let (millis, behind) = millis_at(rest)?;
            Ok((Life::Finite(millis), behind))
        }
        [3, rest @ ..] => Ok((Life::Infinite, rest)),
        _ => Err(DecodeFault::BadImage),
    }
}

// So many lives, and the bytes behind them. Takes memory for as many at once, so there are at least so many bytes.
fn each_at(alloc: Global, count: u64, from: &[u8]) -> Result<(Seq<Life>, &[u8]), DecodeFault>
    requires { count ≤ length from.now }
    ensures found { IfOk result (λ f. read_items life_at count from.now ≡ Some (f.0, f.1.now)) }
    ensures bad { IfErr result (TellsDecodeFault (read_items life_at count from.now)) }
{
    let mut lives = Vec::with_capacity(alloc, count as usize)?;
    let mut rest = from;
    for _ in 0..count {
        let (life, behind) = life_at(rest)?;
        lives.push(life).unwrap();
        rest = behind;
    }
    Ok((Seq::from_vec(lives), rest))
}

/// As many lives as are said, where the bytes can have so many, and the bytes behind them: else it takes no memory.
#[tactic(auto, unfolding(crate::specs::Reading::lives_at, checkpoint::specs::Reading::list_at))]
pub(crate) fn lives_at(alloc: Global, from: &[u8]) -> Result<(LifeTable, &[u8]), DecodeFault>
    ensures found { IfOk result (λ f. lives_at from.now ≡ Some (f.0, f.1.now)) }
    ensures bad { IfErr result (TellsDecodeFault (lives_at from.now)) }
{
    let (count, rest) = number_at(from)?;
    if ((rest.len() / LIFE_LEAST) as u64) < count {
        return Err(DecodeFault::BadImage);
    }
    let (lives, behind) = each_at(alloc, count, rest)?;
    Ok((LifeTable { lives }, behind))
}

/// The bytes behind the first four, where these say that lives come. Takes no memory.
#[tactic(auto, unfolding(crate::specs::Reading::behind_lives_header))]
pub(crate) fn behind_lives_header(bytes: &[u8]) -> Option<&[u8]>
    ensures { option_map (λ rest. rest.now) result ≡ behind_lives_header bytes.now }
{
    match bytes {
        [a, b, c, d, rest @ ..] => {
            if *a == b'F' && *b == b'X' && *c == b'C' && *d == b'2' {
                Some(rest)
            } else {
                None
            }
        }
        _ => None,
    }
}
