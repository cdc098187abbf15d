ghost use Rattle.std.specs.Prelude.{◌≡◌, IfOk, IfErr, Some, Err};
ghost use Rattle.checkpoint.specs.declared.image.Image.{Image as ImageData};
ghost use Rattle.checkpoint.specs.Bytes.{image_bytes, IsImage};
ghost use Rattle.checkpoint.specs.Reading.{behind_header, decoded, TellsDecodeFault};

use crate::fault::DecodeFault;
use crate::image::Image;
use crate::spelled::{Readable, Spelled};
use fx_base::NoMemory;
use std::alloc::Global;

/// The bytes of an image: `FXC1`, and its fields in order. A number has its 1, 2 or 8 bytes, the highest first, signed ones in
/// two's complement; a truth value is a byte 0 or 1, a list is its length as a u64 and its items, a text the list of its bytes,
/// and in front of a value stands a byte 0, 1 or 2, for a whole number, a truth value or a text. Time grows with the bytes.
#[tactic(auto, unfolding(crate::specs::Bytes::image_bytes, crate::specs::Bytes::IsImage))]
pub fn encode(alloc: Global, image: &Image) -> Result<Vec<u8>, NoMemory>
    ensures bytes { IfOk result (λ bytes. bytes.items ≡ image_bytes image.now) }
    ensures image { IfOk result (λ _. IsImage image.now) }
{
    let mut out = Vec::new(alloc);
    out.extend_from_slice(b"FXC1")?;
    image.put(&mut out)?;
    Ok(out)
}

// The bytes behind the first four, which are those of each image.
#[tactic(auto, unfolding(crate::specs::Reading::behind_header))]
fn behind_header(bytes: &[u8]) -> Result<&[u8], DecodeFault>
    ensures found { IfOk result (λ rest. behind_header bytes.now ≡ Some rest.now) }
    ensures bad { IfErr result (TellsDecodeFault (behind_header bytes.now)) }
{
    match bytes {
        [a, b, c, d, rest @ ..] => {
            if *a == b'F' && *b == b'X' && *c == b'C' && *d == b'1' {
                Ok(rest)
            } else {
                Err(DecodeFault::BadImage)
            }
        }
        _ => Err(DecodeFault::BadImage),
    }
}

// The image of the bytes.
#[tactic(auto, unfolding(crate::specs::Reading::decoded))]
fn image_of(alloc: Global, bytes: &[u8]) -> Result<Image, DecodeFault>
    ensures found { IfOk result (λ image. decoded bytes.now ≡ Some image) }
    ensures bad { IfErr result (TellsDecodeFault (decoded bytes.now)) }
{
    let rest = behind_header(bytes)?;
    let (image, behind) = Image::take(alloc, rest)?;
    match behind {
        [] => Ok(image),
        [_, ..] => Err(DecodeFault::BadImage),
    }
}

/// The image that has these bytes. `BadImage`: exactly where no image has them. It goes once over the bytes, and takes memory
/// for a list only where the bytes left can be as many items as are said.
pub fn decode(alloc: Global, bytes: &[u8]) -> Result<Image, DecodeFault>
    ensures found { IfOk result (λ image. IsImage image × (image_bytes image ≡ bytes.now)) }
    ensures only { IfOk result (λ image. (other : ImageData) → IsImage other → image_bytes other ≡ bytes.now → image ≡ other) }
    ensures bad { result ≡ Err DecodeFault.BadImage → (image : ImageData) → IsImage image → image_bytes image ≡ bytes.now → ⊥ }
{
    image_of(alloc, bytes)
}
