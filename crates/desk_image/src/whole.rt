//! The image of a desk from its bytes.
ghost use Rattle.std.specs.Prelude.{◌≡◌, Option, Some, Err, IfOk, IfErr};
ghost use Rattle.checkpoint.specs.Bytes.{IsImage};
ghost use Rattle.checkpoint.specs.Reading.{TellsDecodeFault, decoded};
ghost use Rattle.checkpoint.specs.declared.image.Image.{Image as ImageData};
ghost use Rattle.rule_model.specs.declared.life.LifeTable.{LifeTable as Lives};
ghost use Rattle.desk_image.specs.Bytes.{AreImageLives, desk_bytes};
ghost use Rattle.desk_image.specs.Reading.{desk_decoded};

use crate::reading::{behind_lives_header, lives_at};
use checkpoint::{DecodeFault, Image, decode};
use rule_model::LifeTable;
use std::alloc::Global;

/// An image of a desk.
#[derive(Debug, Drop)]
pub struct DeskImage {
    /// The lives by which it goes on, where it says them; else those that are inferred of its rules.
    pub lives: Option<LifeTable>,
    pub image: Image,
}

// The image of the bytes.
fn image_of(alloc: Global, bytes: &[u8]) -> Result<Image, DecodeFault>
    ensures found { IfOk result (λ image. decoded bytes.now ≡ Some image) }
    ensures bad { IfErr result (TellsDecodeFault (decoded bytes.now)) }
{
    decode(alloc, bytes)
}

// The lives and the image of the bytes.
#[tactic(auto, unfolding(crate::specs::Reading::desk_decoded))]
fn desk_of(alloc: Global, bytes: &[u8]) -> Result<DeskImage, DecodeFault>
    ensures found { IfOk result (λ it. desk_decoded bytes.now ≡ Some (it.lives, it.image)) }
    ensures bad { IfErr result (TellsDecodeFault (desk_decoded bytes.now)) }
{
    match behind_lives_header(bytes) {
        Some(rest) => {
            let (lives, behind) = lives_at(alloc, rest)?;
            let image = image_of(alloc, behind)?;
            Ok(DeskImage {
                lives: Some(lives),
                image,
            })
        }
        None => {
            let image = image_of(alloc, bytes)?;
            Ok(DeskImage { lives: None, image })
        }
    }
}

/// The image of a desk that has these bytes. `BadImage`: exactly where none has them. It goes once over the bytes, and takes memory
/// for a list only where the bytes left can be as many items as are said.
pub fn decode_desk(alloc: Global, bytes: &[u8]) -> Result<DeskImage, DecodeFault>
    ensures found { IfOk result (λ it. (desk_bytes it.lives it.image ≡ bytes.now) × IsImage it.image × AreImageLives it.lives) }
    ensures only { IfOk result (λ it. (lives : Option Lives) (image : ImageData) → AreImageLives lives → IsImage image → desk_bytes lives image ≡ bytes.now
        → (it.lives ≡ lives) × (it.image ≡ image)) }
    ensures bad { result ≡ Err DecodeFault.BadImage → (lives : Option Lives) (image : ImageData) → AreImageLives lives → IsImage image
        → desk_bytes lives image ≡ bytes.now → ⊥ }
    ensures decoded { IfOk result (λ it. desk_decoded bytes.now ≡ Some (it.lives, it.image)) }
    ensures fault { IfErr result (TellsDecodeFault (desk_decoded bytes.now)) }
{
    desk_of(alloc, bytes)
}
