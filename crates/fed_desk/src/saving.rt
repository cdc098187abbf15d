//! The image of a desk.
ghost use Rattle.std.specs.Prelude.{◌≡◌, ◌⊎◌, ◌<◌, ◌≤◌, ℕ, List, true, false, length, IfOk, IsErrOf, OnOk, is_some};
ghost use Rattle.checkpoint.specs.Bytes.{IsImage, image_bytes};
ghost use Rattle.checkpoint.specs.Pieces.{whole};
ghost use Rattle.checkpoint.specs.declared.image.Image.{Image as ImageData};
ghost use Rattle.image_laws.specs.Images.{IsImageOf};
ghost use Rattle.replay.specs.Checkpoints.{can_go_on, image_limit};
ghost use Rattle.rule_world.specs.Worlds.{World};
ghost use Rattle.fed_desk.specs.Runs.{FedCourse, HasCome, fed_setting};
ghost use Rattle.fed_desk.specs.Images.{IsSaved, IsUnsaved};
ghost use Rattle.fed_desk.specs.declared.saving.SaveFault.TheVariants.{NoMemory as NoRoom};

use crate::desk::Desk;
use checkpoint::{ImagePieces, LentImage, RunPart};
use engine::Inspect;
use fx_base::{Copies, NoMemory};
use replay::{IMAGE_MAX, can_go_on};
use script_run::LIVE_MAX;
use std::alloc::Global;

/// Why a desk is not saved. Nothing has changed.
#[derive(Clone, Copy, Debug, PartialEq, Eq)]
pub enum SaveFault {
    NoMemory,
    /// The image has more bytes than an image may have, or no run could go on from its numbers.
    Refused,
    /// The run has ended.
    Ended,
}

impl From<NoMemory> for SaveFault {
    ghost from_gives = { λ _ fault. fault ≡ NoRoom };

    fn from(_: NoMemory) -> Self {
        SaveFault::NoMemory
    }
}

// The bytes of an image; it is refused where they are too many.
#[tactic(auto, unfolding(replay::specs::Checkpoints::image_limit))]
fn bytes_of(alloc: Global, image: LentImage<'_>) -> Result<Vec<u8>, SaveFault>
    ensures made { IfOk result (λ bytes. bytes.items ≡ image_bytes (whole image.entry)) }
    ensures is_image { OnOk result (IsImage (whole image.entry)) }
    ensures short { IfOk result (λ bytes. length bytes.items ≤ image_limit) }
    ensures refused { IsErrOf result SaveFault.Refused → image_limit < length (image_bytes (whole image.entry)) }
    ensures goes { IsErrOf result SaveFault.Ended → ⊥ }
{
    let mut pieces = ImagePieces::new(image);
    let mut bytes = Vec::new(alloc);
    'next: while pieces.put_next(&mut bytes)? {
        if bytes.len() > IMAGE_MAX {
            return Err(SaveFault::Refused);
        }
    }
    Ok(bytes)
}

// The bytes of the image of an engine, with this part of the run.
fn engine_bytes<E: Inspect>(alloc: Global, engine: &E, run: RunPart) -> Result<Vec<u8>, SaveFault>
    ensures saved { IfOk result (λ bytes. (image : ImageData) × (image.run ≡ run) × ((w : World) → E.stands engine.now w → IsImageOf (E.made_with engine.now) (E.table engine.now) w image)
        × IsImage image × (can_go_on image ≡ true) × (bytes.items ≡ image_bytes image) × (length bytes.items ≤ image_limit)) }
    ensures refused { IsErrOf result SaveFault.Refused → (image : ImageData) × (image.run ≡ run)
        × ((w : World) → E.stands engine.now w → IsImageOf (E.made_with engine.now) (E.table engine.now) w image)
        × ((can_go_on image ≡ false) ⊎ (image_limit < length (image_bytes image))) }
    ensures goes { IsErrOf result SaveFault.Ended → ⊥ }
{
    let image = engine.image(alloc, run)?;
    if !can_go_on(&image.apart) {
        return Err(SaveFault::Refused);
    }
    bytes_of(alloc, image)
}

/// The bytes of the image of a desk, between the lines that were fed and the next: `open` goes on behind it. The front of a line whose end has not come is no
/// part of it. The desk stays as it is, and its facts are not copied.
pub fn save<E: Inspect>(alloc: Global, desk: &Desk<E>) -> Result<Vec<u8>, SaveFault>
    ensures saved { IfOk result (λ bytes. (course : FedCourse) (fed out : List ℕ)
        → HasCome E.stands (fed_setting E.gives E.fires E.counts E.made_with E.table) course fed out desk.now → IsSaved course fed bytes.items) }
    ensures goes { IfOk result (λ bytes. is_some desk.now.run ≡ true) }
    ensures refused { IsErrOf result SaveFault.Refused → (course : FedCourse) (fed out : List ℕ)
        → HasCome E.stands (fed_setting E.gives E.fires E.counts E.made_with E.table) course fed out desk.now → IsUnsaved course fed }
    ensures refused_goes { IsErrOf result SaveFault.Refused → is_some desk.now.run ≡ true }
    ensures ended { IsErrOf result SaveFault.Ended → desk.now.run ≡ None }
{
    let Some(running) = &desk.run else {
        return Err(SaveFault::Ended);
    };
    let run = running.fed.at.part(running.first.copy(alloc)?, LIVE_MAX);
    engine_bytes(alloc, running.fed.taker.lines.engine(), run)
}
