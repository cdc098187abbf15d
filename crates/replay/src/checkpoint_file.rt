//! Reads the checkpoint from which a run goes on.
ghost use Rattle.std.specs.Prelude.{◌≡◌, ◌⊎◌, ℕ, List, Some, None, IfOk, IfErr, IsErrOf, option_map};
ghost use Rattle.fx_io.specs.Outside.{Rose, IsOnShelf};
ghost use Rattle.checkpoint.specs.declared.image.Image.{Image as ImageData};
ghost use Rattle.rule_model.specs.declared.program.Program.{Program};
ghost use Rattle.replay.specs.declared.beginning.Beginning.TheVariants.{Behind};
ghost use Rattle.replay.specs.declared.refused_checkpoint.CheckpointCode.{CheckpointCode as CodeData};
ghost use Rattle.replay.specs.Beginnings.{IsBeginningFor, RefusesFor, shows_rules};
ghost use Rattle.replay.specs.Checkpoints.{checkpoint_of, checkpoint_in, has_image, TellsCheckpointFault};
ghost use Rattle.replay.specs.Wanted.{Files, wanted_at, wanted_from, refuses_checkpoint};
ghost use Rattle.replay.specs.declared.checkpoint_file.CheckpointFault.TheVariants.{NoMemory as OutOfMemory};

use crate::beginning::Beginning;
use crate::refused_checkpoint::CheckpointCode;
use crate::rule_file::{FileFault, read_whole};
use checkpoint::{DecodeFault, Image, decode};
use command_words::Mode;
use fx_base::{NoMemory, Seq};
use fx_io::Shelf;
use std::alloc::Global;

/// The most bytes that an image may have.
pub const IMAGE_MAX: usize = 1_073_741_824;

/// Why there is no image to go on from.
#[derive(Clone, Copy, Debug, PartialEq, Eq)]
pub enum CheckpointFault {
    Refused(CheckpointCode),
    ReadFault,
    NoMemory,
}

impl From<NoMemory> for CheckpointFault {
    ghost from_gives = { λ _ fault. fault ≡ OutOfMemory };

    fn from(_: NoMemory) -> Self {
        CheckpointFault::NoMemory
    }
}

// The image of these bytes, of rules with this text.
#[tactic(auto, unfolding(crate::specs::Checkpoints::checkpoint_of))]
fn image_of(alloc: Global, rules: &[u8], bytes: &[u8]) -> Result<Image, CheckpointFault>
    ensures found { IfOk result (λ image. checkpoint_of rules.now bytes.now ≡ has_image image) }
    ensures refused { IfErr result (TellsCheckpointFault (checkpoint_of rules.now bytes.now)) }
    ensures read { IsErrOf result CheckpointFault.ReadFault → ⊥ }
{
    if bytes.len() > IMAGE_MAX {
        return Err(CheckpointFault::Refused(CheckpointCode::TooLong));
    }
    match decode(alloc, bytes) {
        Ok(image) => {
            if image.run.rules.as_slice() == rules {
                Ok(image)
            } else {
                Err(CheckpointFault::Refused(CheckpointCode::OtherRules))
            }
        }
        Err(DecodeFault::BadImage) => Err(CheckpointFault::Refused(CheckpointCode::BadImage)),
        Err(DecodeFault::NoMemory) => Err(CheckpointFault::NoMemory),
    }
}

/// The image in the file of this name, of rules with this text.
pub fn read_image<F: Shelf>(
    alloc: Global,
    shelf: &mut F,
    name: &str,
    rules: &[u8],
) -> Result<Image, CheckpointFault>
    ensures found { IfOk result (λ image. (files : Files) → F.files shelf.old ≡ Some files → checkpoint_in rules.now (files name.now) ≡ has_image image) }
    ensures refused { IfErr result (λ fault. (files : Files) → F.files shelf.old ≡ Some files → TellsCheckpointFault (checkpoint_in rules.now (files name.now)) fault) }
    ensures there { IfOk result (λ _. IsOnShelf (F.files shelf.old) name.now) }
    ensures cause { (code : CodeData) → IsErrOf result (CheckpointFault.Refused code)
        → Rose (F.misses shelf.old name.now) (F.misses shelf.new name.now) ⊎ IsOnShelf (F.files shelf.old) name.now }
    ensures failed { IsErrOf result CheckpointFault.ReadFault → Rose (F.faults shelf.old name.now) (F.faults shelf.new name.now) }
{
    let bytes = match read_whole(alloc, shelf, name, IMAGE_MAX + 1) {
        Ok(bytes) => bytes,
        Err(FileFault::Missing) => {
            return Err(CheckpointFault::Refused(CheckpointCode::Missing));
        }
        Err(FileFault::ReadFault) => return Err(CheckpointFault::ReadFault),
        Err(FileFault::NoMemory) => return Err(CheckpointFault::NoMemory),
    };
    image_of(alloc, rules, &bytes)
}

// Behind the image in the file of this name, of rules with this text.
fn behind<F: Shelf>(
    alloc: Global,
    name: &str,
    rules: &[u8],
    shelf: &mut F,
) -> Result<Beginning, CheckpointFault>
    ensures found { IfOk result (λ beginning. (image : ImageData) × (beginning ≡ Behind image)
        × ((files : Files) → F.files shelf.old ≡ Some files → checkpoint_in rules.now (files name.now) ≡ has_image image)) }
    ensures refused { IfErr result (λ fault. (files : Files) → F.files shelf.old ≡ Some files → TellsCheckpointFault (checkpoint_in rules.now (files name.now)) fault) }
    ensures there { IfOk result (λ _. IsOnShelf (F.files shelf.old) name.now) }
    ensures cause { (code : CodeData) → IsErrOf result (CheckpointFault.Refused code)
        → Rose (F.misses shelf.old name.now) (F.misses shelf.new name.now) ⊎ IsOnShelf (F.files shelf.old) name.now }
    ensures failed { IsErrOf result CheckpointFault.ReadFault → Rose (F.faults shelf.old name.now) (F.faults shelf.new name.now) }
{
    let image = read_image(alloc, shelf, name, rules)?;
    Ok(Beginning::Behind(image))
}

/// Where the run begins that a mode asks for, of rules with this text, with the checkpoint that is named, if one is.
pub(crate) fn beginning<F: Shelf>(
    alloc: Global,
    mode: Mode,
    image: Option<&str>,
    rules: Vec<u8>,
    shelf: &mut F,
) -> Result<Beginning, CheckpointFault>
    ensures found { IfOk result (λ beginning. (files : Files) → F.files shelf.old ≡ Some files → (limit : ℕ) (p : Program)
        → wanted_from mode limit (option_map (λ name. name.now) image.entry) files rules.items p ≡ wanted_at mode limit beginning p) }
    ensures asked { IfOk result (IsBeginningFor (F.files shelf.old) mode (option_map (λ name. name.now) image.entry)) }
    ensures refused { (code : CodeData) → IsErrOf result (CheckpointFault.Refused code) → (files : Files) → F.files shelf.old ≡ Some files → (limit : ℕ) (p : Program)
        → wanted_from mode limit (option_map (λ name. name.now) image.entry) files rules.items p ≡ refuses_checkpoint code }
    ensures cause { (code : CodeData) → IsErrOf result (CheckpointFault.Refused code)
        → RefusesFor (F.files shelf.old) (F.misses shelf.old) (F.misses shelf.new) mode (option_map (λ name. name.now) image.entry) }
    ensures failed { IsErrOf result CheckpointFault.ReadFault → (name : List ℕ) × (option_map (λ it. it.now) image.entry ≡ Some name)
        × Rose (F.faults shelf.old name) (F.faults shelf.new name) }
{
    match (mode, image) {
        (Mode::Run, Some(name)) => behind(alloc, name, &rules, shelf),
        (Mode::Save, Some(name)) => behind(alloc, name, &rules, shelf),
        _ => Ok(Beginning::First(Seq::from_vec(rules))),
    }
}

/// Whether a mode looks at the text of the rules: a run is saved, or goes on from a checkpoint.
pub(crate) fn shows_rules(mode: Mode, image: Option<&str>) -> bool
    ensures { result ≡ shows_rules mode (option_map (λ it. it.now) image.entry) }
{
    match mode {
        Mode::Save => true,
        Mode::Run => image.is_some(),
        Mode::Check => false,
        Mode::Lives => false,
        Mode::Proof => false,
    }
}
