//! Where a live run begins.
ghost use Rattle.std.specs.Prelude.{◌≡◌, ℕ, List, Some, IfOk, IfErr, IsErrOf, option_map};
ghost use Rattle.fx_io.specs.Outside.{Rose};
ghost use Rattle.replay.specs.Wanted.{Files};
ghost use Rattle.desk.specs.Meanings.{is_text as is_text_form};
ghost use Rattle.desk.specs.Starts.{HasText, TellsStartFault, start_as};
ghost use Rattle.desk.specs.Wanted.{start, start_in, start_of};

use checkpoint::{DecodeFault, Image};
use desk_image::{DeskImage, decode_desk};
use fx_base::Seq;
use fx_io::Shelf;
use replay::{Beginning, CheckpointCode, CheckpointFault, FileFault, IMAGE_MAX, read_whole};
use rule_model::LifeTable;
use script_run::Form;
use std::alloc::Global;

/// With what the file of an image is, of rules with a text.
#[derive(Drop)]
pub(crate) enum Start {
    /// In the empty world, or behind an image of the same rules, with the lives that it says.
    Begins(Beginning, Option<LifeTable>),
    /// Behind an image of other rules: the text of the rules, the lives that the image says, and the image.
    Changes(Seq<u8>, Option<LifeTable>, Image),
}

/// Whether answers are lines of text.
pub(crate) fn is_text(form: &Form) -> bool
    ensures { result ≡ is_text_form form.now }
{
    match form {
        Form::Text => true,
        Form::Objects(_) => false,
    }
}

// With these bytes of the file, of rules with this text.
#[tactic(auto, unfolding(crate::specs::Wanted::start_of))]
fn start_of(alloc: Global, rules: Vec<u8>, bytes: &[u8]) -> Result<Start, CheckpointFault>
    ensures found { IfOk result (λ found. start_of rules.items bytes.now ≡ start_as found) }
    ensures text { IfOk result (HasText rules.items) }
    ensures refused { IfErr result (TellsStartFault (start_of rules.items bytes.now)) }
    ensures read { IsErrOf result CheckpointFault.ReadFault → ⊥ }
{
    if bytes.len() > IMAGE_MAX {
        return Err(CheckpointFault::Refused(CheckpointCode::TooLong));
    }
    match decode_desk(alloc, bytes) {
        Ok(DeskImage { lives, image }) => {
            if image.run.rules.as_slice() == rules.as_slice() {
                Ok(Start::Begins(Beginning::Behind(image), lives))
            } else {
                Ok(Start::Changes(Seq::from_vec(rules), lives, image))
            }
        }
        Err(DecodeFault::BadImage) => Err(CheckpointFault::Refused(CheckpointCode::BadImage)),
        Err(DecodeFault::NoMemory) => Err(CheckpointFault::NoMemory),
    }
}

// With the file of this name, of rules with this text.
fn start_named<F: Shelf>(
    alloc: Global,
    rules: Vec<u8>,
    name: &str,
    shelf: &mut F,
) -> Result<Start, CheckpointFault>
    ensures found { IfOk result (λ found. (files : Files) → F.files shelf.old ≡ Some files → start_in rules.items (files name.now) ≡ start_as found) }
    ensures text { IfOk result (HasText rules.items) }
    ensures refused { IfErr result (λ fault. (files : Files) → F.files shelf.old ≡ Some files → TellsStartFault (start_in rules.items (files name.now)) fault) }
    ensures failed { IsErrOf result CheckpointFault.ReadFault → Rose (F.faults shelf.old name.now) (F.faults shelf.new name.now) }
{
    match read_whole(alloc, shelf, name, IMAGE_MAX + 1) {
        Ok(bytes) => start_of(alloc, rules, &bytes),
        Err(FileFault::Missing) => Ok(Start::Begins(Beginning::First(Seq::from_vec(rules)), None)),
        Err(FileFault::ReadFault) => Err(CheckpointFault::ReadFault),
        Err(FileFault::NoMemory) => Err(CheckpointFault::NoMemory),
    }
}

/// Where a live run begins, of rules with this text, with the name of an image where one is given.
pub(crate) fn find_start<F: Shelf>(
    alloc: Global,
    rules: Vec<u8>,
    image: Option<&str>,
    shelf: &mut F,
) -> Result<Start, CheckpointFault>
    ensures found { IfOk result (λ found. (files : Files) → F.files shelf.old ≡ Some files
        → start rules.items (option_map (λ name. name.now) image.entry) files ≡ start_as found) }
    ensures text { IfOk result (HasText rules.items) }
    ensures refused { IfErr result (λ fault. (files : Files) → F.files shelf.old ≡ Some files
        → TellsStartFault (start rules.items (option_map (λ name. name.now) image.entry) files) fault) }
    ensures failed { IsErrOf result CheckpointFault.ReadFault → (name : List ℕ) × (option_map (λ it. it.now) image.entry ≡ Some name)
        × Rose (F.faults shelf.old name) (F.faults shelf.new name) }
{
    match image {
        Some(name) => start_named(alloc, rules, name, shelf),
        None => Ok(Start::Begins(Beginning::First(Seq::from_vec(rules)), None)),
    }
}
