//! The images of a live run: of the state to which it came, and of those behind lines that save.
ghost use Rattle.std.specs.Prelude.{◌≡◌, ◌≢◌, ◌⊎◌, ◌<◌, ◌≤◌, ◌+◌, ◌++◌, [], ℕ, List, Err, None, Some, length, IfOk, OnOk, OnErr, IsErrOf};
ghost use Rattle.checkpoint.specs.Bytes.{image_bytes, IsImage};
ghost use Rattle.checkpoint.specs.Pieces.{whole};
ghost use Rattle.checkpoint.specs.declared.image.Image.{Image as ImageData};
ghost use Rattle.fx_io.specs.Outside.{append, Rose};
ghost use Rattle.fx_store.specs.Puts.{IsDraft, IsOldOrNew, IsPut};
ghost use Rattle.image_laws.specs.Images.{IsImageOf};
ghost use Rattle.desk_image.specs.Bytes.{AreImageLives, desk_bytes};
ghost use Rattle.line_run.specs.declared.fault.ImageFault.{ImageFault as FaultData};
ghost use Rattle.line_run.specs.declared.fault.ImageFault.TheVariants.{TooLong as Long};
ghost use Rattle.line_run.specs.declared.fault.KeepFault.TheVariants.{Refused as RefusedFor};
ghost use Rattle.replay.specs.declared.refused_checkpoint.CheckpointCode.{CheckpointCode as CodeData};
ghost use Rattle.replay.specs.Checkpoints.{checkpoint_text, image_limit};
ghost use Rattle.rule_world.specs.Worlds.{World};
ghost use Rattle.desk.specs.Keeping.{IsPutFor, IsRefusedFor, IsTooMuch, IsUnputFor, Keeps, MayRefuse, front_bytes, kept_as, refusal_code as code_of, status_of_part};

use checkpoint::{ImagePieces, LentImage, RunPart};
use desk_image::lives_front;
use engine::Engine;
use fx_base::Text;
use fx_io::Sink;
use fx_store::{FileSink, StoreFault};
use line_run::{ImageFault, KeepFault};
use replay::{CheckpointCode, IMAGE_MAX, can_go_on, refuse_checkpoint};
use rule_model::LifeTable;
use std::alloc::Global;

/// The code with which an image is refused that was to be put.
pub(crate) fn refusal_code(fault: ImageFault) -> CheckpointCode
    ensures { result ≡ code_of fault }
{
    match fault {
        ImageFault::TooLong => CheckpointCode::TooLong,
        ImageFault::Unfit => CheckpointCode::Unfit,
    }
}

fn keep_fault(fault: StoreFault) -> KeepFault
    ensures { result ≡ kept_as fault }
{
    match fault {
        StoreFault::Failed => KeepFault::WriteFault,
        StoreFault::NoMemory => KeepFault::NoMemory,
    }
}

// Begins the file of this name.
fn begin<K: FileSink>(name: &str, out: &mut K) -> Result<(), KeepFault>
    ensures begun { OnOk result (IsDraft (K.files out.new) (K.draft out.new) []) }
    ensures unrefused { (why : FaultData) → result ≡ Err (RefusedFor why) → ⊥ }
    ensures files { K.files out.new ≡ K.files out.old }
    ensures written { K.written out.new ≡ K.written out.old }
    ensures counts { K.faults out.old ≤ K.faults out.new }
    ensures cause { IsErrOf result KeepFault.WriteFault → Rose (K.faults out.old) (K.faults out.new) }
{
    match out.begin_file(name) {
        Ok(()) => Ok(()),
        Err(fault) => Err(keep_fault(fault)),
    }
}

// Adds a piece to the file that was begun.
fn add<K: FileSink>(piece: &[u8], out: &mut K) -> Result<(), KeepFault>
    ensures added { OnOk result (K.draft out.new ≡ append (K.draft out.old) piece.now) }
    ensures unrefused { (why : FaultData) → result ≡ Err (RefusedFor why) → ⊥ }
    ensures files { K.files out.new ≡ K.files out.old }
    ensures written { K.written out.new ≡ K.written out.old }
    ensures counts { K.faults out.old ≤ K.faults out.new }
    ensures cause { IsErrOf result KeepFault.WriteFault → Rose (K.faults out.old) (K.faults out.new) }
{
    match out.add_to_file(piece) {
        Ok(()) => Ok(()),
        Err(fault) => Err(keep_fault(fault)),
    }
}

// Puts the file that was begun with this name.
fn put<K: FileSink>(name: &str, out: &mut K) -> Result<(), KeepFault>
    ensures put { OnOk result ((bytes : List ℕ) → IsDraft (K.files out.old) (K.draft out.old) bytes → IsPut (K.files out.old) (K.files out.new) name.now bytes) }
    ensures kept { OnErr result ((bytes : List ℕ) → IsDraft (K.files out.old) (K.draft out.old) bytes → IsOldOrNew (K.files out.old) (K.files out.new) name.now bytes) }
    ensures unrefused { (why : FaultData) → result ≡ Err (RefusedFor why) → ⊥ }
    ensures written { K.written out.new ≡ K.written out.old }
    ensures counts { K.faults out.old ≤ K.faults out.new }
    ensures cause { IsErrOf result KeepFault.WriteFault → Rose (K.faults out.old) (K.faults out.new) }
{
    match out.put_file(name) {
        Ok(()) => Ok(()),
        Err(fault) => Err(keep_fault(fault)),
    }
}

// Adds the lives that an image says, if it says some, to the file that was begun, and answers how many bytes may follow.
#[tactic(auto, unfolding(replay::specs::Checkpoints::image_limit))]
fn add_lives<K: FileSink>(
    alloc: Global,
    told: &Option<LifeTable>,
    out: &mut K,
) -> Result<usize, KeepFault>
    requires { IsDraft (K.files out.old) (K.draft out.old) [] }
    ensures made { OnOk result (IsDraft (K.files out.new) (K.draft out.new) (front_bytes told.now)) }
    ensures room { IfOk result (λ room. length (front_bytes told.now) + room ≡ image_limit) }
    ensures are_lives { OnOk result (AreImageLives told.now) }
    ensures refused { (why : FaultData) → result ≡ Err (RefusedFor why) → IsTooMuch (front_bytes told.now) why }
    ensures files { K.files out.new ≡ K.files out.old }
    ensures written { K.written out.new ≡ K.written out.old }
    ensures counts { K.faults out.old ≤ K.faults out.new }
    ensures cause { IsErrOf result KeepFault.WriteFault → Rose (K.faults out.old) (K.faults out.new) }
{
    let Some(lives) = told else {
        return Ok(IMAGE_MAX);
    };
    let front = lives_front(alloc, lives)?;
    let bytes = front.as_slice();
    if bytes.len() > IMAGE_MAX {
        return Err(KeepFault::Refused(ImageFault::TooLong));
    }
    add(bytes, out)?;
    Ok(IMAGE_MAX - bytes.len())
}

// Adds the bytes of an image to the file that was begun, piece by piece. It stops where they are more than may follow.
fn add_pieces<K: FileSink>(
    alloc: Global,
    image: LentImage<'_>,
    most: usize,
    out: &mut K,
) -> Result<(), KeepFault>
    ensures made { OnOk result ((front : List ℕ) → IsDraft (K.files out.old) (K.draft out.old) front → IsDraft (K.files out.new) (K.draft out.new) (front ++ image_bytes (whole image.entry))) }
    ensures is_image { OnOk result (IsImage (whole image.entry)) }
    ensures short { OnOk result (length (image_bytes (whole image.entry)) ≤ most) }
    ensures refused { (why : FaultData) → result ≡ Err (RefusedFor why) → (why ≡ Long) × (most < length (image_bytes (whole image.entry))) }
    ensures files { K.files out.new ≡ K.files out.old }
    ensures written { K.written out.new ≡ K.written out.old }
    ensures counts { K.faults out.old ≤ K.faults out.new }
    ensures cause { IsErrOf result KeepFault.WriteFault → Rose (K.faults out.old) (K.faults out.new) }
{
    let mut pieces = ImagePieces::new(image);
    let mut piece = Vec::new(alloc);
    let mut room = most;
    'next: while pieces.put_next(&mut piece)? {
        let bytes = piece.as_slice();
        if bytes.len() > room {
            return Err(KeepFault::Refused(ImageFault::TooLong));
        }
        room -= bytes.len();
        add(bytes, out)?;
        piece.clear();
    }
    Ok(())
}

// Adds the bytes of an image, with the lives that it says, to the file that was begun. It stops where they are too long.
fn add_image<K: FileSink>(
    alloc: Global,
    told: &Option<LifeTable>,
    image: LentImage<'_>,
    out: &mut K,
) -> Result<(), KeepFault>
    requires { IsDraft (K.files out.old) (K.draft out.old) [] }
    ensures made { OnOk result (IsDraft (K.files out.new) (K.draft out.new) (desk_bytes told.now (whole image.entry))) }
    ensures are_lives { OnOk result (AreImageLives told.now) }
    ensures is_image { OnOk result (IsImage (whole image.entry)) }
    ensures short { OnOk result (length (desk_bytes told.now (whole image.entry)) ≤ image_limit) }
    ensures refused { (why : FaultData) → result ≡ Err (RefusedFor why) → MayRefuse told.now (whole image.entry) (code_of why) }
    ensures files { K.files out.new ≡ K.files out.old }
    ensures written { K.written out.new ≡ K.written out.old }
    ensures counts { K.faults out.old ≤ K.faults out.new }
    ensures cause { IsErrOf result KeepFault.WriteFault → Rose (K.faults out.old) (K.faults out.new) }
{
    let room = add_lives(alloc, told, out)?;
    add_pieces(alloc, image, room, out)
}

// Puts an image to the file of this name, as the one that was begun with it.
fn make_file<K: FileSink>(
    alloc: Global,
    told: &Option<LifeTable>,
    image: LentImage<'_>,
    name: &str,
    out: &mut K,
) -> Result<(), KeepFault>
    ensures put { OnOk result (Keeps told.now (whole image.entry) (K.files out.old) (K.files out.new) name.now) }
    ensures refused { (why : FaultData) → result ≡ Err (RefusedFor why) → MayRefuse told.now (whole image.entry) (code_of why) }
    ensures refused_files { (why : FaultData) → result ≡ Err (RefusedFor why) → K.files out.new ≡ K.files out.old }
    ensures failed { OnErr result ((K.files out.new ≡ K.files out.old) ⊎ Keeps told.now (whole image.entry) (K.files out.old) (K.files out.new) name.now) }
    ensures written { K.written out.new ≡ K.written out.old }
    ensures counts { K.faults out.old ≤ K.faults out.new }
    ensures cause { IsErrOf result KeepFault.WriteFault → Rose (K.faults out.old) (K.faults out.new) }
{
    let goes_on = can_go_on(&image.apart);
    begin(name, out)?;
    add_image(alloc, told, image, out)?;
    if !goes_on {
        return Err(KeepFault::Refused(ImageFault::Unfit));
    }
    put(name, out)
}

// Puts an image to the file of this name. Where that fails, what was begun is given up.
fn put_image<K: FileSink>(
    alloc: Global,
    told: &Option<LifeTable>,
    image: LentImage<'_>,
    name: &str,
    out: &mut K,
) -> Result<(), KeepFault>
    ensures put { OnOk result (Keeps told.now (whole image.entry) (K.files out.old) (K.files out.new) name.now) }
    ensures refused { (why : FaultData) → result ≡ Err (RefusedFor why) → MayRefuse told.now (whole image.entry) (code_of why) }
    ensures refused_files { (why : FaultData) → result ≡ Err (RefusedFor why) → K.files out.new ≡ K.files out.old }
    ensures failed { OnErr result ((K.files out.new ≡ K.files out.old) ⊎ Keeps told.now (whole image.entry) (K.files out.old) (K.files out.new) name.now) }
    ensures written { K.written out.new ≡ K.written out.old }
    ensures counts { K.faults out.old ≤ K.faults out.new }
    ensures cause { IsErrOf result KeepFault.WriteFault → Rose (K.faults out.old) (K.faults out.new) }
{
    match make_file(alloc, told, image, name, out) {
        Ok(()) => Ok(()),
        Err(fault) => {
            out.give_up_file(name);
            Err(fault)
        }
    }
}

/// Puts the image of an engine, with this part of the run and with the lives that it says, to the file of this name. The engine stays as it is, and its
/// facts are not copied.
pub(crate) fn keep<E: Engine, K: FileSink>(
    alloc: Global,
    engine: &E,
    told: &Option<LifeTable>,
    run: RunPart,
    name: &str,
    out: &mut K,
) -> Result<(), KeepFault>
    ensures put { OnOk result ((image : ImageData) × (image.run ≡ run) × ((w : World) → E.stands engine.now w → IsImageOf (E.made_with engine.now) (E.table engine.now) w image)
        × Keeps told.now image (K.files out.old) (K.files out.new) name.now) }
    ensures refused { (why : FaultData) → result ≡ Err (RefusedFor why) → IsRefusedFor (E.stands engine.now) (E.made_with engine.now) (E.table engine.now) told.now run (code_of why) }
    ensures refused_files { (why : FaultData) → result ≡ Err (RefusedFor why) → K.files out.new ≡ K.files out.old }
    ensures failed { OnErr result ((K.files out.new ≡ K.files out.old) ⊎ ((image : ImageData) × (image.run ≡ run)
        × ((w : World) → E.stands engine.now w → IsImageOf (E.made_with engine.now) (E.table engine.now) w image) × Keeps told.now image (K.files out.old) (K.files out.new) name.now)) }
    ensures written { K.written out.new ≡ K.written out.old }
    ensures counts { K.faults out.old ≤ K.faults out.new }
    ensures cause { IsErrOf result KeepFault.WriteFault → Rose (K.faults out.old) (K.faults out.new) }
{
    let image = engine.image(alloc, run)?;
    put_image(alloc, told, image, name, out)
}

// Puts the image of an engine, with this part of the run, to the file of this name, or writes why it is refused.
fn keep_last<E: Engine, K: FileSink>(
    alloc: Global,
    engine: &E,
    told: &Option<LifeTable>,
    run: RunPart,
    name: &str,
    out: &mut K,
) -> u8
    ensures put { result ≡ 0 → (image : ImageData) × (image.run ≡ run) × ((w : World) → E.stands engine.now w → IsImageOf (E.made_with engine.now) (E.table engine.now) w image)
        × Keeps told.now image (K.files out.old) (K.files out.new) name.now }
    ensures quiet { result ≡ 0 → K.written out.new ≡ K.written out.old }
    ensures refused { result ≡ 9 → (code : CodeData) × (K.written out.new ≡ append (K.written out.old) (checkpoint_text code))
        × IsRefusedFor (E.stands engine.now) (E.made_with engine.now) (E.table engine.now) told.now run code }
    ensures stays { result ≡ 9 → K.files out.new ≡ K.files out.old }
    ensures failed { 6 ≤ result → result ≤ 7 → IsUnputFor (E.stands engine.now) (E.made_with engine.now) (E.table engine.now) told.now run (K.written out.old) (K.written out.new) (K.files out.old) (K.files out.new) (Some name.now) }
    ensures answers { (result ≡ 0) ⊎ ((6 ≤ result) × (result ≤ 7)) ⊎ (result ≡ 9) }
    ensures cause { result ≡ 6 → Rose (K.faults out.old) (K.faults out.new) }
{
    match keep(alloc, engine, told, run, name, out) {
        Ok(()) => 0,
        Err(KeepFault::WriteFault) => 6,
        Err(KeepFault::NoMemory) => 7,
        Err(KeepFault::Refused(why)) => refuse_checkpoint(alloc, out, refusal_code(why)),
    }
}

/// Ends a live run that came to the end of its script with this engine: its image is put where one is named. The status says whether a line was a fault.
pub(crate) fn end<E: Engine, K: FileSink>(
    alloc: Global,
    engine: E,
    told: &Option<LifeTable>,
    run: RunPart,
    image: &Option<Text>,
    out: &mut K,
) -> u8
    ensures ended { result ≤ 1 → (result ≡ status_of_part run.faulty) × (K.written out.new ≡ K.written out.old)
        × IsPutFor (E.stands engine) (E.made_with engine) (E.table engine) told.now run (K.files out.old) (K.files out.new) image.now }
    ensures refused { result ≡ 9 → (code : CodeData) × (K.written out.new ≡ append (K.written out.old) (checkpoint_text code))
        × IsRefusedFor (E.stands engine) (E.made_with engine) (E.table engine) told.now run code × (image.now ≢ None) }
    ensures stays { result ≡ 9 → K.files out.new ≡ K.files out.old }
    ensures failed { 5 ≤ result → result ≤ 8 → IsUnputFor (E.stands engine) (E.made_with engine) (E.table engine) told.now run (K.written out.old) (K.written out.new) (K.files out.old) (K.files out.new) image.now }
    ensures answers { (result ≤ 1) ⊎ ((6 ≤ result) × (result ≤ 7)) ⊎ (result ≡ 9) }
    ensures cause { result ≡ 6 → Rose (K.faults out.old) (K.faults out.new) }
{
    let faulty = run.faulty;
    match image {
        Some(name) => {
            let status = keep_last(alloc, &engine, told, run, name.as_str(), out);
            if status == 0 {
                u8::from(faulty)
            } else {
                status
            }
        }
        None => u8::from(faulty),
    }
}
