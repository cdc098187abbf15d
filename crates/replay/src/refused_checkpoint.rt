//! Why a checkpoint is refused, and the line of that.
ghost use Rattle.std.specs.Prelude.{◌≡◌, ◌⊎◌, ◌≤◌, ◌++◌, OnOk};
ghost use Rattle.fx_io.specs.Outside.{Rose, append, AppendsFront};
ghost use Rattle.replay.specs.Checkpoints.{checkpoint_code_text, checkpoint_text};

use fx_base::NoMemory;
use fx_io::{Sink, write_all};
use std::alloc::Global;

/// Why a checkpoint is refused. The codes stand in the order in which they are tried.
#[derive(Clone, Copy, Debug, PartialEq, Eq)]
pub enum CheckpointCode {
    /// The shelf has no file of this name.
    Missing,
    /// The image has more than 1 GiB.
    TooLong,
    /// The bytes are those of no image.
    BadImage,
    /// The image is one of other rules.
    OtherRules,
    /// The image does not fit the rules, or has a number that is too great to go on.
    Unfit,
}

impl CheckpointCode {
    /// The name of the code, as the line prints it.
    fn name(self) -> &'static str
        ensures { result.now ≡ checkpoint_code_text self }
    {
        match self {
            CheckpointCode::Missing => "Missing",
            CheckpointCode::TooLong => "TooLong",
            CheckpointCode::BadImage => "BadImage",
            CheckpointCode::OtherRules => "OtherRules",
            CheckpointCode::Unfit => "Unfit",
        }
    }
}

// Appends the line of a refused checkpoint.
fn push_code(text: &mut Vec<u8>, code: CheckpointCode) -> Result<(), NoMemory>
    ensures { OnOk result (text.new.items ≡ text.old.items ++ checkpoint_text code) }
{
    text.extend_from_slice(b"refused checkpoint ")?;
    text.extend_from_slice(code.name().as_bytes())?;
    text.push(b'\n')?;
    Ok(())
}

/// Writes the line of a refused checkpoint.
pub fn refuse_checkpoint<K: Sink>(alloc: Global, out: &mut K, code: CheckpointCode) -> u8
    ensures said { result ≡ 9 → K.written out.new ≡ append (K.written out.old) (checkpoint_text code) }
    ensures front { 5 ≤ result → AppendsFront (K.written out.old) (K.written out.new) (checkpoint_text code) }
    ensures answers { (result ≡ 9) ⊎ ((6 ≤ result) × (result ≤ 7)) }
    ensures cause { result ≡ 6 → Rose (K.faults out.old) (K.faults out.new) }
    ensures counts { K.faults out.old ≤ K.faults out.new }
    ensures files { K.files out.new ≡ K.files out.old }
{
    let mut text = Vec::new(alloc);
    if push_code(&mut text, code).is_err() {
        return 7;
    }
    match write_all(out, &text) {
        Ok(()) => 9,
        Err(_) => 6,
    }
}
