//! The lines that refuse rules and images.
ghost use Rattle.std.specs.Prelude.{◌≡◌, IfOk};
ghost use Rattle.replay.specs.Checkpoints.{checkpoint_text};
ghost use Rattle.replay.specs.Refusals.{refusal_text};

use fx_base::NoMemory;
use fx_io::MemSink;
use replay::{CheckpointCode, Refusal, refuse, refuse_checkpoint};
use std::alloc::Global;

/// So many bytes are room enough for a line of a refusal.
const LINE_ROOM: usize = 256;

/// The line that refuses rules.
pub(crate) fn refusal_line(alloc: Global, refusal: Refusal) -> Result<Vec<u8>, NoMemory>
    ensures { IfOk result (λ line. line.items ≡ refusal_text refusal) }
{
    let mut sink = MemSink::new(alloc, LINE_ROOM, Vec::new(alloc))?;
    if refuse(alloc, &mut sink, refusal) > 4 {
        return Err(NoMemory);
    }
    Ok(sink.written().to_vec(alloc)?)
}

/// The line that refuses an image.
pub(crate) fn image_line(alloc: Global, code: CheckpointCode) -> Result<Vec<u8>, NoMemory>
    ensures { IfOk result (λ line. line.items ≡ checkpoint_text code) }
{
    let mut sink = MemSink::new(alloc, LINE_ROOM, Vec::new(alloc))?;
    if refuse_checkpoint(alloc, &mut sink, code) != 9 {
        return Err(NoMemory);
    }
    Ok(sink.written().to_vec(alloc)?)
}
