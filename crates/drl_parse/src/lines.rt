ghost use Rattle.std.specs.Prelude.{◌≡◌, ◌==◌, ◌≤◌, ◌+◌, ◌-◌, ◌^◌, min, length, map, take, IfOk};
ghost use Rattle.std.specs.List.{filter};
ghost use Rattle.drl_grammar.specs.Files.{line_at};
ghost use Rattle.drl_parse.specs.Lines.{newlines, Rises};

use fx_base::NoMemory;
use std::alloc::Global;

fn count_newlines(bytes: &[u8]) -> usize
    ensures count { result ≡ newlines bytes.now }
    ensures within { result ≤ length bytes.now }
{
    bytes.iter().filter(|b| **b == b'\n').count()
}

// The line behind so many newlines.
fn line_behind(newlines: usize) -> u32
    ensures { result ≡ min (newlines + 1) (2 ^ 32 - 1) }
{
    u32::try_from(newlines)
        .unwrap_or(u32::MAX)
        .saturating_add(1)
}

/// The line of an offset.
pub(crate) fn line_of(bytes: &[u8], at: usize) -> u32
    ensures { result ≡ line_at bytes.now at }
{
    line_behind(count_newlines(&bytes[..at.min(bytes.len())]))
}

/// The lines of the offsets, which rise: one walk over the bytes.
pub(crate) fn lines_of(alloc: Global, bytes: &[u8], offsets: &[usize]) -> Result<Vec<u32>, NoMemory>
    requires { Rises 0 offsets.now (length bytes.now) }
    ensures { IfOk result (λ lines. lines.items ≡ map (line_at bytes.now) offsets.now) }
{
    let mut lines = Vec::with_capacity(alloc, offsets.len())?;
    let mut before = 0;
    let mut walked = 0;
    for offset in offsets {
        before += count_newlines(&bytes[walked..*offset]);
        walked = *offset;
        lines.push(line_behind(before))?;
    }
    Ok(lines)
}
