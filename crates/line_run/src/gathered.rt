ghost use Rattle.std.specs.Prelude.{◌≡◌, ◌≤◌, [], true, take, drop, OnOk, OnErr};
ghost use Rattle.fx_io.specs.Outside.{Rose, append, AppendsFront};
ghost use Rattle.line_run.specs.Prompt.{said};
ghost use Rattle.line_run.specs.Turns.{Flushes};

use fx_io::{Failed, Sink, write_all};

/// Writes the gathered bytes where this is wanted.
pub(crate) fn flush<K: Sink>(out: &mut K, text: &mut Vec<u8>, wanted: bool) -> Result<(), Failed>
    ensures ok { OnOk result (Flushes (K.written out.old) text.old.items (K.written out.new) text.new.items) }
    ensures all { wanted ≡ true → OnOk result (text.new.items ≡ []) }
    ensures err { OnErr result (AppendsFront (K.written out.old) (K.written out.new) text.old.items) }
    ensures files { K.files out.new ≡ K.files out.old }
    ensures counts { K.faults out.old ≤ K.faults out.new }
    ensures cause { OnErr result (Rose (K.faults out.old) (K.faults out.new)) }
{
    if !wanted {
        return Ok(());
    }
    write_all(out, text)?;
    text.clear();
    Ok(())
}

/// Writes the first so many of the gathered bytes, or all where they are fewer, and drops them.
pub(crate) fn flush_front<K: Sink>(
    out: &mut K,
    text: &mut Vec<u8>,
    count: usize,
) -> Result<(), Failed>
    ensures ok { OnOk result (K.written out.new ≡ append (K.written out.old) (take count text.old.items)) }
    ensures rest { OnOk result (text.new.items ≡ drop count text.old.items) }
    ensures err { OnErr result (AppendsFront (K.written out.old) (K.written out.new) (take count text.old.items)) }
    ensures files { K.files out.new ≡ K.files out.old }
    ensures counts { K.faults out.old ≤ K.faults out.new }
    ensures cause { OnErr result (Rose (K.faults out.old) (K.faults out.new)) }
{
    let front = count.min(text.len());
    write_all(out, &text[..front])?;
    text.drain(..front);
    Ok(())
}

/// Forgets what a line printed, where the run is silent.
pub(crate) fn hush(text: &mut Vec<u8>, silent: bool)
    ensures { text.new.items ≡ said silent text.old.items }
{
    if silent {
        text.clear();
    }
}
