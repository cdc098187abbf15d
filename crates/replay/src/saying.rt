//! One line as all that is written.
ghost use Rattle.std.specs.Prelude.{◌≡◌, ◌⊎◌, ◌≤◌};
ghost use Rattle.fx_io.specs.Outside.{Rose, append, AppendsFront};
ghost use Rattle.replay.specs.Refusals.{refusal_text};

use crate::refusal::{Refusal, push_refusal};
use fx_io::{Sink, write_all};
use std::alloc::Global;

/// Writes lines and answers the status, or 6.
pub fn say<K: Sink>(out: &mut K, lines: &[u8], status: u8) -> u8
    requires { status ≤ 4 }
    ensures said { result ≤ 4 → (K.written out.new ≡ append (K.written out.old) lines.now) × (result ≡ status) }
    ensures front { 5 ≤ result → AppendsFront (K.written out.old) (K.written out.new) lines.now }
    ensures either { (result ≡ status) ⊎ (result ≡ 6) }
    ensures cause { result ≡ 6 → Rose (K.faults out.old) (K.faults out.new) }
    ensures files { K.files out.new ≡ K.files out.old }
{
    match write_all(out, lines) {
        Ok(()) => status,
        Err(_) => 6,
    }
}

/// Writes the line of a refused file.
pub fn refuse<K: Sink>(alloc: Global, out: &mut K, refusal: Refusal) -> u8
    ensures said { result ≤ 4 → (K.written out.new ≡ append (K.written out.old) (refusal_text refusal)) × (result ≡ 3) }
    ensures front { 5 ≤ result → AppendsFront (K.written out.old) (K.written out.new) (refusal_text refusal) }
    ensures answers { (result ≡ 3) ⊎ ((6 ≤ result) × (result ≤ 7)) }
    ensures cause { result ≡ 6 → Rose (K.faults out.old) (K.faults out.new) }
    ensures files { K.files out.new ≡ K.files out.old }
{
    let mut text = Vec::new(alloc);
    match push_refusal(&mut text, refusal) {
        Ok(()) => say(out, text.as_slice(), 3),
        Err(_) => 7,
    }
}
