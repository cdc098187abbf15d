//! The summary of what a run over a load prints.
ghost use Rattle.std.specs.Prelude.{◌≡◌, ◌<◌, ◌≤◌, ◌++◌, ◌∷◌, ◌==◌, if◌then◌else◌, length, OnOk};
ghost use Rattle.std.specs.List.{starts_with};
ghost use Rattle.fx_io.specs.Lines.{lines_of};
ghost use Rattle.replay.specs.Summary.{lines_with, summary_text};

use fx_base::NoMemory;
use memchr::memchr;
use script_run::push_number;

// The first line of a text that is not empty, and the text behind it.
fn first_line(text: &[u8]) -> (&[u8], &[u8])
    requires { 0 < length text.now }
    ensures lines { lines_of text.now ≡ result.0.now ∷ lines_of result.1.now }
    ensures less { length result.1.now < length text.now }
{
    match memchr(b'\n', text) {
        Some(end) => (&text[..end], &text[end + 1..]),
        None => (text, &text[text.len()..]),
    }
}

// 1 for a line that begins with these bytes, else 0.
fn one_with(front: &[u8], line: &[u8]) -> usize
    ensures one { result ≡ (if starts_with (λ a b. a == b) line.now front.now then 1 else 0) }
    ensures most { result ≤ 1 }
{
    if line.starts_with(front) { 1 } else { 0 }
}

// How many lines of a text begin with these bytes.
fn lines_with(front: &[u8], text: &[u8]) -> usize
    ensures { result ≡ lines_with front.now text.now }
{
    let mut rest = text;
    let mut count = 0;
    while !rest.is_empty() {
        let (line, more) = first_line(rest);
        count += one_with(front, line);
        rest = more;
    }
    count
}

// How many lines a text has.
#[tactic(auto, using(crate::proofs::Counted::all_lines))]
fn count_lines(text: &[u8]) -> usize
    ensures { result ≡ length (lines_of text.now) }
{
    lines_with(b"", text)
}

/// Appends the summary of what the run over the load of this number printed.
pub(crate) fn push_summary(text: &mut Vec<u8>, number: u32, printed: &[u8]) -> Result<(), NoMemory>
    ensures { OnOk result (text.new.items ≡ text.old.items ++ summary_text number printed.now) }
{
    text.extend_from_slice(b"gen ")?;
    push_number(text, u64::from(number))?;
    text.extend_from_slice(b" lines ")?;
    push_number(text, count_lines(printed) as u64)?;
    text.extend_from_slice(b" fires ")?;
    push_number(text, lines_with(b"fire ", printed) as u64)?;
    text.extend_from_slice(b" faults ")?;
    push_number(text, lines_with(b"fault ", printed) as u64)?;
    text.push(b'\n')?;
    Ok(())
}
