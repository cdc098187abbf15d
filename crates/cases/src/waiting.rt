//! A caller who writes a line and waits for what it prints.
ghost use Rattle.std.specs.Prelude.{◌≡◌, ◌<◌, ◌≤◌, ◌++◌, [], length, take, drop, min, false, true, Some};
ghost use Rattle.cases.specs.Answered.{IsAnswered};

use crate::case::Case;
use crate::running::{Ran, files_of};
use crate::settings::MOST;
use crate::stopped::Stopped;
use fx_base::{Seq, Text};
use fx_io::{ChunkSink, Failed, MemShelf, Sink, Source, write_all};
use std::alloc::Global;

/// So many bytes are given and taken a call at most.
const PIECE: usize = 50;

/// What is printed for the lines that end in so many bytes of a script.
#[derive(Drop)]
pub(crate) struct Answer {
    pub(crate) len: usize,
    pub(crate) printed: Vec<u8>,
}

/// One who has a script in memory, gives at most so many bytes a call, and waits: he gives more only where the output is exactly what the
/// program is to print, for these words over these files, for the lines that ended in what he has given. No source is stricter that the
/// program may be run over. Where he knows the answers, he looks at the output, and fails if it is another one.
#[derive(Drop)]
pub(crate) struct Waiting<'a> {
    words: &'a [String],
    files: Vec<(Text, Seq<u8>)>,
    answers: Vec<Answer>,
    bytes: Vec<u8>,
    at: usize,
    most: usize,
    over: bool,
    faults: u64,
    ghost within: { at ≤ length bytes.items },
    ghost some: { 1 ≤ most },
}

impl<'a> Waiting<'a> {
    /// One who has given nothing so far.
    fn new(
        words: &'a [String],
        files: Vec<(Text, Seq<u8>)>,
        answers: Vec<Answer>,
        bytes: Vec<u8>,
        most: usize,
    ) -> Waiting<'a>
        requires { 1 ≤ most }
        ensures words { result.words.now ≡ words.now }
        ensures files { result.files.items ≡ files.items }
        ensures at { result.at ≡ 0 }
    {
        Waiting {
            words,
            files,
            answers,
            bytes,
            at: 0,
            most,
            over: false,
            faults: 0,
        }
    }
}

// Whether the output is what is known to be printed for the lines that end in these bytes.
fn is_known(answers: &[Answer], given: &[u8], written: &[u8]) -> bool {
    let len = match given.iter().rposition(|b| *b == b'\n') {
        Some(end) => end.saturating_add(1),
        None => return written.is_empty(),
    };
    for answer in answers {
        if answer.len == len {
            return answer.printed.as_slice() == written;
        }
    }
    true
}

// Copies as many bytes as fit, and at most so many.
fn copy_front(from: &[u8], to: &mut [u8], most: usize) -> usize
    ensures count { result ≡ min (min (length from.now) (length to.old)) most }
    ensures bytes { take result to.new ≡ take result from.now }
{
    let n = from.len().min(to.len()).min(most);
    to[..n].copy_from_slice(&from[..n]);
    n
}

// Whether the input has ended: it had, or no bytes were given where there was room for some.
fn is_over(before: bool, n: usize, room: usize) -> bool
    ensures stays { result ≡ false → before ≡ false }
    ensures over { n ≡ 0 → 0 < room → result ≡ true }
{
    if before {
        return true;
    }
    n == 0 && room > 0
}

impl Source<ChunkSink> for Waiting<'_> {
    ghost left = { λ s. Some (drop s.at s.bytes.items) };

    ghost given = { λ s. s.at };

    ghost faults = { λ s. s.faults };

    ghost may_ask = { λ s more out. s.over ≡ false
        → IsAnswered s.words.now s.files.items (take s.at s.bytes.items ++ more) (Some out.written) };

    fn read(&mut self, out: &ChunkSink, buf: &mut [u8]) -> Result<usize, Failed> {
        if !self.over && !is_known(&self.answers, &self.bytes[..self.at], out.written()) {
            self.faults = self.faults.saturating_add(1);
            return Err(Failed);
        }
        let n = copy_front(&self.bytes[self.at..], buf, self.most);
        self.at += n;
        self.over = is_over(self.over, n, buf.len());
        Ok(n)
    }
}

// The program serves one who waits.
fn serve(
    alloc: Global,
    words: &[String],
    shelf: &mut MemShelf,
    script: &mut Waiting<'_>,
    out: &mut ChunkSink,
) -> u8
    requires words { script.old.words.now ≡ words.now }
    requires files { script.old.files.items ≡ shelf.old.files }
    requires fresh { script.old.at ≡ 0 }
    requires empty { out.old.written ≡ [] }
{
    sozhipen::run(alloc, words, shelf, script, out)
}

/// Runs a case for one who waits and knows these answers, and writes a line where it prints anything but what it did.
pub(crate) fn try_waiting<K: Sink>(
    alloc: Global,
    case: &Case,
    whole: &Ran,
    answers: Vec<Answer>,
    out: &mut K,
) -> Result<(), Stopped> {
    let words = case.settings.words.as_slice();
    let rules = case.rules.as_slice();
    let mut shelf = MemShelf::new(files_of(alloc, rules, &[])?, Vec::new(alloc));
    let script = case.script.to_vec(alloc)?;
    let mut script = Waiting::new(words, files_of(alloc, rules, &[])?, answers, script, PIECE);
    let mut printed = ChunkSink::new(alloc, case.settings.room.min(MOST), PIECE)?;
    let status = serve(alloc, words, &mut shelf, &mut script, &mut printed);
    if status != whole.status || printed.written() != whole.printed.as_slice() {
        write_all(out, b"=== for one who waits: other\n")?;
    }
    Ok(())
}
