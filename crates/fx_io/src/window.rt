ghost use Rattle.std.specs.Prelude.{◌≡◌, ◌≢◌, ◌<◌, ◌≤◌, ◌+◌, ℕ, true, [], length, take, drop, slice_index, Option, Ok, Some, IfOk, IfSome, OnErr};
ghost use Rattle.fx_io.specs.Outside.{Rose, prepend, count_after, IsExhausted};
ghost use Rattle.fx_io.specs.Asking.{Follows, MayAlways};
ghost use Rattle.fx_io.specs.Lines.{has_end, IsFirstEnd};

use crate::{Failed, Source};
use fx_base::NoMemory;
use memchr::memchr;
use std::alloc::Global;
use std::marker::Model;

/// Bytes that were taken from a source and are not used yet. The place of the first line end in them is kept, so
/// that no byte is searched twice.
#[derive(Drop)]
pub(crate) struct Window {
    buffer: Vec<u8>,
    from: usize,
    to: usize,
    end: Option<usize>,
}

impl Model for Window {
    ghost use Rattle.std.specs.Prelude.{List, ℕ};

    ghost Value = { List ℕ };

    ghost use Rattle.fx_io.specs.Window.{filled, IsReaderWindow};

    ghost view = { filled };

    ghost invariant = { IsReaderWindow };
}

/// How many bytes a read of the source may take at most.
pub(crate) const BUFFER_LEN: usize = 65536;

impl Window {
    pub(crate) fn new(alloc: Global) -> Result<Window, NoMemory>
        ensures { IfOk result (λ window. window ≡ []) }
    {
        let buffer = vec![in alloc; 0u8; BUFFER_LEN]?;
        Ok(Window {
            buffer,
            from: 0,
            to: 0,
            end: None,
        })
    }

    pub(crate) fn bytes(&self) -> &[u8]
        ensures { result.now ≡ self.now }
    {
        &self.buffer[self.from..self.to]
    }

    /// The place of the first line end among the bytes.
    pub(crate) fn first_end(&self) -> Option<usize>
        ensures { IsFirstEnd self.now result }
    {
        self.end
    }

    /// Whether a line ends among the bytes.
    #[tactic(auto, using(crate::proofs::Ends::some_first_end))]
    pub(crate) fn has_end(&self) -> bool
        ensures { result ≡ has_end self.now }
    {
        self.end.is_some()
    }

    /// Uses the first n bytes.
    pub(crate) fn skip(&mut self, n: usize)
        requires { n ≤ length self.old }
        ensures { self.new ≡ drop n self.old }
    {
        self.from += n;
        self.end = find_end(&self.buffer[self.from..self.to]);
    }

    /// Uses all the bytes.
    pub(crate) fn clear(&mut self)
        ensures { self.new ≡ [] }
    {
        self.from = self.to;
        self.end = None;
    }

    /// Puts in place of the bytes at most so many of the source.
    pub(crate) fn refill<K, S: Source<K>>(
        &mut self,
        source: &mut S,
        out: &K,
        most: u64,
    ) -> Result<usize, Failed>
        requires some { 0 < most }
        requires asks { S.may_ask source.old [] out.now }
        ensures asked { IfOk result (λ _. Follows (S.may_ask source.old) self.new (S.may_ask source.new)) }
        ensures err_asked { OnErr result (Follows (S.may_ask source.old) [] (S.may_ask source.new)) }
        ensures ended { result ≡ Ok 0 → MayAlways (S.may_ask source.new) }
        ensures len { IfOk result (λ n. length self.new ≡ n) }
        ensures within { IfOk result (λ n. n ≤ most) }
        ensures taken { IfOk result (λ n. S.left source.old ≡ prepend self.new (S.left source.new)) }
        ensures given { IfOk result (λ n. S.given source.new ≡ count_after (S.given source.old) n) }
        ensures end { result ≡ Ok 0 → IsExhausted (S.left source.old) }
        ensures err { OnErr result (S.left source.new ≡ S.left source.old) }
        ensures err_given { OnErr result (S.given source.new ≡ S.given source.old) }
        ensures counts { S.faults source.old ≤ S.faults source.new }
        ensures cause { OnErr result (Rose (S.faults source.old) (S.faults source.new)) }
    {
        self.from = 0;
        self.to = 0;
        self.end = None;
        let n = read_front(source, out, &mut self.buffer, most)?;
        self.to = n;
        self.end = find_end(&self.buffer[..n]);
        Ok(n)
    }
}

// The place of the first line end.
#[tactic(auto, using(crate::proofs::Ends::first_end_found))]
fn find_end(bytes: &[u8]) -> Option<usize>
    ensures { IsFirstEnd bytes.now result }
{
    memchr(b'\n', bytes)
}

// Takes at most so many bytes into the front of a buffer. The buffer that is lent to the source has at most so many,
// so what lies behind them stays.
#[tactic(auto, using(crate::proofs::Told::prepend_front))]
fn read_front<K, S: Source<K>>(
    source: &mut S,
    out: &K,
    buffer: &mut [u8],
    most: u64,
) -> Result<usize, Failed>
    requires room { 0 < length buffer.old }
    requires some { 0 < most }
    requires asks { S.may_ask source.old [] out.now }
    ensures asked { IfOk result (λ n. Follows (S.may_ask source.old) (take n buffer.new) (S.may_ask source.new)) }
    ensures err_asked { OnErr result (Follows (S.may_ask source.old) [] (S.may_ask source.new)) }
    ensures ended { result ≡ Ok 0 → MayAlways (S.may_ask source.new) }
    ensures len { IfOk result (λ n. n ≤ length buffer.old) }
    ensures within { IfOk result (λ n. n ≤ most) }
    ensures lent { drop most buffer.new ≡ drop most buffer.old }
    ensures taken { IfOk result (λ n. S.left source.old ≡ prepend (take n buffer.new) (S.left source.new)) }
    ensures given { IfOk result (λ n. S.given source.new ≡ count_after (S.given source.old) n) }
    ensures end { result ≡ Ok 0 → IsExhausted (S.left source.old) }
    ensures err { OnErr result (S.left source.new ≡ S.left source.old) }
    ensures err_given { OnErr result (S.given source.new ≡ S.given source.old) }
    ensures counts { S.faults source.old ≤ S.faults source.new }
    ensures cause { OnErr result (Rose (S.faults source.old) (S.faults source.new)) }
{
    let room = (buffer.len() as u64).min(most) as usize;
    source.read(out, &mut buffer[..room])
}
