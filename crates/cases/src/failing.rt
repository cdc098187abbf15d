use fx_io::{Failed, Sink, Source};

/// A source or a sink of which the listed calls fail, counted from 1. The other calls are those of what is inside.
#[derive(Drop)]
pub(crate) struct Failing<T> {
    pub(crate) inside: T,
    failing: Vec<u64>,
    /// How many calls it has had.
    pub(crate) calls: u64,
    /// How many bytes went through it.
    pub(crate) bytes: u64,
    faults: u64,
}

impl<T> Failing<T> {
    pub(crate) fn new(inside: T, failing: Vec<u64>) -> Failing<T> {
        Failing {
            inside,
            failing,
            calls: 0,
            bytes: 0,
            faults: 0,
        }
    }
}

impl<K, S: Source<K>> Source<K> for Failing<S> {
    ghost left = { λ s. S.left s.inside };

    ghost given = { λ s. S.given s.inside };

    ghost faults = { λ s. s.faults };

    ghost may_ask = { λ s. S.may_ask s.inside };

    fn read(&mut self, out: &K, buf: &mut [u8]) -> Result<usize, Failed> {
        self.calls = self.calls.saturating_add(1);
        if !self.failing.contains(&self.calls) {
            if let Ok(n) = self.inside.read(out, buf) {
                self.bytes = self.bytes.saturating_add(n as u64);
                return Ok(n);
            }
        }
        self.faults = self.faults.saturating_add(1);
        Err(Failed)
    }
}

impl<K: Sink> Sink for Failing<K> {
    ghost written = { λ s. K.written s.inside };

    ghost files = { λ s. K.files s.inside };

    ghost faults = { λ s. s.faults };

    fn write(&mut self, bytes: &[u8]) -> Result<usize, Failed> {
        self.calls = self.calls.saturating_add(1);
        if !self.failing.contains(&self.calls) {
            if let Ok(n) = self.inside.write(bytes) {
                self.bytes = self.bytes.saturating_add(n as u64);
                return Ok(n);
            }
        }
        self.faults = self.faults.saturating_add(1);
        Err(Failed)
    }
}
