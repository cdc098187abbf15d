ghost use Rattle.std.specs.Prelude.{◌≡◌, Some, IfOk, OnErr, is_err, length, min, take};
ghost use Rattle.fx_io.specs.Memory.{is_call_listed, source_failed, source_gave};

use crate::serving::copy_front;
use crate::{Failed, Source};
use std::marker::Model;

/// A source of bytes in memory. Exactly those of its calls fail whose numbers, counted from 1, are listed.
#[derive(Drop)]
pub struct MemSource {
    bytes: Vec<u8>,
    at: usize,
    failing: Vec<u64>,
    calls: u64,
    faults: u64,
}

impl Model for MemSource {
    ghost use Rattle.std.specs.Prelude.{◌≤◌, drop, vec_len};
    ghost use Rattle.fx_io.specs.Memory.{SourceView};

    ghost Value = { SourceView };

    ghost view = { λ s. record {
      left = drop s.at s.bytes.items;
      given = s.at;
      failing = s.failing.items;
      calls = s.calls;
      faults = s.faults;
    } };

    ghost invariant = { λ s. s.at ≤ vec_len s.bytes };
}

impl MemSource {
    /// A source that has these bytes left, and of which these calls fail. Takes no memory.
    pub fn new(bytes: Vec<u8>, failing: Vec<u64>) -> MemSource
        ensures { result ≡ record {
          left = bytes.items;
          given = 0;
          failing = failing.items;
          calls = 0;
          faults = 0;
        } }
    {
        MemSource {
            bytes,
            at: 0,
            failing,
            calls: 0,
            faults: 0,
        }
    }
}

impl<K> Source<K> for MemSource {
    ghost left = { λ s. Some s.left };

    ghost given = { λ s. s.given };

    ghost faults = { λ s. s.faults };

    ghost may_ask = { λ _ _ _. Unit {0} };

    #[tactic(auto, using(crate::proofs::Told::read_more, std::proofs::lemmas::List::take_rest))]
    fn read(&mut self, _out: &K, buf: &mut [u8]) -> Result<usize, Failed>
        // Exact; what every source ensures follows from these clauses.
        ensures fails { is_err result ≡ is_call_listed self.old.failing self.old.calls }
        ensures failed { OnErr result (self.new ≡ source_failed self.old) }
        ensures fits { IfOk result (λ n. n ≡ min (length self.old.left) (length buf.old)) }
        ensures bytes { IfOk result (λ n. take n buf.new ≡ take n self.old.left) }
        ensures gave { IfOk result (λ n. self.new ≡ source_gave self.old n) }
    {
        self.calls = self.calls.saturating_add(1);
        if self.failing.contains(&self.calls) {
            self.faults = self.faults.saturating_add(1);
            return Err(Failed);
        }
        let n = copy_front(&self.bytes[self.at..], buf);
        self.at += n;
        Ok(n)
    }
}
