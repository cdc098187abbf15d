ghost use Rattle.std.specs.Prelude.{◌≡◌, ◌<◌, ◌≤◌, ℕ, List, [], length, take, drop, Option, IfOk, IfSome, OnErr, IsErrOf, Ok};
ghost use Rattle.fx_io.specs.Asking.{Follows, MayAlways};
ghost use Rattle.fx_io.specs.Outside.{Rose, count_after, prepend, append, IsExhausted, file_told, IsMissing, IsOnShelf};

/// The outside refused a call.
#[derive(Clone, Copy, Debug, PartialEq, Eq)]
pub struct Failed;

/// Why a file was not read.
#[derive(Clone, Copy, Debug, PartialEq, Eq)]
pub enum ShelfFault {
    /// There is no file of this name.
    Missing,
    Failed,
}

/// Bytes that come in, of one whose answers go out by outputs of the type `K`.
pub trait Source<K> {
    /// The bytes that are left, where it tells them.
    ghost left: { Self → Option (List ℕ) };

    /// How many bytes it has given; stands still at 2^64 - 1.
    ghost given: { Self → ℕ };

    /// How often it has failed; stands still at 2^64 - 1.
    ghost faults: { Self → ℕ };

    /// Whether it may be asked for more where the output is so, once these bytes more were taken from it: what one who waits
    /// for answers wants to have before he goes on.
    ghost may_ask: { Self → List ℕ → K → Type 0 };

    /// Takes the next bytes into the front of the buffer, and says how many. 0 into a buffer that is not empty is
    /// the end of the input. A call that fails takes nothing. The output is only looked at: it is to be as the source
    /// wants it.
    fn read(&mut self, out: &K, buf: &mut [u8]) -> Result<usize, Failed>
        requires { may_ask self.old [] out.now }
        ensures asked { IfOk result (λ n. Follows (may_ask self.old) (take n buf.new) (may_ask self.new)) }
        ensures err_asked { OnErr result (Follows (may_ask self.old) [] (may_ask self.new)) }
        ensures ended { 0 < length buf.old → result ≡ Ok 0 → MayAlways (may_ask self.new) }

        ensures within { IfOk result (λ n. n ≤ length buf.old) }
        ensures taken { IfOk result (λ n. left self.old ≡ prepend (take n buf.new) (left self.new)) }
        ensures end { 0 < length buf.old → result ≡ Ok 0 → IsExhausted (left self.old) }
        ensures given { IfOk result (λ n. given self.new ≡ count_after (given self.old) n) }

        ensures err { OnErr result (left self.new ≡ left self.old) }
        ensures err_given { OnErr result (given self.new ≡ given self.old) }

        ensures counts { faults self.old ≤ faults self.new }
        ensures cause { OnErr result (Rose (faults self.old) (faults self.new)) };
}

/// Bytes that go out.
pub trait Sink {
    /// The bytes written, where it tells them.
    ghost written: { Self → Option (List ℕ) };

    /// The file of each name that lies beside it, where it tells them.
    ghost files: { Self → Option (List ℕ → Option (List ℕ)) };

    /// How often a call has failed, of writing or of putting a file; may stand still from 2^64 - 1 on.
    ghost faults: { Self → ℕ };

    /// Appends a front of the bytes, and says how many; of a piece that is not empty at least one. A call that fails
    /// appends nothing.
    fn write(&mut self, bytes: &[u8]) -> Result<usize, Failed>
        ensures within { IfOk result (λ n. n ≤ length bytes.now) }
        ensures some { 0 < length bytes.now → IfOk result (λ n. 0 < n) }
        ensures appended { IfOk result (λ n. written self.new ≡ append (written self.old) (take n bytes.now)) }

        ensures err { OnErr result (written self.new ≡ written self.old) }

        ensures files { files self.new ≡ files self.old }

        ensures counts { faults self.old ≤ faults self.new }
        ensures cause { OnErr result (Rose (faults self.old) (faults self.new)) };
}

/// Files by name.
pub trait Shelf {
    /// The file of each name, where it tells them.
    ghost files: { Self → Option (List ℕ → Option (List ℕ)) };

    /// How often a file of this name failed; stands still at 2^64 - 1.
    ghost faults: { Self → List ℕ → ℕ };

    /// How often a file of this name was missing; stands still at 2^64 - 1.
    ghost misses: { Self → List ℕ → ℕ };

    /// Copies bytes of a file from the place `at` on into the front of the buffer, and says how many. 0 into a buffer
    /// that is not empty: the file ends there.
    fn read_file(&mut self, name: &str, at: u64, buf: &mut [u8]) -> Result<usize, ShelfFault>
        ensures within { IfOk result (λ n. n ≤ length buf.old) }
        ensures bytes { IfSome (file_told (files self.old) name.now)
            (λ file. IfOk result (λ n. take n buf.new ≡ take n (drop at file))) }
        ensures end { IfSome (file_told (files self.old) name.now)
            (λ file. 0 < length buf.old → result ≡ Ok 0 → length file ≤ at) }

        // Where the files are told, `Missing` is answered exactly where the name is not among them.
        ensures missing { IsErrOf result ShelfFault.Missing → IsMissing (files self.old) name.now }
        ensures found { IfOk result (λ _. IsOnShelf (files self.old) name.now) }
        ensures failed_found { IsErrOf result ShelfFault.Failed → IsOnShelf (files self.old) name.now }

        ensures files { files self.new ≡ files self.old }

        ensures counts { (other : List ℕ) → faults self.old other ≤ faults self.new other }
        ensures miss_counts { (other : List ℕ) → misses self.old other ≤ misses self.new other }
        ensures cause { IsErrOf result ShelfFault.Failed
            → Rose (faults self.old name.now) (faults self.new name.now) }
        ensures miss { IsErrOf result ShelfFault.Missing
            → Rose (misses self.old name.now) (misses self.new name.now) };
}
