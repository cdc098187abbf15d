ghost use Rattle.std.specs.Prelude.{◌≡◌, ◌≤◌, ◌+◌, ℕ, List, [], Option, OnOk, OnErr, IsErrOf};
ghost use Rattle.fx_io.specs.Outside.{Rose, append};
ghost use Rattle.fx_store.specs.Puts.{IsDraft, IsPut, IsOldOrNew};

use crate::{Store, StoreFault};
use fx_io::{Failed, Sink};

/// A sink beside which files can be put: one is begun, its bytes are added, and then it is put whole in the place of the one of its name.
pub trait FileSink: Sink {
    // the bytes of the file that was begun, where it tells its files
    ghost draft: { Self → Option (List ℕ) };

    /// Begins a file that is to have this name. One that was begun before is given up.
    fn begin_file(&mut self, name: &str) -> Result<(), StoreFault>
        ensures begun { OnOk result (IsDraft (Self.files self.new) (draft self.new) []) }
        ensures files { Self.files self.new ≡ Self.files self.old }
        ensures written { Self.written self.new ≡ Self.written self.old }
        ensures counts { Self.faults self.old ≤ Self.faults self.new }
        ensures cause { IsErrOf result StoreFault.Failed → Rose (Self.faults self.old) (Self.faults self.new) };

    /// Adds bytes to the file that was begun. With a fault it has some of them, or none.
    fn add_to_file(&mut self, bytes: &[u8]) -> Result<(), StoreFault>
        ensures added { OnOk result (draft self.new ≡ append (draft self.old) bytes.now) }
        ensures files { Self.files self.new ≡ Self.files self.old }
        ensures written { Self.written self.new ≡ Self.written self.old }
        ensures counts { Self.faults self.old ≤ Self.faults self.new }
        ensures cause { IsErrOf result StoreFault.Failed → Rose (Self.faults self.old) (Self.faults self.new) };

    /// Puts the file that was begun with this name in the place of the file of the name, or makes it. With `Ok` it is there under the name, and on
    /// the disk as far as the files of the store can be. With a fault the file is the old one or the new one, and never a part of it.
    fn put_file(&mut self, name: &str) -> Result<(), StoreFault>
        ensures put { OnOk result ((bytes : List ℕ) → IsDraft (Self.files self.old) (draft self.old) bytes → IsPut (Self.files self.old) (Self.files self.new) name.now bytes) }
        ensures kept { OnErr result ((bytes : List ℕ) → IsDraft (Self.files self.old) (draft self.old) bytes → IsOldOrNew (Self.files self.old) (Self.files self.new) name.now bytes) }
        ensures written { Self.written self.new ≡ Self.written self.old }
        ensures counts { Self.faults self.old ≤ Self.faults self.new }
        ensures cause { IsErrOf result StoreFault.Failed → Rose (Self.faults self.old) (Self.faults self.new) };

    /// Gives up the file that was begun with this name.
    fn give_up_file(&mut self, name: &str)
        ensures files { Self.files self.new ≡ Self.files self.old }
        ensures written { Self.written self.new ≡ Self.written self.old }
        ensures counts { Self.faults self.new ≡ Self.faults self.old };
}

/// A sink and a store as one object: an output, and the files beside it. A failed call of either is a failure of it, so its count is the sum of both.
#[derive(Drop)]
pub struct SinkWithFiles<K: Sink, T: Store> {
    /// Where its bytes go.
    pub sink: K,
    /// Where its files are put.
    pub store: T,
}

impl<K: Sink, T: Store> Sink for SinkWithFiles<K, T> {
    ghost written = { λ s. K.written s.sink };

    ghost files = { λ s. T.files s.store };

    ghost faults = { λ s. K.faults s.sink + T.faults s.store };

    fn write(&mut self, bytes: &[u8]) -> Result<usize, Failed> {
        self.sink.write(bytes)
    }
}

impl<K: Sink, T: Store> FileSink for SinkWithFiles<K, T> {
    ghost draft = { λ s. T.draft s.store };

    fn begin_file(&mut self, name: &str) -> Result<(), StoreFault> {
        self.store.begin_file(name)
    }

    fn add_to_file(&mut self, bytes: &[u8]) -> Result<(), StoreFault> {
        self.store.add_to_file(bytes)
    }

    fn put_file(&mut self, name: &str) -> Result<(), StoreFault> {
        self.store.put_file(name)
    }

    fn give_up_file(&mut self, name: &str) {
        self.store.give_up_file(name)
    }
}
