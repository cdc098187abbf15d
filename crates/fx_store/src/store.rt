ghost use Rattle.std.specs.Prelude.{◌≡◌, ◌<◌, ◌≤◌, ℕ, List, [], Option, option_map, OnOk, OnErr, IsErrOf};
ghost use Rattle.fx_io.specs.Outside.{Rose, append};
ghost use Rattle.fx_store.specs.Puts.{IsDraft, IsPut, IsOldOrNew};

/// Why a file was not put.
#[derive(Clone, Copy, Debug, PartialEq, Eq)]
pub enum StoreFault {
    /// The outside refused a call.
    Failed,
    /// Memory was refused.
    NoMemory,
}

/// Files by name that can be put: one is begun, its bytes are added, and then it is put whole in the place of the one of its name.
pub trait Store {
    /// The file of each name, where it tells them.
    ghost files: { Self → Option (List ℕ → Option (List ℕ)) };

    /// The bytes of the file that was begun, where it tells its files.
    ghost draft: { Self → Option (List ℕ) };

    /// How often it has failed; stands still at 2^64 - 1.
    ghost faults: { Self → ℕ };

    /// Begins a file that is to have this name. One that was begun before is given up.
    fn begin_file(&mut self, name: &str) -> Result<(), StoreFault>
        ensures begun { OnOk result (IsDraft (files self.new) (draft self.new) []) }
        ensures files { files self.new ≡ files self.old }
        ensures counts { faults self.old ≤ faults self.new }
        ensures cause { IsErrOf result StoreFault.Failed → Rose (faults self.old) (faults self.new) };

    /// Adds bytes to the file that was begun. With a fault it has some of them, or none.
    fn add_to_file(&mut self, bytes: &[u8]) -> Result<(), StoreFault>
        ensures added { OnOk result (draft self.new ≡ append (draft self.old) bytes.now) }
        ensures files { files self.new ≡ files self.old }
        ensures counts { faults self.old ≤ faults self.new }
        ensures cause { IsErrOf result StoreFault.Failed → Rose (faults self.old) (faults self.new) };

    /// Puts the file that was begun with this name in the place of the file of the name, or makes it. With `Ok` it is there under the name, and on
    /// the disk as far as the files of the store can be. With a fault the file is the old one or the new one, and never a part of it.
    fn put_file(&mut self, name: &str) -> Result<(), StoreFault>
        ensures put { OnOk result ((bytes : List ℕ) → IsDraft (files self.old) (draft self.old) bytes → IsPut (files self.old) (files self.new) name.now bytes) }
        ensures kept { OnErr result ((bytes : List ℕ) → IsDraft (files self.old) (draft self.old) bytes → IsOldOrNew (files self.old) (files self.new) name.now bytes) }
        ensures counts { faults self.old ≤ faults self.new }
        ensures cause { IsErrOf result StoreFault.Failed → Rose (faults self.old) (faults self.new) };

    /// Gives up the file that was begun with this name.
    fn give_up_file(&mut self, name: &str)
        ensures files { files self.new ≡ files self.old }
        ensures counts { faults self.new ≡ faults self.old };
}
