ghost use Rattle.std.specs.Prelude.{◌≡◌, ◌-◌, ◌^◌, ◌<◌, length, Contains, OnOk, OnErr};
ghost use Rattle.fold_fn.specs.Order.{insert_rising};
ghost use Rattle.fold_fn.specs.Results.{fold_result};

use fx_base::NoMemory;

/// An accumulate function over whole numbers that come and go (Drools Fusion 5 User Guide). It is
/// seen as the list of its values up to their order, which is the list in rising order.
pub trait Fold {
    ghost use Rattle.std.specs.Prelude.{ℤ, List};
    ghost use Rattle.fold_fn.specs.declared.kind.FoldKind.{FoldKind};

    ghost kind: { Self → FoldKind };

    ghost values: { Self → List ℤ };

    /// Adds one value. The fold is as it was where memory is refused.
    fn add(&mut self, value: i64) -> Result<(), NoMemory>
        requires few { length (values self.old) < 2 ^ 63 - 1 }
        ensures ok { OnOk result (values self.new ≡ insert_rising value (values self.old)) }
        ensures err { OnErr result (self.new ≡ self.old) }
        ensures kind { kind self.new ≡ kind self.old };

    /// Takes back one value that is held. Takes no memory.
    fn take_back(&mut self, value: i64)
        requires held { Contains (values self.old) value }
        ensures one { values self.old ≡ insert_rising value (values self.new) }
        ensures kind { kind self.new ≡ kind self.old };

    /// What the function gives of the values. Takes no memory.
    fn result(&self) -> Option<i64>
        ensures { result ≡ fold_result (kind self.now) (values self.now) };
}
