ghost use Rattle.std.specs.Prelude.{◌≡◌, IfOk};
ghost use Rattle.join_tests.specs.JoinValues.{shown};

use fx_base::{Copies, NoMemory, Value};
use std::alloc::Global;

/// A value by which rows and candidates find each other: lent by a fact, or made.
#[derive(Drop)]
pub enum JoinValue<'a> {
    Lent(&'a Value),
    Made(Value),
}

impl<'a> JoinValue<'a> {
    /// The value, to look something up by it. Takes no memory.
    pub fn value(&self) -> &Value
        ensures { result.now ≡ shown self.now }
    {
        match self {
            JoinValue::Lent(value) => *value,
            JoinValue::Made(value) => value,
        }
    }

    /// The value, to keep something under it: a copy of what is lent.
    pub fn into_value(self, alloc: Global) -> Result<Value, NoMemory>
        ensures { IfOk result (λ value. value ≡ shown self.entry) }
    {
        match self {
            JoinValue::Lent(value) => value.copy(alloc),
            JoinValue::Made(value) => Ok(value),
        }
    }
}
