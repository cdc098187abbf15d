ghost use Rattle.std.specs.Prelude.{◌≡◌, ◌∷◌, option_map};
ghost use Rattle.join_tests.specs.Kept.{once, all_sought, own_value, values_seen, one_or_none};

use crate::join_value::JoinValue;
use fx_base::Value;

/// The values under which rows or candidates are sought: one, or two that differ.
#[derive(Drop)]
pub enum Sought<'a> {
    One(JoinValue<'a>),
    Two(Value, Value),
}

impl<'a> Sought<'a> {
    /// The value, or both. Takes no memory.
    fn values(&self) -> (&Value, Option<&Value>)
        ensures { all_sought self.now ≡ result.0.now ∷ one_or_none (option_map (λ v. v.now) result.1) }
    {
        match self {
            Sought::One(value) => (value.value(), None),
            Sought::Two(first, second) => (first, Some(second)),
        }
    }
}

/// The value under which a candidate is kept, and those under which rows are sought for it: the same one, or others.
#[derive(Drop)]
pub enum Sight<'a> {
    Alike(JoinValue<'a>),
    Apart(Value, Sought<'a>),
}

impl<'a> Sight<'a> {
    /// The value under which the candidate is kept. Takes no memory.
    pub fn own(&self) -> &Value
        ensures { result.now ≡ own_value self.now }
    {
        match self {
            Sight::Alike(value) => value.value(),
            Sight::Apart(value, _) => value,
        }
    }

    /// The values under which rows are sought for the candidate: one, or two that differ. Takes no memory.
    pub fn sought(&self) -> (&Value, Option<&Value>)
        ensures { values_seen self.now ≡ result.0.now ∷ one_or_none (option_map (λ v. v.now) result.1) }
    {
        match self {
            Sight::Alike(value) => (value.value(), None),
            Sight::Apart(_, sought) => sought.values(),
        }
    }
}

/// The values of two slots; one value once. Takes no memory.
pub(crate) fn once<'a>(first: Value, last: Value) -> Sought<'a>
    ensures { all_sought result ≡ once first last }
{
    if first.same(&last) {
        Sought::One(JoinValue::Made(first))
    } else {
        Sought::Two(first, last)
    }
}
