ghost use Rattle.std.specs.Prelude.{◌≡◌, ◌<◌, ◌^◌, pos};

use std::marker::Model;

/// A whole number from 0 to 2^63 - 1: it and its negative are numbers of 64 bits with sign.
#[derive(Clone, Copy, Debug, PartialEq, Eq)]
pub struct Natural {
    number: u64,
}

impl Model for Natural {
    ghost use Rattle.std.specs.Prelude.{ℕ, ◌<◌, ◌^◌};

    ghost Value = { ℕ };

    ghost view = { λ n. n.number };

    ghost invariant = { λ n. n.number < 2 ^ 63 };

    ghost inverse = { λ n. record { number = n } };
}

impl Natural {
    /// The same number. Takes no memory.
    pub fn new(number: u64) -> Natural
        requires { number < 2 ^ 63 }
        ensures { result ≡ number }
    {
        Natural { number }
    }

    /// The same number. Takes no memory.
    pub fn value(self) -> i64
        ensures { result ≡ pos self }
    {
        self.number as i64
    }
}
