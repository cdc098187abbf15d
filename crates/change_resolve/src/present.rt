ghost use Rattle.std.specs.Prelude.{◌≡◌, option_map};

use fx_base::{Fact, FactId};

/// What a change is asked of: the present facts by their ids, and whether the world has begun.
pub trait Present {
    ghost use Rattle.std.specs.Prelude.{ℕ, Bool, Option};
    ghost use Rattle.fx_base.specs.declared.fact.Fact.{Fact};

    ghost present: { Self → ℕ → Option Fact };

    ghost has_begun: { Self → Bool };

    /// The fact with this id, if one is present. Takes no memory.
    fn fact_with(&self, id: FactId) -> Option<&Fact>
        ensures { option_map (λ f. f.now) result ≡ present self.now id.0 };

    /// Whether the world has begun: no fact of a reference type comes any more. Takes no memory.
    fn begun(&self) -> bool
        ensures { result ≡ has_begun self.now };
}
