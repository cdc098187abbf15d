ghost use Rattle.std.specs.Prelude.{◌≡◌, IfOk};
ghost use Rattle.rule_model.specs.Lent.{lent};
ghost use Rattle.rule_world.specs.Worlds.{World};
ghost use Rattle.engine.specs.WorldCounts.{world_counts as counts_of_world};
ghost use Rattle.engine.specs.KeptFacts.{kept_by_tag};

use crate::promise::Engine;
use crate::world_counts::WorldCounts;
use fx_base::{Fact, NoMemory};
use std::alloc::Global;

/// An engine that can be asked what it keeps. Neither question changes it.
pub trait Inspect: Engine {
    /// The facts that are kept, in the order of their tags. Time grows with them, and memory by a reference each.
    fn kept(&self, alloc: Global) -> Result<Vec<&Fact>, NoMemory>
        ensures { IfOk result (λ facts. (w : World) → Self.stands self.now w
            → lent facts.items ≡ kept_by_tag (Self.made_with self.now) (Self.table self.now) w) };

    /// The clock, and counts. It goes over the types and the entry points, not over the facts, and takes memory for their numbers alone.
    fn world_counts(&self, alloc: Global) -> Result<WorldCounts, NoMemory>
        ensures { IfOk result (λ counts. (w : World) → Self.stands self.now w
            → counts ≡ counts_of_world (Self.made_with self.now) (Self.table self.now) w) };
}
