ghost use Rattle.std.specs.Prelude.{IfOk, IsTrue};
ghost use Rattle.rule_model.specs.declared.condition.Pattern.{Pattern as PatternData};
ghost use Rattle.rete_net.specs.Sourcing.{AreAlike, IsKeyOf};

use fx_base::{Copies, NoMemory, Seq};
use join_tests::NameKey;
use rule_model::{Condition, Pattern};
use std::alloc::Global;

/// What decides of which source a node may be: what its pattern takes, as a condition that asks nothing of rows, and how it keeps
/// candidates.
#[derive(Drop)]
pub(crate) struct SourceKey {
    taken: Condition,
    kept: NameKey,
}

impl SourceKey {
    /// The key of a pattern. It copies the constant tests.
    pub(crate) fn of(alloc: Global, pattern: &Pattern) -> Result<SourceKey, NoMemory>
        ensures { IfOk result (λ key. IsKeyOf pattern.now key) }
    {
        let kept = NameKey::of(alloc, pattern)?;
        let alone = pattern.alone.copy(alloc)?;
        let taken = Condition::Plain(Pattern {
            ty: pattern.ty,
            entry: pattern.entry,
            window: pattern.window,
            alone,
            joined: Seq::from_vec(Vec::new(alloc)),
            times: Seq::from_vec(Vec::new(alloc)),
        });
        Ok(SourceKey { taken, kept })
    }

    /// Whether it is the same: patterns with the same one take and keep alike. Takes no memory.
    pub(crate) fn is_same(&self, other: &SourceKey) -> bool
        ensures { IsTrue result → (p q : PatternData) → IsKeyOf p self.now → IsKeyOf q other.now → AreAlike p q }
    {
        self.kept.is_same(&other.kept) && self.taken.is_same(&other.taken)
    }
}
