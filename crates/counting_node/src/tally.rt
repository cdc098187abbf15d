ghost use Rattle.std.specs.Prelude.{◌≡◌, ◌&&◌, Bool, true, false, IfOk};
ghost use Rattle.std.specs.Ordering.{eq_by_cmp};
ghost use Rattle.row_delta.specs.declared.row.Row.{Row};
ghost use Rattle.row_delta.specs.Rows.{row_cmp};
ghost use Rattle.join_tests.specs.Joins.{Look};
ghost use Rattle.join_memory.specs.Standing.{either};
ghost use Rattle.counting_node.specs.Extras.{AreApart, IsBeyond};
ghost use Rattle.counting_node.specs.Tallies.{TurnedTally};
ghost use Rattle.counting_node.specs.Origins.{is_from};

use fx_base::{Facts, NoMemory, Seq};
use row_delta::{Extra, Named, Row};
use std::alloc::Global;

/// What a tally counts beyond the candidates at hand: how many more, and what it gathers of them, rising.
#[derive(Drop)]
pub struct Beyond {
    pub count: u64,
    pub values: Seq<i64>,
}

/// What a node keeps for a left row of the candidates that pass there: their number, or what their values give.
///
/// `holds` says when a tally is that of a set of candidates, in a world that knows every version that ever was. `output` is what
/// the tally of a left row gives: nothing, and then the node has no row for the left row, or a number. The rows of the node are
/// read backward: `origin` is the left row from which a row comes, and `gives` says which number the row shows. `laden` says when
/// a tally is that of a set and counts what an extra counts more, and `gathered` what it gathers of candidates.
pub trait Tally: Sized + Drop {
    ghost use Rattle.std.specs.Prelude.{Bool, List, Option, ℤ};
    ghost use Rattle.row_delta.specs.declared.extra.Extra.{Extra};
    ghost use Rattle.row_delta.specs.declared.row.Named.{Named};
    ghost use Rattle.row_delta.specs.declared.row.Row.{Row};
    ghost use Rattle.join_tests.specs.Joins.{Look};

    /// What the condition says of the tallies of all its rows.
    type Plan;

    ghost holds: { Self.Plan → Self → Look → (Named → Bool) → Type 0 };

    ghost output: { Self.Plan → Look → Row → Self → Option ℤ };

    ghost origin: { Row → Option Row };

    ghost gives: { ℤ → Row → Bool };

    ghost laden: { Self.Plan → Self → Look → (Named → Bool) → Extra → Type 0 };

    ghost gathered: { Self.Plan → Look → List Named → List ℤ };

    /// The tally of no candidates. Takes no memory.
    fn none(alloc: Global, plan: &Self::Plan) -> Self
        ensures { (world : Look) → holds plan.now result world (λ c. false) };

    /// One candidate more. A tally that is full is refused memory.
    fn add<F: Facts>(
        self,
        alloc: Global,
        plan: &Self::Plan,
        who: Named,
        facts: &F,
    ) -> Result<Self, NoMemory>
        ensures { IfOk result (λ now. (world : Look) → world who.tag ≡ F.map facts.now who.tag → TurnedTally (holds plan.now) world true who self now) };

    /// One candidate less.
    fn take<F: Facts>(
        self,
        alloc: Global,
        plan: &Self::Plan,
        who: Named,
        facts: &F,
    ) -> Result<Self, NoMemory>
        ensures { IfOk result (λ now. (world : Look) → world who.tag ≡ F.map facts.now who.tag → TurnedTally (holds plan.now) world false who self now) };

    /// With what an extra counts more. A tally that is full is refused memory.
    fn with_extra(self, plan: &Self::Plan, extra: &Extra) -> Result<Self, NoMemory>
        ensures { IfOk result (λ now. (world : Look) (set : Named → Bool) → holds plan.now self world set → laden plan.now now world set extra.now) };

    /// What it counts beyond another, which is that of a part of its candidates.
    fn beyond(&self, alloc: Global, plan: &Self::Plan, part: &Self) -> Result<Beyond, NoMemory>
        ensures { IfOk result (λ more. (world : Look) (set others : Named → Bool) → AreApart set others → holds plan.now self.now world (either set others) → holds plan.now part.now world set
            → IsBeyond (gathered plan.now) world others more.count more.values) };

    /// What it gives for its left row. Takes no memory.
    fn output<F: Facts>(&self, plan: &Self::Plan, row: &Row, facts: &F) -> Option<i64>
        ensures { result ≡ output plan.now (F.map facts.now) row.now self.now };

    /// The row that a left row becomes with this number.
    fn made(alloc: Global, row: &Row, value: i64) -> Result<Row, NoMemory>
        ensures { IfOk result (λ made. (r : Row) → eq_by_cmp row_cmp r made ≡ (is_from (origin r) row.now && gives value r)) };
}
