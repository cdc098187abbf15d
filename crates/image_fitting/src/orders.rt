//! Lists in a strict order.
ghost use Rattle.std.specs.Prelude.{◌≡◌, ◌↔◌, IsTrue};
ghost use Rattle.std.specs.List.Sorted.{IsStrictlySortedBy};

use checkpoint::FiredMatch;
use fx_base::Fact;
use row_delta::Extra;
use std::cmp::Ordering;

/// What stands in an image in a strict order.
pub(crate) trait Ranked {
    ghost use Rattle.std.specs.declared.cmp.Ordering.{Ordering};
    ghost use Rattle.std.specs.Cmp.{IsTotalOrder};

    ghost order: { Self → Self → Ordering };

    ghost total: { IsTotalOrder order };

    fn rank(&self, other: &Self) -> Ordering
        ensures { result ≡ order self.now other.now };
}

impl Ranked for u64 {
    ghost use Rattle.std.specs.Ordering.{nat_cmp};
    ghost use Rattle.std.proofs.lemmas.Cmp.{nat_cmp_total};

    ghost order = { nat_cmp };

    ghost total = { nat_cmp_total };

    fn rank(&self, other: &u64) -> Ordering {
        self.cmp(other)
    }
}

impl Ranked for Fact {
    ghost use Rattle.rule_model.specs.Distinct.{tag_cmp};
    ghost use Rattle.image_fitting.specs.Orders.{tag_total};

    ghost order = { tag_cmp };

    ghost total = { tag_total };

    fn rank(&self, other: &Fact) -> Ordering {
        self.tag.0.cmp(&other.tag.0)
    }
}

impl Ranked for FiredMatch {
    ghost use Rattle.image_laws.specs.Images.{fired_cmp};
    ghost use Rattle.image_fitting.specs.Orders.{fired_total};

    ghost order = { fired_cmp };

    ghost total = { fired_total };

    fn rank(&self, other: &FiredMatch) -> Ordering {
        self.rule
            .0
            .cmp(&other.rule.0)
            .then_with(|| self.row.cmp(&other.row))
    }
}

impl Ranked for Extra {
    ghost use Rattle.laden_rows.specs.Extras.{extra_cmp};
    ghost use Rattle.image_fitting.specs.Orders.{extra_total};

    ghost order = { extra_cmp };

    ghost total = { extra_total };

    fn rank(&self, other: &Extra) -> Ordering {
        self.rule
            .0
            .cmp(&other.rule.0)
            .then_with(|| self.condition.cmp(&other.condition))
            .then_with(|| self.row.cmp(&other.row))
    }
}

/// Whether each of these stands before all behind it.
pub(crate) fn are_in_order<T: Ranked>(items: &[T]) -> bool
    ensures { IsTrue result ↔ IsStrictlySortedBy T.order items.now }
{
    for place in 1..items.len() {
        if items[place - 1].rank(&items[place]) != Ordering::Less {
            return false;
        }
    }
    true
}
