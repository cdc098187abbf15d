ghost use Rattle.std.specs.Prelude.{◌≡◌, ◌+◌, true, false, cond, length, IfSome, IfNone};
ghost use Rattle.std.specs.BTreeMap.{is_at};
ghost use Rattle.std.specs.BTreeMap.Range.{is_past_end};
ghost use Rattle.std.specs.Ordering.{is_gt};
ghost use Rattle.due_queue.specs.Moments.{pair_cmp, has_pair};

use std::alloc::Global;
use std::collections::BTreeSet;
use std::ops::Bound;

/// Whether a moment is past the end of this bound.
pub(crate) fn is_past<M: Ord>(bound: &Bound<M>, at: &M) -> bool
    ensures { result ≡ is_past_end M.cmp bound.now at.now }
{
    match bound {
        Bound::Included(last) => last.cmp(at).is_lt(),
        Bound::Excluded(end) => end.cmp(at).is_le(),
        Bound::Unbounded => false,
    }
}

/// Takes the first pair out of pairs of a moment and a key, where its moment is not past the end of the bound. It costs the
/// logarithm of their number, and one look where none is due. Takes no memory.
pub fn take_first_due<M: Ord + Drop, K: Ord + Drop>(
    pairs: &mut BTreeSet<(M, K), Global>,
    bound: &Bound<M>,
) -> Option<(M, K)>
    ensures due { IfSome result (λ pair. is_past_end M.cmp bound.now pair.0 ≡ false) }
    ensures there { IfSome result (λ pair. has_pair M.cmp K.cmp pairs.old.keys pair ≡ true) }
    ensures first { IfSome result (λ pair. (other : M × K) → has_pair M.cmp K.cmp pairs.old.keys other ≡ true → is_gt (pair_cmp M.cmp K.cmp pair other) ≡ false) }
    ensures taken { IfSome result (λ pair. (other : M × K) → has_pair M.cmp K.cmp pairs.new.keys other
        ≡ cond (is_at (pair_cmp M.cmp K.cmp pair) other) false (has_pair M.cmp K.cmp pairs.old.keys other)) }
    ensures fewer { IfSome result (λ _. length pairs.new.keys + 1 ≡ length pairs.old.keys) }
    ensures none { IfNone result ((other : M × K) → has_pair M.cmp K.cmp pairs.old.keys other ≡ true → is_past_end M.cmp bound.now other.0 ≡ true) }
    ensures unchanged { IfNone result (pairs.new.keys ≡ pairs.old.keys) }
{
    let first = pairs.first()?;
    if is_past(bound, &first.0) {
        return None;
    }
    pairs.pop_first()
}
