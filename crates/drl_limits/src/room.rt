ghost use Rattle.std.specs.Prelude.{◌≡◌, ◌≤◌, List, length, nat_le, is_some};
ghost use Rattle.std.specs.List.{sum_by};
ghost use Rattle.drl_grammar.specs.declared.condition.Cmp.{Cmp};
ghost use Rattle.drl_limits.specs.Room.{left_of};
ghost use Rattle.drl_limits.specs.Limits.{weight};

use drl_grammar::{Cmp, Part};
use fx_base::Seq;

fn behind(room: usize, taken: usize) -> Option<usize>
    ensures { result ≡ left_of room taken }
{
    if taken <= room {
        Some(room - taken)
    } else {
        None
    }
}

#[tactic(auto, using(crate::proofs::Rooms::room_more, crate::proofs::Rooms::room_none, crate::proofs::Rooms::room_all))]
fn behind_groups(room: usize, groups: &[Seq<Cmp>]) -> Option<usize>
    ensures { result ≡ left_of room (sum_by (λ (group : List Cmp). length group) groups.now) }
{
    let mut left = room;
    for group in groups {
        match behind(left, group.as_slice().len()) {
            Some(rest) => left = rest,
            None => return None,
        }
    }
    Some(left)
}

fn behind_part(room: usize, part: &Part) -> Option<usize>
    ensures { result ≡ left_of room (weight part.now) }
{
    match part {
        Part::AnyOf(groups) => behind_groups(room, groups.as_slice()),
        Part::Bind { .. } => behind(room, 1),
        Part::Temporal { .. } => behind(room, 1),
    }
}

#[tactic(auto, using(crate::proofs::Rooms::room_more, crate::proofs::Rooms::room_none, crate::proofs::Rooms::room_all))]
fn behind_parts(room: usize, parts: &[Part]) -> Option<usize>
    ensures { result ≡ left_of room (sum_by weight parts.now) }
{
    let mut left = room;
    for part in parts {
        match behind_part(left, part) {
            Some(rest) => left = rest,
            None => return None,
        }
    }
    Some(left)
}

/// Whether the parts are at most so many bindings, temporal tests and comparisons.
#[tactic(auto, using(crate::proofs::Rooms::room_is))]
pub(crate) fn are_at_most(most: usize, parts: &[Part]) -> bool
    ensures { result ≡ nat_le (sum_by weight parts.now) most }
{
    behind_parts(most, parts).is_some()
}
