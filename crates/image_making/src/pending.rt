//! Whether something of a rule that is gone is pending.
ghost use Rattle.std.specs.Prelude.{◌≡◌, ◌↔◌, ℕ, false, IsTrue, IfOk, IsErrOf};
ghost use Rattle.std.specs.List.{list_all};
ghost use Rattle.fx_base.specs.Lists.{In};
ghost use Rattle.row_delta.specs.declared.extra.Extra.{Extra as ExtraData};
ghost use Rattle.rule_model.specs.declared.life.LifeTable.{LifeTable as LifeTableData};
ghost use Rattle.change_rules.specs.Staying.{place_in};
ghost use Rattle.image_laws.specs.Images.{IsImageOf, snapshot_of};
ghost use Rattle.laden_rows.specs.Laden.{AreOwners};
ghost use Rattle.rete_net.specs.Loading.{IsThere};
ghost use Rattle.rule_change.specs.Refused.{NonePending};
ghost use Rattle.life_meaning.specs.Tables.{IsSafeTable};
ghost use Rattle.rule_world.specs.Lawful.{IsLawful};
ghost use Rattle.rule_world.specs.Worlds.{World};
ghost use Rattle.image_making.specs.Loads.{CanBeLoaded};
ghost use Rattle.image_making.specs.Marks.{is_told as is_told_of};

use crate::fired::fired_set;
use crate::laden::laden_matches;
use change_rules::is_taken;
use checkpoint::Image;
use image_change::laws::pending_is_told;
use rete_net::LoadFault;
use rule_model::{Match, Program};
use std::alloc::Global;
use std::collections::BTreeSet;

// Whether a match was fired, or its rule stays.
fn is_told(places: &[Option<usize>], fired: &BTreeSet<Match, Global>, matched: &Match) -> bool
    ensures { result ≡ is_told_of places.now fired.now.keys matched.now }
{
    fired.contains(matched) || is_taken(places, matched.rule.0 as usize)
}

// Whether each of these matches was fired, or its rule stays.
fn are_told(places: &[Option<usize>], fired: &BTreeSet<Match, Global>, matches: &[Match]) -> bool
    ensures { result ≡ list_all (is_told_of places.now fired.now.keys) matches.now }
{
    matches
        .iter()
        .all(|matched| is_told(places, fired, matched))
}

/// Whether no rule that is gone has a pending match in the worlds of which an image is. `places` has the old rules that stay. It costs what
/// `laden_matches` costs, and the logarithm of the fired matches for each.
pub fn none_pending(
    alloc: Global,
    program: &Program,
    places: &[Option<usize>],
    image: &Image,
) -> Result<bool, LoadFault>
    requires { CanBeLoaded program.now image.now }
    ensures none { IfOk result (λ none. (table : LifeTableData) (w : World) → IsLawful program.now w → IsSafeTable program.now table → IsImageOf program.now table w image.now
        → IsTrue none ↔ NonePending program.now (place_in places.now) w) }
    ensures no_row { IsErrOf result LoadFault.NoRow → (owners : ℕ → ℕ → ℕ) → AreOwners program.now owners
        → (e : ExtraData) × In e image.now.extras × IsThere program.now (snapshot_of image.now) image.now.extras owners e false }
{
    pending_is_told();
    let fired = fired_set(alloc, image.fired.as_slice())?;
    let matches = laden_matches(alloc, program, image)?;
    Ok(are_told(places, &fired, &matches))
}
