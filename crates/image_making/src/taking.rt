//! What other rules make of an image: they are refused, or taken.
ghost use Rattle.std.specs.Prelude.{◌≡◌, ℕ, false, Some, IfOk, IfErr, IfNone, IsErrOf};
ghost use Rattle.change_rules.specs.Staying.{place_in};
ghost use Rattle.fx_base.specs.Lists.{In};
ghost use Rattle.image_laws.specs.Fitting.{Fits};
ghost use Rattle.image_laws.specs.Images.{snapshot_of};
ghost use Rattle.laden_rows.specs.Laden.{AreOwners};
ghost use Rattle.rete_net.specs.Loading.{IsThere};
ghost use Rattle.row_delta.specs.declared.extra.Extra.{Extra as ExtraData};
ghost use Rattle.rule_change.specs.Refused.{HaveEntries, HaveTypes};
ghost use Rattle.life_meaning.specs.Tables.{AreLives};
ghost use Rattle.rule_model.specs.Lives.{AreShort};
ghost use Rattle.rule_world.specs.Programs.{IsRunnable};
ghost use Rattle.rule_world.specs.Worlds.{World};
ghost use Rattle.image_making.specs.Change.{AreRules, IsTakenOver, IsVerdictOf, IsWorldOf};
ghost use Rattle.image_making.specs.Loads.{CanBeLoaded};

use crate::making::changed_image;
use crate::pending::none_pending;
use change_rules::{carried_table, verdict};
use checkpoint::Image;
use fx_base::Seq;
use image_change::laws::{the_changed_image_fits, the_changed_image_is_of_the_changed_world};
use rete_net::LoadFault;
use rule_change::ChangeCode;
use rule_model::{LifeTable, Program};
use std::alloc::Global;

/// The lives by which events were forgotten, and those that the new rules need.
#[derive(Drop)]
pub struct Lives<'a> {
    pub kept: &'a LifeTable,
    pub own: &'a LifeTable,
}

// Why other rules are refused over the worlds of an image, or nothing where they are taken.
fn refusal(
    alloc: Global,
    old: &Program,
    new: &Program,
    places: &[Option<usize>],
    kept: &LifeTable,
    own: &LifeTable,
    image: &Image,
) -> Result<Option<ChangeCode>, LoadFault>
    requires loads { CanBeLoaded old.now image.now }
    requires other { IsRunnable new.now }
    ensures ground { IfOk result (λ code. IfNone code (HaveTypes old.now new.now × HaveEntries old.now new.now)) }
    ensures verdict { IfOk result (IsVerdictOf old.now new.now (place_in places.now) kept.now own.now image.now) }
    ensures no_row { IsErrOf result LoadFault.NoRow → (owners : ℕ → ℕ → ℕ) → AreOwners old.now owners
        → (e : ExtraData) × In e image.now.extras × IsThere old.now (snapshot_of image.now) image.now.extras owners e false }
{
    let none = none_pending(alloc, old, places, image)?;
    Ok(verdict(alloc, old, new, places, kept, own, none)?)
}

/// What other rules make of an image: the image and the lives by which the world goes on, or why they are refused. `places` has the old rules that stay,
/// `text` is that of the new ones. It costs what networks of both rules cost that are loaded. `NoRow`: never where the image fits, and is that of a
/// lawful world.
pub fn change(
    alloc: Global,
    old: &Program,
    new: &Program,
    places: &[Option<usize>],
    lives: &Lives<'_>,
    text: Seq<u8>,
    image: Image,
) -> Result<Result<(Image, LifeTable), ChangeCode>, LoadFault>
    requires rules { AreRules old.now new.now (place_in places.now) }
    requires loads { CanBeLoaded old.now image }
    ensures refused { IfOk result (λ r. IfErr r (λ code. IsVerdictOf old.now new.now (place_in places.now) lives.now.kept.now lives.now.own.now image (Some code))) }
    ensures run { IfOk result (λ r. IfOk r (λ made. made.0.run ≡ record image.run { rules = text })) }
    ensures taken { IfOk result (λ r. IfOk r (λ made. IsTakenOver old.now new.now (place_in places.now) lives.now.kept.now lives.now.own.now image made.0 made.1)) }
    ensures no_row { IsErrOf result LoadFault.NoRow → Fits old.now lives.now.kept.now image → AreLives new.now lives.now.own.now → AreShort lives.now.own.now
        → (w : World) → IsWorldOf old.now lives.now.kept.now image w → ⊥ }
{
    the_changed_image_is_of_the_changed_world();
    the_changed_image_fits();
    match refusal(alloc, old, new, places, lives.kept, lives.own, &image)? {
        Some(code) => Ok(Err(code)),
        None => {
            let made = changed_image(alloc, old, new, places, text, image)?;
            let carried = carried_table(alloc, old, new, lives.kept, lives.own)?;
            Ok(Ok((made, carried)))
        }
    }
}
