//! The image under other rules.
ghost use Rattle.std.specs.Prelude.{◌≡◌, None, IfOk, IsErrOf};
ghost use Rattle.change_rules.specs.Staying.{place_in};
ghost use Rattle.image_change.specs.Images.{IsChangedImage};
ghost use Rattle.rule_change.specs.Alike.{AreOver};
ghost use Rattle.rule_change.specs.Refused.{IsVerdict};
ghost use Rattle.life_meaning.specs.Tables.{AreLives};
ghost use Rattle.rule_model.specs.Lives.{AreShort};
ghost use Rattle.rule_model.specs.declared.life.LifeTable.{LifeTable as LifeTableData};
ghost use Rattle.rule_world.specs.Worlds.{World};
ghost use Rattle.image_making.specs.Change.{IsWorldOf};
ghost use Rattle.rule_world.specs.Programs.{IsRunnable};
ghost use Rattle.image_making.specs.Loads.{CanBeLoaded};
ghost use Rattle.image_change.specs.Images.{IsMovedImage};
ghost use Rattle.image_making.specs.Moved.{MovesApart};

use crate::extras::moved_extras;
use crate::facts::moved_facts;
use crate::fired::{fired_set, marked_matches};
use crate::laden::laden_matches;
use crate::laws::{a_moved_image_can_be_loaded, moved_conditions_are_apart};
use crate::moments::moved_moments;
use checkpoint::{Image, RunPart};
use fx_base::{NoMemory, Seq};
use rete_net::LoadFault;
use rule_model::Program;
use std::alloc::Global;

// The image under other rules, with this part of the run, and where nothing was fired.
fn moved_image(
    alloc: Global,
    old: &Program,
    new: &Program,
    run: RunPart,
    image: Image,
) -> Result<Image, NoMemory>
    requires loads { CanBeLoaded old.now image }
    requires other { IsRunnable new.now }
    requires apart { MovesApart old.now new.now }
    ensures run { IfOk result (λ made. made.run ≡ run) }
    ensures moved { IfOk result (IsMovedImage old.now new.now image) }
{
    let Image {
        clock,
        begun,
        last_starts,
        promises,
        next_id,
        next_tag,
        facts,
        extras,
        ..
    } = image;
    let last_starts = moved_moments(alloc, old, new, last_starts.as_slice())?;
    let promises = moved_moments(alloc, old, new, promises.as_slice())?;
    let facts = moved_facts(alloc, old, new, facts.into_vec())?;
    let extras = moved_extras(alloc, old, new, extras.into_vec())?;
    Ok(Image {
        run,
        clock,
        begun,
        last_starts: Seq::from_vec(last_starts),
        promises: Seq::from_vec(promises),
        next_id,
        next_tag,
        facts: Seq::from_vec(facts),
        fired: Seq::from_vec(Vec::new(alloc)),
        extras: Seq::from_vec(extras),
    })
}

/// The image under other rules, made of that under the old ones, whose extras have their rows. `places` has the old rules that stay, and `text` is the
/// text of the new ones; the rest of what the image says of the run stays. What a new rule matches is taken as fired. It costs what `laden_matches`
/// of the new rules costs, and copies of the fired matches. `NoRow`: never where the image is that of a world over which the rules are taken.
pub fn changed_image(
    alloc: Global,
    old: &Program,
    new: &Program,
    places: &[Option<usize>],
    text: Seq<u8>,
    image: Image,
) -> Result<Image, LoadFault>
    requires over { AreOver old.now new.now (place_in places.now) }
    requires loads { CanBeLoaded old.now image }
    ensures run { IfOk result (λ made. made.run ≡ record image.run { rules = text }) }
    ensures changed { IfOk result (IsChangedImage old.now new.now (place_in places.now) image) }
    ensures no_row { IsErrOf result LoadFault.NoRow → (table own : LifeTableData) (w : World) → IsWorldOf old.now table image w → AreLives new.now own → AreShort own
        → IsVerdict old.now new.now (place_in places.now) table own w None → ⊥ }
{
    moved_conditions_are_apart();
    a_moved_image_can_be_loaded();
    let fired = fired_set(alloc, image.fired.as_slice())?;
    let run = RunPart {
        rules: text,
        lines: image.run.lines,
        firings: image.run.firings,
        faulty: image.run.faulty,
    };
    let mut made = moved_image(alloc, old, new, run, image)?;
    let matches = laden_matches(alloc, new, &made)?;
    made.fired = Seq::from_vec(marked_matches(alloc, places, &fired, matches)?);
    Ok(made)
}
