ghost use Rattle.std.specs.Prelude.{◌↔◌, ℕ, IfOk, OnOk, IsTrue};
ghost use Rattle.laden_rows.specs.Laden.{AreOwners};
ghost use Rattle.image_fitting.specs.Parts.{NumbersFit, OrdersFit, FitsAlone, FitByParts};
ghost use Rattle.image_fitting.specs.Plain.{FitsPlainly};
ghost use Rattle.image_fitting.specs.Table.{IsPlaceTable};

use crate::extras::are_placed;
use crate::facts::{are_at_hand, come_in_turn, have_distinct_ids};
use crate::numbers::{counts_fit, moments_fit};
use crate::orders::are_in_order;
use crate::table::first_rules;
use checkpoint::Image;
use fx_base::{NoMemory, Seq};
use rule_model::{LifeTable, Program};
use std::alloc::Global;

fn numbers_fit(program: &Program, image: &Image) -> bool
    ensures { IsTrue result ↔ NumbersFit program.now image.now }
{
    counts_fit(image) && moments_fit(program, image) && are_at_hand(program, image)
}

fn orders_fit(image: &Image) -> bool
    ensures { IsTrue result ↔ OrdersFit image.now }
{
    are_in_order(image.facts.as_slice())
        && are_in_order(image.fired.as_slice())
        && are_in_order(image.extras.as_slice())
}

// What can be told without memory.
fn fits_alone(program: &Program, lives: &LifeTable, table: &[Seq<usize>], image: &Image) -> bool
    ensures { IsPlaceTable program.now table.now → (IsTrue result ↔ FitsAlone program.now lives.now image.now) }
{
    numbers_fit(program, image)
        && orders_fit(image)
        && are_placed(program, lives, table, image.extras.as_slice())
}

// Whether an image fits, by the table of the first rules that have the conditions of each rule.
fn fits_by_table(
    alloc: Global,
    program: &Program,
    lives: &LifeTable,
    table: &[Seq<usize>],
    image: &Image,
) -> Result<bool, NoMemory>
    ensures { IfOk result (λ yes. IsPlaceTable program.now table.now → (IsTrue yes ↔ FitByParts program.now lives.now image.now)) }
{
    if !fits_alone(program, lives, table, image) {
        return Ok(false);
    }
    let facts = image.facts.as_slice();
    if !have_distinct_ids(alloc, facts)? {
        return Ok(false);
    }
    come_in_turn(alloc, program, facts)
}

/// Whether an image fits a program with a table of lives, but for what asks the rows over its facts. It walks the image once, with the
/// logarithm of the facts for each id, and compares the conditions of each rule with those of the rules before it. Where it answers, it has
/// found for each condition of a rule the first rule that has the conditions up to it.
pub fn fits_plainly(
    alloc: Global,
    program: &Program,
    lives: &LifeTable,
    image: &Image,
) -> Result<bool, NoMemory>
    ensures exact { IfOk result (λ yes. IsTrue yes ↔ FitsPlainly program.now lives.now image.now) }
    ensures owners { OnOk result ((owners : ℕ → ℕ → ℕ) × AreOwners program.now owners) }
{
    let table = first_rules(alloc, program)?;
    fits_by_table(alloc, program, lives, table.as_slice(), image)
}
