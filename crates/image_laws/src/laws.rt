//! Laws of images: each function's contract is the law, and its body is empty.
ghost use Rattle.std.specs.Prelude.{◌≡◌, ℕ, take, Some, slice_get};
ghost use Rattle.row_delta.specs.declared.row.Row.{Row};
ghost use Rattle.checkpoint.specs.declared.image.Image.{Image};
ghost use Rattle.rule_model.specs.declared.life.LifeTable.{LifeTable};
ghost use Rattle.rule_model.specs.declared.program.Program.{Program};
ghost use Rattle.rule_model.specs.declared.program.Rule.{Rule};
ghost use Rattle.rule_world.specs.Lawful.{IsLawful};
ghost use Rattle.rule_world.specs.Worlds.{World, snapshot};
ghost use Rattle.life_meaning.specs.Tables.{AreSafe};
ghost use Rattle.join_memory.specs.Standing.{cleaned};
ghost use Rattle.condition_rows.specs.Sets.{rows_of};
ghost use Rattle.kept_meaning.specs.Kept.{is_forgotten};
ghost use Rattle.image_laws.specs.Fitting.{IsNextNumber, Fits};
ghost use Rattle.laden_rows.specs.Placed.{IsSmall};
ghost use Rattle.image_laws.specs.Images.{IsImageOf, snapshot_of};
ghost use Rattle.laden_rows.specs.Laden.{AreOwners, laden, IsKeptOf};

/// The snapshot of an image has what is kept of the world's, so that over its facts, with its extras, the rows of the first conditions of a
/// rule are those of the world that name kept facts alone.
pub fn an_image_has_what_is_kept()
    ensures kept { (p : Program) (table : LifeTable) (w : World) (image : Image) → AreSafe p table → IsLawful p w → IsImageOf p table w image
        → IsKeptOf p (snapshot w) (is_forgotten p table w) (snapshot_of image) }
    ensures rows { (p : Program) (table : LifeTable) (w : World) (image : Image) (owners : ℕ → ℕ → ℕ) → AreSafe p table → IsLawful p w
        → IsImageOf p table w image → AreOwners p owners
        → (place : ℕ) (rule : Rule) → slice_get p.rules place ≡ Some rule → (n : ℕ) (row : Row)
        → laden p (snapshot_of image) image.extras (owners place) rule.conditions n row
        ≡ cleaned (rows_of p (snapshot w) (take n rule.conditions)) (is_forgotten p table w) row }
{}

/// A world has one image: two that say the same of the run so far are equal.
pub fn a_world_has_one_image()
    ensures { (p : Program) (table : LifeTable) (w : World) (a : Image) (b : Image) → IsImageOf p table w a → IsImageOf p table w b
        → a.run ≡ b.run → a ≡ b }
{}

/// The image of a lawful world fits, where its next numbers are from 1 on, and they, its lines and its firings are small.
pub fn the_image_of_a_world_fits()
    ensures { (p : Program) (table : LifeTable) (w : World) (image : Image) → AreSafe p table → IsLawful p w → IsImageOf p table w image
        → IsNextNumber image.next_id → IsNextNumber image.next_tag → IsSmall image.run.lines → IsSmall image.run.firings
        → Fits p table image }
{}
