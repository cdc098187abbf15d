//! Laws of images of desks and their bytes, each the contract of a function that does nothing.
ghost use Rattle.std.specs.Prelude.{◌≡◌, ◌<◌, ◌↔◌, List, ℕ, Option, Some, get_or};
ghost use Rattle.checkpoint.specs.Bytes.{IsImage};
ghost use Rattle.checkpoint.specs.declared.image.Image.{Image};
ghost use Rattle.rule_model.specs.declared.life.LifeTable.{LifeTable};
ghost use Rattle.desk_image.specs.Bytes.{AreImageLives, desk_bytes};
ghost use Rattle.desk_image.specs.Reading.{desk_decoded};

/// No two images, with the lives that they say, have the same bytes.
pub fn a_desk_image_has_one_spelling()
    ensures { (m n : Option LifeTable) (a b : Image) → AreImageLives m → AreImageLives n → IsImage a → IsImage b → desk_bytes m a ≡ desk_bytes n b
        → (m ≡ n) × (a ≡ b) }
{}

/// What the functions from the left read from bytes is exactly the image, with its lives, that has them.
pub fn desk_decoding_is_exact()
    ensures { (bytes : List ℕ) (lives : Option LifeTable) (image : Image) → ((i : ℕ) → get_or bytes i 0 < 256)
        → (desk_decoded bytes ≡ Some (lives, image)) ↔ ((desk_bytes lives image ≡ bytes) × IsImage image × AreImageLives lives) }
{}
