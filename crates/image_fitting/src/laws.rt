//! Laws of images that fit: each function's contract is the law, and its body is empty.
ghost use Rattle.image_fitting.specs.Plain.{FittingLaw};

/// An image fits exactly where it fits by plain tests and by the rows over its facts: these name facts that are present, and are the same
/// by whatever owners of the conditions.
pub fn an_image_fits_by_tests_and_rows()
    ensures { FittingLaw }
{}
