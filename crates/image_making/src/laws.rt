//! Laws of images that a network is loaded from, each the contract of a function that does nothing.
ghost use Rattle.image_making.specs.Laws.{ChangedCanBeLoaded, ConditionsApart, FittingCanBeLoaded};

use image_fitting::laws::an_image_fits_by_tests_and_rows;

/// A network of the new rules can be loaded from what is made of an image from which one of the old rules can.
pub fn a_moved_image_can_be_loaded()
    ensures { ChangedCanBeLoaded }
{}

/// First conditions of old rules that are the same under their new places are the same.
pub fn moved_conditions_are_apart()
    ensures { ConditionsApart }
{}

/// A network can be loaded from an image that fits.
pub fn an_image_that_fits_can_be_loaded()
    ensures { FittingCanBeLoaded }
{
    an_image_fits_by_tests_and_rows();
}
