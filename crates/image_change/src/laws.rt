//! Laws of images under other rules, each the contract of a function that does nothing.
ghost use Rattle.image_change.specs.Images.{ChangedFits, ChangedIsImage, ChangedIsOne, PendingIsTold};

/// Whether something of a rule that is gone is pending can be told from the image.
pub fn pending_is_told()
    ensures { PendingIsTold }
{}

/// Of each lawful world of which the image is, the changed one is the image of the world under the new rules, with the carried lives.
pub fn the_changed_image_is_of_the_changed_world()
    ensures { ChangedIsImage }
{}

/// An image is changed in one way, which the image alone decides.
pub fn an_image_is_changed_in_one_way()
    ensures { ChangedIsOne }
{}

/// The changed image of a lawful world fits the new rules, so that it can be resumed from.
pub fn the_changed_image_fits()
    ensures { ChangedFits }
{}
