//! Laws of lives that are as long as others, each the contract of a function that does nothing.
ghost use Rattle.change_rules.specs.AsLong.{AsLongIsSafe};
ghost use Rattle.change_rules.specs.Longest.{LongestIsAsLong, LongestIsLongEnough};

/// Lives that are as long as those of a program are safe for it.
pub fn as_long_lives_are_safe()
    ensures { AsLongIsSafe }
{}

/// The longest lives are as long as the own ones, and long enough for the other rules.
pub fn longest_lives_are_long_enough()
    ensures own { LongestIsAsLong }
    ensures other { LongestIsLongEnough }
{}
