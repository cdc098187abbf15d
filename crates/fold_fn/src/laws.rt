//! Laws of the definitions, each the contract of a function that does nothing.
ghost use Rattle.fold_fn.specs.Laws.{RisingKeeps, RisingRises, RisingForgetsOrder, ResultForgetsOrder, TakeBackUndoesAdd, LeastIsLeast, GreatestIsGreatest, QuotientIsFloor};

/// A list has one rising order: the same numbers, each as often, rising; and lists with the same
/// numbers have the same one.
pub fn rising_law()
    ensures keeps { RisingKeeps }
    ensures rises { RisingRises }
    ensures same { RisingForgetsOrder }
{}

/// A result does not depend on the order of the values.
pub fn order_law()
    ensures { ResultForgetsOrder }
{}

/// To take a value back undoes one adding of it.
pub fn take_back_law()
    ensures { TakeBackUndoesAdd }
{}

/// The least stands in the list and nothing is below it; the greatest likewise; the quotient of
/// an average is the greatest whole number that is not above the exact one.
pub fn result_law()
    ensures least { LeastIsLeast }
    ensures greatest { GreatestIsGreatest }
    ensures floor { QuotientIsFloor }
{}
