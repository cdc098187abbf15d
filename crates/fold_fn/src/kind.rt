/// The accumulate functions of Drools Fusion 5, with whole-number results.
#[derive(Clone, Copy, Debug, PartialEq, Eq)]
pub enum FoldKind {
    /// How many values there are.
    Count,
    /// Their sum; none where it is outside 64 bits.
    Sum,
    /// `min`; none of no values.
    Least,
    /// `max`; none of no values.
    Greatest,
    /// The sum divided by the count, rounded down; none of no values.
    Average,
}
