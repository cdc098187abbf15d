//! Whether two conditions are the same.
ghost use Rattle.std.specs.Prelude.{◌≡◌, ◌↔◌, IsTrue};

use crate::{
    Accumulate, Compare, Condition, Pattern, RelTag, ResultTest, Side, Test, TimeTest, WindowTag,
};
use fold_fn::FoldKind;
use fx_base::{EntryId, Seq, TypeId, Value};
use temporal_ops::{Op, OpEdge};

/// What of a condition can be compared: it is the same exactly where it is equal. Takes no memory.
pub(crate) trait Same {
    fn is_same(&self, other: &Self) -> bool
        ensures { IsTrue result ↔ (self.now ≡ other.now) };
}

impl<T: Same> Same for Seq<T> {
    fn is_same(&self, other: &Seq<T>) -> bool {
        are_same(self.as_slice(), other.as_slice())
    }
}

// Whether two lists have the same elements in the same order.
fn are_same<T: Same>(ours: &[T], theirs: &[T]) -> bool
    ensures { IsTrue result ↔ (ours.now ≡ theirs.now) }
{
    if ours.len() != theirs.len() {
        return false;
    }
    for place in 0..ours.len() {
        if !ours[place].is_same(&theirs[place]) {
            return false;
        }
    }
    true
}

impl Same for TypeId {
    fn is_same(&self, other: &TypeId) -> bool {
        *self == *other
    }
}

impl Same for EntryId {
    fn is_same(&self, other: &EntryId) -> bool {
        *self == *other
    }
}

impl Same for RelTag {
    fn is_same(&self, other: &RelTag) -> bool {
        *self == *other
    }
}

impl Same for FoldKind {
    fn is_same(&self, other: &FoldKind) -> bool {
        *self == *other
    }
}

impl Same for WindowTag {
    fn is_same(&self, other: &WindowTag) -> bool {
        *self == *other
    }
}

impl Same for OpEdge {
    fn is_same(&self, other: &OpEdge) -> bool {
        *self == *other
    }
}

impl Same for Op {
    fn is_same(&self, other: &Op) -> bool {
        let ours = self.edges();
        let theirs = other.edges();
        are_same(&ours.items[..ours.count], &theirs.items[..theirs.count])
    }
}

impl Same for Side {
    fn is_same(&self, other: &Side) -> bool {
        match (self, other) {
            (Side::Lit(ours), Side::Lit(theirs)) => ours.same(theirs),
            (Side::Own(ours), Side::Own(theirs)) => ours == theirs,
            (
                Side::Of { fact, field },
                Side::Of {
                    fact: theirs,
                    field: their_field,
                },
            ) => { fact == theirs && field == their_field }
            (Side::Result(ours), Side::Result(theirs)) => ours == theirs,
            _ => false,
        }
    }
}

impl Same for Compare {
    fn is_same(&self, other: &Compare) -> bool {
        self.field == other.field
            && self.rel.is_same(&other.rel)
            && self.against.is_same(&other.against)
    }
}

impl Same for Test {
    fn is_same(&self, other: &Test) -> bool {
        self.choices.is_same(&other.choices)
    }
}

impl Same for TimeTest {
    fn is_same(&self, other: &TimeTest) -> bool {
        self.fact == other.fact && self.op.is_same(&other.op)
    }
}

impl Same for ResultTest {
    fn is_same(&self, other: &ResultTest) -> bool {
        self.rel.is_same(&other.rel) && self.against.is_same(&other.against)
    }
}

impl Same for Pattern {
    fn is_same(&self, other: &Pattern) -> bool {
        self.ty.is_same(&other.ty)
            && self.entry.is_same(&other.entry)
            && self.window.is_same(&other.window)
            && self.alone.is_same(&other.alone)
            && self.joined.is_same(&other.joined)
            && self.times.is_same(&other.times)
    }
}

impl Same for Accumulate {
    fn is_same(&self, other: &Accumulate) -> bool {
        self.kind.is_same(&other.kind)
            && self.arg == other.arg
            && self.pattern.is_same(&other.pattern)
            && self.tests.is_same(&other.tests)
    }
}

impl Condition {
    /// Whether it is equal to another condition. Takes no memory.
    pub fn is_same(&self, other: &Condition) -> bool
        ensures { IsTrue result ↔ (self.now ≡ other.now) }
    {
        match (self, other) {
            (Condition::Plain(ours), Condition::Plain(theirs)) => ours.is_same(theirs),
            (Condition::Negated(ours), Condition::Negated(theirs)) => ours.is_same(theirs),
            (Condition::Existing(ours), Condition::Existing(theirs)) => ours.is_same(theirs),
            (Condition::Folded(ours), Condition::Folded(theirs)) => ours.is_same(theirs),
            _ => false,
        }
    }
}
