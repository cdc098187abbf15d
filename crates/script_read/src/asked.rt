use crate::given::Given;
use fx_base::{FactId, Millis, Seq, Text};

/// What a line of the script asks for.
#[derive(Debug, PartialEq, Drop)]
pub enum Command {
    Change(Change),
    /// To fire until nothing is pending, or until this many firings, from 0 to 2^53.
    Fire(Option<u64>),
    /// How many events of each type are kept.
    Held,
}

/// A change of the world. The fields stand in the byte order of their names.
#[derive(Debug, PartialEq, Drop)]
pub enum Change {
    /// A new fact of the type with this name, in the entry point with this name; without one, in the default entry point.
    Insert {
        ty: Text,
        entry: Option<Text>,
        fields: Seq<(Text, Given)>,
    },
    /// Other values for some fields of the fact of this type with this id, which is from 1 to 2^63 - 1.
    Modify {
        ty: Text,
        id: FactId,
        fields: Seq<(Text, Given)>,
    },
    /// The fact of this type with this id, which is from 1 to 2^63 - 1, is taken away.
    Retract {
        ty: Text,
        id: FactId,
    },
    /// The clock goes forward by so many milliseconds.
    Advance(Millis),
    /// The clock goes to this moment.
    At(Millis),
    /// The world has begun: no fact of a reference type comes any more.
    Begin,
    /// The entry point with this name, without one the default entry point, gets no event any more that starts before this moment.
    Promise {
        entry: Option<Text>,
        from: Millis,
    },
}
