use crate::{ActTree, Attr, CondTree, Meta};
use fx_base::{Seq, Text};

/// A rule file as it is written, with alternatives and subtypes: its items, in their order.
#[derive(Debug, Drop)]
pub struct Written {
    pub items: Seq<WrittenItem>,
}

/// An item, and the line of its first token. Lines count from 1; beyond 2^32 - 1 the count stands still.
#[derive(Debug, Drop)]
pub struct WrittenItem {
    pub line: u32,
    pub body: WrittenBody,
}

/// What an item says.
#[derive(Debug, Drop)]
pub enum WrittenBody {
    /// `package`, with the parts of its name. It has no effect.
    Package(Seq<Text>),
    /// `import`, with the parts of the name; `star` where it ends in `.*`. It has no effect.
    Import { path: Seq<Text>, star: bool },
    /// `dialect`. It has no effect.
    Dialect(Text),
    /// The declaration of a type.
    Declare(WrittenType),
    /// The declaration of an entry point, with its lateness in milliseconds.
    Entry { name: Text, lateness: Option<i64> },
    Rule(WrittenRule),
}

/// The declaration of a type: the type that it extends, its own annotations and its own fields, each with its name and the word
/// of its kind.
#[derive(Debug, Drop)]
pub struct WrittenType {
    pub name: Text,
    pub parent: Option<Text>,
    pub metas: Seq<Meta>,
    pub fields: Seq<(Text, Text)>,
}

#[derive(Debug, Drop)]
pub struct WrittenRule {
    pub name: Text,
    pub attrs: Seq<Attr>,
    /// What it asks for: at least one condition.
    pub pieces: Seq<Piece>,
    pub actions: Seq<ActTree>,
}

/// A piece of what a rule asks for, in the order of the text: a condition, or what parts alternatives.
#[derive(Debug, Drop)]
pub enum Piece {
    One(CondTree),
    /// The parenthesis before alternatives.
    Open,
    /// The word `or`, between two alternatives.
    Or,
    /// The parenthesis behind alternatives.
    Close,
}
