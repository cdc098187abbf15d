use crate::{ActTree, CondTree};
use fx_base::{Seq, Text};

/// A rule file: its items, in their order.
#[derive(Debug, Drop)]
pub struct File {
    pub items: Seq<Item>,
}

/// An item, and the line of its first token. Lines count from 1; beyond 2^32 - 1 the count stands still.
#[derive(Debug, Drop)]
pub struct Item {
    pub line: u32,
    pub body: Body,
}

/// What an item says.
#[derive(Debug, Drop)]
pub enum Body {
    /// `package`, with the parts of its name. It has no effect.
    Package(Seq<Text>),
    /// `import`, with the parts of the name; `star` where it ends in `.*`. It has no effect.
    Import { path: Seq<Text>, star: bool },
    /// `dialect`. It has no effect.
    Dialect(Text),
    /// The declaration of a type.
    Declare(TypeTree),
    /// The declaration of an entry point, with its lateness in milliseconds.
    Entry { name: Text, lateness: Option<i64> },
    Rule(RuleTree),
}

/// The declaration of a type: its annotations, and its fields, each with its name and the word of its kind.
#[derive(Debug, Drop)]
pub struct TypeTree {
    pub name: Text,
    pub metas: Seq<Meta>,
    pub fields: Seq<(Text, Text)>,
}

/// An annotation of a type.
#[derive(Debug, Drop)]
pub enum Meta {
    /// `@role( event )`, which is `true`, or `@role( fact )`.
    Role(bool),
    /// The field that holds the start.
    Timestamp(Text),
    /// The field that holds the duration.
    Duration(Text),
    /// Explicit expiry, in milliseconds.
    Expires(i64),
    /// A reference type: its facts are there before any event, and stay as they are.
    Reference,
}

#[derive(Debug, Drop)]
pub struct RuleTree {
    pub name: Text,
    pub attrs: Seq<Attr>,
    /// At least one.
    pub conditions: Seq<CondTree>,
    pub actions: Seq<ActTree>,
}

/// An attribute of a rule.
#[derive(Debug, Drop)]
pub enum Attr {
    Salience(i64),
    /// It has no effect.
    Dialect(Text),
}
