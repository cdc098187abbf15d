use fx_base::Text;

/// A literal as it is written.
#[derive(Debug, PartialEq, Eq, Drop)]
pub enum LitTree {
    Int(i64),
    Bool(bool),
    Text(Text),
}
