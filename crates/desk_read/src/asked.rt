use fx_base::Text;

/// What a line of a live script asks beside the commands of every script.
#[derive(Debug, PartialEq, Drop)]
pub enum Question {
    /// To put the image of this moment.
    Save,
    /// The kept facts, of the type with this name or of all types.
    Facts(Option<Text>),
    /// The clock, and counts.
    Counts,
}
