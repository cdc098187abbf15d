use fx_base::TypeId;

/// Why other rules are refused over a world; types by their places in the new rules.
#[derive(Clone, Copy, Debug, PartialEq, Eq)]
pub enum ChangeCode {
    /// A type of the world is missing, or is another one.
    OtherTypes,
    /// An entry point of the world is missing, or has another lateness.
    OtherEntries,
    /// A rule that is gone has a pending match.
    Pending,
    /// The new rules need events of the type for longer than they were kept.
    Longer(TypeId),
    /// A new rule counts events of the type, of which not all that are present are kept.
    Forgotten(TypeId),
}

/// What becomes of a rule where others come over a running world.
#[derive(Clone, Copy, Debug, PartialEq, Eq)]
pub enum RuleStatus {
    Stays,
    New,
    Gone,
}
