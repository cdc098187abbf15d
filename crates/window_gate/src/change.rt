use fx_base::Millis;
use row_delta::Named;

/// Which of the facts that came are inside a window.
#[derive(Clone, Copy, Debug)]
pub enum WindowKind {
    /// All of them.
    Whole,
    /// Those whose start is less than this long ago, in milliseconds.
    Time(Millis),
    /// The latest ones, this many.
    Length(u64),
}

/// What happens in front of a gate.
#[derive(Clone, Copy, Debug)]
pub enum GateChange {
    /// A fact comes, with its start in milliseconds.
    Come(Named, Millis),
    /// A fact goes.
    Gone(Named),
    /// The clock alone moves.
    Clock,
}
