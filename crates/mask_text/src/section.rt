//! Where a reader is in a text.

/// The part of the text in which the next line stands.
#[derive(Clone, Copy, PartialEq, Eq)]
pub enum Section {
    /// Before the header.
    Start,
    /// Version 1, before the number of inputs.
    Size,
    /// Version 1, at the gates or outputs.
    Plain,
    /// Version 2, at the groups or gates.
    Named,
    /// Behind `end`.
    Ended,
}
