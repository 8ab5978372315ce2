//! What the beginning of an edit did.

/// What the beginning of an edit did.
#[derive(Clone, Copy, PartialEq, Eq)]
pub enum Begun {
    /// It touches no edge, and was published.
    Done,
    /// It is in work, and touches so many edges.
    Begun(u32),
    /// There was no memory, and nothing has changed.
    NoMemory,
}
