//! What a step did.

/// What a step of an edit in work did.
#[derive(Clone, Copy, PartialEq, Eq)]
pub enum Stepped {
    /// No edit is in work.
    Idle,
    /// So many edges are left.
    Left(u32),
    /// This client's edit was published.
    Published(u32),
    /// There was no memory, and nothing has changed.
    NoMemory,
}
