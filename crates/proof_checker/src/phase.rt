// How far a checker is.

/// What a checker does next.
#[derive(Clone, Copy, Debug, PartialEq, Eq)]
pub enum Phase {
    /// It takes bytes.
    Reading,
    /// It refuses all for want of memory.
    OutOfMemory,
    /// It has judged what it was fed.
    Finished,
}
