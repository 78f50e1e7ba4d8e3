// What a step of a search comes to.

/// What a step of a search comes to.
#[derive(Clone, Copy, Debug, PartialEq, Eq)]
pub enum Move {
    /// The search goes on.
    On,
    /// A row that holds nowhere was made: the largest matching so far is best.
    Best,
    /// As many rows were learned as the budget allows.
    Bounded,
}
