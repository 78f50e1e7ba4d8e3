// What an audit answers.
use hrt_base::PairNo;

/// What is said of a list of pairs. Residents and hospitals are numbered from 0.
#[derive(Clone, Copy, Debug, PartialEq, Eq)]
pub enum Verdict {
    /// It is a weakly stable matching.
    Stable,
    /// No resident of a lesser number is in two of the pairs, but this one is.
    ResidentTwice(u32),
    /// No resident is in two of the pairs. This hospital is in more of them than it has posts, and none of a lesser number is.
    OverCapacity(u32),
    /// It is a matching. This pair blocks it, and none of a lesser number does.
    Blocked(PairNo),
}
