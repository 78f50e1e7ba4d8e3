// What a search finds.
use hrt_base::PairNo;

/// What a search finds: a weakly stable matching, its pairs rising.
#[derive(Debug, Drop)]
pub enum Found {
    /// No weakly stable matching is larger, as the proof shows.
    Best(Vec<PairNo>),
    /// As many rows were learned as the budget allows, and whether a larger one exists is open.
    Bounded(Vec<PairNo>),
}
