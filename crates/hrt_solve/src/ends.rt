// What the jobs that write a proof come to.
use hrt_base::PairNo;

/// What bounding comes to: how many pairs the two rules delete, none of which is in a weakly stable matching, and the ceiling,
/// a number of pairs that no weakly stable matching passes.
#[derive(Clone, Copy, Debug, PartialEq, Eq)]
pub struct BoundEnd {
    pub deleted: u32,
    pub ceiling: u32,
}

/// What a solve comes to: how many pairs the two rules delete, the ceiling, how many pairs the first matching has, how many
/// rows were learned, the pairs of the largest matching that was found, rising, and whether it was shown that no other is larger.
#[derive(Debug, Drop)]
pub struct SolveEnd {
    pub deleted: u32,
    pub ceiling: u32,
    pub first: u32,
    pub conflicts: u64,
    pub pairs: Vec<PairNo>,
    pub best: bool,
}
