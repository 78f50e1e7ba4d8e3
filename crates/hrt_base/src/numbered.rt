// Things that are known by their number.

/// The number of an acceptable pair, from 1 on. Pair k is variable k.
#[derive(Clone, Copy, Debug, PartialEq, Eq)]
pub struct PairNo(pub u32);

/// The number of a row of a proof, from 1 on.
#[derive(Clone, Copy, Debug, PartialEq, Eq)]
pub struct RowNo(pub u64);
