// What is kept of a pair.

/// A resident and a hospital that name each other, and the rank that each gives the other.
#[derive(Clone, Copy, Debug)]
pub struct PairEntry {
    pub resident: u32,
    pub hospital: u32,
    pub resident_rank: u32,
    pub hospital_rank: u32,
}
