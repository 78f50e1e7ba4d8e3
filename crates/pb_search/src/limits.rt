// How far a search goes.
use hrt_base::RowNo;

/// How far a search goes: at most so many pairs are taken, as the row with this number says, and it learns at most so many rows.
#[derive(Clone, Copy, Debug)]
pub(crate) struct Limits {
    pub ceiling: u32,
    pub bound_row: RowNo,
    pub budget: u64,
}
