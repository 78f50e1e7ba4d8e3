// What a note of the solver says.
use crate::{Ids, Lits, Vars};
use hrt_base::{Lit, RowNo};

/// A note, which stands in a comment of a proof.
#[derive(Debug, Drop)]
pub enum Note {
    /// The row says that a deleted pair's variable is 0.
    Unit(RowNo),
    /// The row bounds the objective.
    Bound(RowNo),
    /// The rows of pairs are held from here on: at the point at which these variables alone are true they don't hold.
    Load {
        trues: Vars,
        rows: Ids,
    },
    /// The row was learned: under the decisions it makes the literal true.
    Learn {
        row: RowNo,
        decisions: Lits,
        asserts: Lit,
    },
    /// The learned row is held no more.
    Drop(RowNo),
}
