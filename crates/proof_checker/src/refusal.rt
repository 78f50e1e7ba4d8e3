// Why a proof is refused.

use thiserror::Error;

/// Why a proof is refused. The first number is the line, counted from 1.
#[derive(Clone, Copy, Debug, PartialEq, Eq, Error)]
pub enum ProofRefusal {
    #[error("line {0} has no spelling, or stands out of order")]
    Syntax(u64),
    /// The second number is that of the row.
    #[error("line {0} names row {1}, which isn't live")]
    BadId(u64, u64),
    /// The second number is the variable.
    #[error("line {0} names variable {1}, which the formula doesn't have")]
    BadVariable(u64, u64),
    #[error("a step of line {0} lacks operands, or the steps don't leave one row")]
    StackShape(u64),
    #[error("a number or a row of line {0} is too big")]
    TooBig(u64),
    #[error("line {0} doesn't name each variable once")]
    NotFull(u64),
    #[error("the row of line {0} doesn't follow by propagation")]
    NotImplied(u64),
    /// The second number is that of the first row of the formula that doesn't hold.
    #[error("row {1} of the formula doesn't hold at the point of line {0}")]
    NotASolution(u64, u64),
    #[error("the claim of line {0} isn't shown")]
    BoundNotShown(u64),
    #[error("line {0} has another number than the formula has rows")]
    WrongCount(u64),
    #[error("the proof ends before its end line")]
    Truncated,
    #[error("there is no memory")]
    NoMemory,
}
