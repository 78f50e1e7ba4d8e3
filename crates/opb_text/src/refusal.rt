// Why a text is refused.
ghost use Rattle.std.specs.Prelude.{◌≡◌};
ghost use Rattle.opb_text.specs.declared.refusal.OpbRefusal.TheVariants.{NoMemory as no_memory};

use hrt_base::NoMemory;
use std::alloc::AllocFailed;
use thiserror::Error;

/// Why no formula was read, with the line, counted from 1, blank ones too. Of several kinds in one line the one that is
/// listed first here counts.
#[derive(Clone, Copy, Debug, PartialEq, Eq, Error)]
pub enum OpbRefusal {
    /// The line has no spelling, or is an objective behind another one or behind a row.
    #[error("line {0} is no line of a formula")]
    Syntax(u32),
    /// The sizes of the numbers sum to more than 2^120 in a row, to more than 2^119 in the objective.
    #[error("the numbers of line {0} are too big")]
    TooBig(u32),
    /// A variable is above 100,000.
    #[error("line {0} has a variable above 100000")]
    TooManyVariables(u32),
    /// The line is row 1,000,001.
    #[error("line {0} is one row more than there may be")]
    TooManyRows(u32),
    #[error("there is no memory for the formula")]
    NoMemory,
}

impl From<NoMemory> for OpbRefusal {
    ghost from_gives = { λ _ e. e ≡ no_memory };

    fn from(_: NoMemory) -> Self {
        OpbRefusal::NoMemory
    }
}

impl<T: Drop> From<AllocFailed<T>> for OpbRefusal {
    ghost from_gives = { λ _ e. e ≡ no_memory };

    fn from(_: AllocFailed<T>) -> Self {
        OpbRefusal::NoMemory
    }
}
