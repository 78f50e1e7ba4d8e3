// Why a line makes no row.
ghost use Rattle.std.specs.Prelude.{◌≡◌};
ghost use Rattle.proof_steps.specs.declared.refusal.StepRefusal.TheVariants.{NoMemory as no_memory};

use hrt_base::NoMemory;
use thiserror::Error;

/// Why a line makes no row.
#[derive(Clone, Copy, Debug, PartialEq, Eq, Error)]
pub enum StepRefusal {
    /// No live row has the number.
    #[error("no live row has the number")]
    BadId(u64),
    /// The formula has fewer variables.
    #[error("there are fewer variables")]
    BadVariable(u32),
    /// A step lacks operands, or the steps don't leave one row.
    #[error("the steps don't leave one row")]
    StackShape,
    /// A written number or a row that was made is too big.
    #[error("a number is too big")]
    TooBig,
    #[error("there is no memory")]
    NoMemory,
}

impl From<NoMemory> for StepRefusal {
    ghost from_gives = { λ _ e. e ≡ no_memory };

    fn from(_: NoMemory) -> Self {
        StepRefusal::NoMemory
    }
}
