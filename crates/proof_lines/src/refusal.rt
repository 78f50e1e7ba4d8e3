// Why a line is not read.
ghost use Rattle.std.specs.Prelude.{◌≡◌};
ghost use Rattle.proof_lines.specs.declared.refusal.LineRefusal.TheVariants.{NoMemory as no_memory};

use hrt_base::NoMemory;
use thiserror::Error;

/// The kinds of lines in which numbers are written that may be too big.
#[derive(Clone, Copy, Debug, PartialEq, Eq)]
pub enum LineKind {
    Pol,
    Rup,
    Conclusion,
}

/// Why a line is not read.
#[derive(Clone, Copy, Debug, PartialEq, Eq, Error)]
pub enum LineRefusal {
    #[error("the line has no spelling")]
    Syntax,
    #[error("a number in the line is too big")]
    TooBig(LineKind),
    #[error("there is no memory for the line")]
    NoMemory,
}

impl From<NoMemory> for LineRefusal {
    ghost from_gives = { λ _ e. e ≡ no_memory };

    fn from(_: NoMemory) -> Self {
        LineRefusal::NoMemory
    }
}
