//! Why a text of pairs is refused.

ghost use Rattle.std.specs.Prelude.{◌≡◌};
ghost use Rattle.hrt_reader.specs.declared.pair_refusals.PairsRefusal.TheVariants.{NoMemory as pairs_no_memory};

use hrt_base::NoMemory;
use std::alloc::AllocError;
use thiserror::Error;

/// What is wrong in a line of a text of pairs. Of several kinds in one line the one that is listed first here counts.
#[derive(Clone, Copy, Debug, PartialEq, Eq)]
pub enum PairsKind {
    BadLine,
    UnknownName,
    NotAcceptable,
    RepeatedPair,
}

/// Why no pairs were read. Lines are counted from 1, blank ones too.
#[derive(Clone, Copy, Debug, PartialEq, Eq, Error)]
pub enum PairsRefusal {
    #[error("line {line}: {kind:?}")]
    Bad { kind: PairsKind, line: u32 },
    #[error("out of memory")]
    NoMemory,
}

impl From<AllocError> for PairsRefusal {
    ghost from_gives = { λ _ e. e ≡ pairs_no_memory };

    fn from(_: AllocError) -> Self {
        PairsRefusal::NoMemory
    }
}

impl From<NoMemory> for PairsRefusal {
    ghost from_gives = { λ _ e. e ≡ pairs_no_memory };

    fn from(_: NoMemory) -> Self {
        PairsRefusal::NoMemory
    }
}
