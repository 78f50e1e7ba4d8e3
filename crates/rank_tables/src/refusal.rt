// Why no instance is built.
ghost use Rattle.std.specs.Prelude.{◌≡◌};
ghost use Rattle.rank_tables.specs.declared.refusal.BuildRefusal.TheVariants.{NoMemory};

use std::alloc::{AllocError, AllocFailed};
use thiserror::Error;

/// Why no instance was built.
#[derive(Debug, Drop, Error)]
pub enum BuildRefusal {
    #[error("there are more than 100,000 acceptable pairs")]
    TooManyPairs,
    #[error("the 0/1 model has more than 8,000,000 terms")]
    TooManyTerms,
    #[error("out of memory")]
    NoMemory,
}

impl From<AllocError> for BuildRefusal {
    ghost from_gives = { λ _ e. e ≡ NoMemory };

    fn from(_: AllocError) -> Self {
        BuildRefusal::NoMemory
    }
}

impl<T: Drop> From<AllocFailed<T>> for BuildRefusal {
    ghost from_gives = { λ _ e. e ≡ NoMemory };

    fn from(_: AllocFailed<T>) -> Self {
        BuildRefusal::NoMemory
    }
}
