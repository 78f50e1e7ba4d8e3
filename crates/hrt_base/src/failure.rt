// Why a call was given up.
ghost use Rattle.std.specs.Prelude.{◌≡◌};
ghost use Rattle.hrt_base.specs.declared.failure.WriteEnd.TheVariants.{Failed as write_failed, NoMemory as write_no_memory};
ghost use Rattle.hrt_base.specs.declared.failure.ReadEnd.TheVariants.{Failed as read_failed, NoMemory as read_no_memory};

use std::alloc::{AllocError, AllocFailed};
use thiserror::Error;

/// The host could not do what it was asked.
#[derive(Clone, Copy, Debug, PartialEq, Eq, Error)]
#[error("the host failed")]
pub struct Failed;

/// There was no memory.
#[derive(Clone, Copy, Debug, PartialEq, Eq, Error)]
#[error("there is no memory")]
pub struct NoMemory;

impl From<AllocError> for NoMemory {
    fn from(_: AllocError) -> Self {
        NoMemory
    }
}

impl<T: Drop> From<AllocFailed<T>> for NoMemory {
    fn from(_: AllocFailed<T>) -> Self {
        NoMemory
    }
}

/// Why a text was not written whole.
#[derive(Clone, Copy, Debug, PartialEq, Eq, Error)]
pub enum WriteEnd {
    #[error("writing failed")]
    Failed,
    #[error("there is no memory to write")]
    NoMemory,
}

/// Why a text was not read whole.
#[derive(Clone, Copy, Debug, PartialEq, Eq, Error)]
pub enum ReadEnd {
    #[error("reading failed")]
    Failed,
    #[error("the text is longer than the limit")]
    TooLong,
    #[error("there is no memory to read")]
    NoMemory,
}

impl From<Failed> for WriteEnd {
    ghost from_gives = { λ _ e. e ≡ write_failed };

    fn from(_: Failed) -> Self {
        WriteEnd::Failed
    }
}

impl From<NoMemory> for WriteEnd {
    ghost from_gives = { λ _ e. e ≡ write_no_memory };

    fn from(_: NoMemory) -> Self {
        WriteEnd::NoMemory
    }
}

impl From<AllocError> for WriteEnd {
    ghost from_gives = { λ _ e. e ≡ write_no_memory };

    fn from(_: AllocError) -> Self {
        WriteEnd::NoMemory
    }
}

impl From<Failed> for ReadEnd {
    ghost from_gives = { λ _ e. e ≡ read_failed };

    fn from(_: Failed) -> Self {
        ReadEnd::Failed
    }
}

impl From<AllocError> for ReadEnd {
    ghost from_gives = { λ _ e. e ≡ read_no_memory };

    fn from(_: AllocError) -> Self {
        ReadEnd::NoMemory
    }
}
