//! Why a text is refused.

ghost use Rattle.std.specs.Prelude.{◌≡◌, Some};
ghost use Rattle.hrt_reader.specs.declared.refusals.ReadRefusal.TheVariants.{NoMemory as read_no_memory};
ghost use Rattle.hrt_reader.specs.Kinds.{flaw_number};
ghost use Rattle.hrt_reader.specs.Survey.{IsRefusedBy};

use hrt_base::NoMemory;
use std::alloc::AllocError;
use thiserror::Error;

/// What is wrong in a line of an instance's text. Of several kinds in one line the one that is listed first here counts, but
/// `UnknownName` only where no other kind and no limit stands in the whole text.
#[derive(Clone, Copy, Debug, PartialEq, Eq)]
pub enum ReadKind {
    BadHeader,
    BadLine,
    BadName,
    BadCapacity,
    DeclaredTwice,
    UnknownName,
    NamedTwice,
    BadTie,
    NoEnd,
    AfterEnd,
}

/// What there is too much of.
#[derive(Clone, Copy, Debug, PartialEq, Eq)]
pub enum LimitKind {
    Residents,
    Hospitals,
    Pairs,
    Terms,
}

/// Why no instance was read. Lines are counted from 1, blank ones too.
#[derive(Clone, Copy, Debug, PartialEq, Eq, Error)]
pub enum ReadRefusal {
    #[error("line {line}: {kind:?}")]
    Bad { kind: ReadKind, line: u32 },
    #[error("too many: {0:?}")]
    Limit(LimitKind),
    #[error("out of memory")]
    NoMemory,
}

impl From<AllocError> for ReadRefusal {
    ghost from_gives = { λ _ e. e ≡ read_no_memory };

    fn from(_: AllocError) -> Self {
        ReadRefusal::NoMemory
    }
}

impl From<NoMemory> for ReadRefusal {
    ghost from_gives = { λ _ e. e ≡ read_no_memory };

    fn from(_: NoMemory) -> Self {
        ReadRefusal::NoMemory
    }
}

/// What stops the reading at a line: a kind, or one declaration more than there may be.
#[derive(Clone, Copy, Debug, PartialEq, Eq)]
pub enum Flaw {
    Bad(ReadKind),
    TooManyResidents,
    TooManyHospitals,
}

/// The refusal of a text that this flaw in this line stops.
pub fn refused(flaw: Flaw, line: u32) -> ReadRefusal
    ensures { IsRefusedBy (Some (record { line = line; kind = flaw_number flaw })) result }
{
    match flaw {
        Flaw::Bad(kind) => ReadRefusal::Bad { kind, line },
        Flaw::TooManyResidents => ReadRefusal::Limit(LimitKind::Residents),
        Flaw::TooManyHospitals => ReadRefusal::Limit(LimitKind::Hospitals),
    }
}
