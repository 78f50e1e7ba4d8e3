// Why a run ended early.
ghost use Rattle.std.specs.Prelude.{◌≡◌};
ghost use Rattle.hrt_cli.specs.declared.stop.Ended.TheVariants.{NoMemory as ended_no_memory};
ghost use Rattle.hrt_cli.specs.Writing.{ended_by};

use hrt_base::{NoMemory, WriteEnd};

/// Why a run ended without a report.
#[derive(Clone, Copy, Debug, PartialEq, Eq)]
pub enum Ended {
    ReadFault,
    WriteFault,
    NoMemory,
}

impl From<NoMemory> for Ended {
    ghost from_gives = { λ _ e. e ≡ ended_no_memory };

    fn from(_: NoMemory) -> Self {
        Ended::NoMemory
    }
}

impl From<WriteEnd> for Ended {
    ghost from_gives = { λ end e. e ≡ ended_by end };

    fn from(end: WriteEnd) -> Self {
        match end {
            WriteEnd::Failed => Ended::WriteFault,
            WriteEnd::NoMemory => Ended::NoMemory,
        }
    }
}
