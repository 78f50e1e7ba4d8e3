// How a run ends.
ghost use Rattle.std.specs.Prelude.{◌≡◌};
ghost use Rattle.hrt_cli.specs.Statuses.{code_of, exit_code};

use crate::Ended;

/// What a report tells, in the order of the codes with which the program exits.
#[derive(Clone, Copy, Debug, PartialEq, Eq)]
pub enum Status {
    Done,
    Misused,
    InstanceRefused,
    LimitExceeded,
    /// The proof, or the model that it is a proof of.
    ProofRefused,
    AuditNo,
    /// The matching is shorter than the ceiling.
    Bounded,
    PairsRefused,
}

impl Status {
    // The code with which the program exits.
    fn code(self) -> u8
        ensures { result ≡ code_of self }
    {
        match self {
            Status::Done => 0,
            Status::Misused => 2,
            Status::InstanceRefused => 3,
            Status::LimitExceeded => 7,
            Status::ProofRefused => 8,
            Status::AuditNo => 9,
            Status::Bounded => 10,
            Status::PairsRefused => 12,
        }
    }
}

/// The code with which the program exits.
pub fn exit_code(end: Result<Status, Ended>) -> u8
    ensures { result ≡ exit_code end }
{
    match end {
        Ok(status) => status.code(),
        Err(Ended::ReadFault) => 4,
        Err(Ended::WriteFault) => 5,
        Err(Ended::NoMemory) => 6,
    }
}
