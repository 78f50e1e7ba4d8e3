// Why a line is no step.
ghost use Rattle.std.specs.Prelude.{◌≡◌};
ghost use Rattle.proof_checker.specs.declared.fault.Fault.TheVariants.{NoMemory as no_memory};
ghost use Rattle.proof_checker.specs.Faults.{at_line, fault_of};

use crate::ProofRefusal;
use hrt_base::NoMemory;
use proof_steps::StepRefusal;
use std::alloc::{AllocError, AllocFailed};

/// Why a line is no step, or that memory is wanting.
#[derive(Clone, Copy, Debug, PartialEq, Eq)]
pub enum Fault {
    Syntax,
    TooBig,
    BadId(u64),
    BadVariable(u32),
    StackShape,
    NotFull,
    NotASolution(u64),
    NotImplied,
    BoundNotShown,
    WrongCount,
    NoMemory,
}

impl From<NoMemory> for Fault {
    ghost from_gives = { λ _ e. e ≡ no_memory };

    fn from(_: NoMemory) -> Self {
        Fault::NoMemory
    }
}

impl From<AllocError> for Fault {
    ghost from_gives = { λ _ e. e ≡ no_memory };

    fn from(_: AllocError) -> Self {
        Fault::NoMemory
    }
}

impl<T: Drop> From<AllocFailed<T>> for Fault {
    ghost from_gives = { λ _ e. e ≡ no_memory };

    fn from(_: AllocFailed<T>) -> Self {
        Fault::NoMemory
    }
}

impl Fault {
    /// The fault of a line whose steps make no row.
    pub fn of_steps(refusal: StepRefusal) -> Fault
        ensures { result ≡ fault_of refusal }
    {
        match refusal {
            StepRefusal::BadId(id) => Fault::BadId(id),
            StepRefusal::BadVariable(var) => Fault::BadVariable(var),
            StepRefusal::StackShape => Fault::StackShape,
            StepRefusal::TooBig => Fault::TooBig,
            StepRefusal::NoMemory => Fault::NoMemory,
        }
    }

    /// The refusal of a proof whose line with this number is no step.
    pub fn at_line(self, line: u64) -> ProofRefusal
        ensures { result ≡ at_line line self }
    {
        match self {
            Fault::Syntax => ProofRefusal::Syntax(line),
            Fault::TooBig => ProofRefusal::TooBig(line),
            Fault::BadId(id) => ProofRefusal::BadId(line, id),
            Fault::BadVariable(var) => ProofRefusal::BadVariable(line, u64::from(var)),
            Fault::StackShape => ProofRefusal::StackShape(line),
            Fault::NotFull => ProofRefusal::NotFull(line),
            Fault::NotASolution(row) => ProofRefusal::NotASolution(line, row),
            Fault::NotImplied => ProofRefusal::NotImplied(line),
            Fault::BoundNotShown => ProofRefusal::BoundNotShown(line),
            Fault::WrongCount => ProofRefusal::WrongCount(line),
            Fault::NoMemory => ProofRefusal::NoMemory,
        }
    }
}
