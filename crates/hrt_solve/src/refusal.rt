// Why a proof was not accepted.
ghost use Rattle.std.specs.Prelude.{◌≡◌};
ghost use Rattle.hrt_solve.specs.declared.refusal.CheckRefusal.TheVariants.{NoMemory as check_no_memory};
ghost use Rattle.hrt_solve.specs.Judged.{check_end, check_refusal};

use hrt_base::{NoMemory, ReadEnd};
use proof_checker::ProofRefusal;
use thiserror::Error;

/// Why a proof was not accepted. Want of memory is `NoMemory` alone: `Proof` never says it.
#[derive(Clone, Copy, Debug, PartialEq, Eq, Error)]
pub enum CheckRefusal {
    #[error("reading the proof failed")]
    Failed,
    #[error("the proof has more than 2^40 bytes")]
    TooLong,
    #[error("the proof is not valid")]
    Proof(ProofRefusal),
    #[error("there is no memory to check the proof")]
    NoMemory,
}

impl From<NoMemory> for CheckRefusal {
    ghost from_gives = { λ _ e. e ≡ check_no_memory };

    fn from(_: NoMemory) -> Self {
        CheckRefusal::NoMemory
    }
}

impl From<ReadEnd> for CheckRefusal {
    ghost from_gives = { λ end e. e ≡ check_end end };

    fn from(end: ReadEnd) -> Self {
        match end {
            ReadEnd::Failed => CheckRefusal::Failed,
            ReadEnd::TooLong => CheckRefusal::TooLong,
            ReadEnd::NoMemory => CheckRefusal::NoMemory,
        }
    }
}

impl From<ProofRefusal> for CheckRefusal {
    ghost from_gives = { λ refusal e. e ≡ check_refusal refusal };

    fn from(refusal: ProofRefusal) -> Self {
        match refusal {
            ProofRefusal::NoMemory => CheckRefusal::NoMemory,
            _ => CheckRefusal::Proof(refusal),
        }
    }
}
