// Why a file was not had.
ghost use Rattle.std.specs.Prelude.{◌≡◌};
ghost use Rattle.hrt_inputs.specs.declared.stop.Stop.TheVariants.{NoMemory as stop_no_memory, ReadFault as stop_read_fault};
ghost use Rattle.hrt_inputs.specs.Formulas.{model_stop};
ghost use Rattle.hrt_inputs.specs.Proofs.{check_stop};

use crate::Limit;
use hrt_base::{Failed, NoMemory};
use hrt_reader::{PairsKind, ReadKind};
use hrt_solve::CheckRefusal;
use opb_text::OpbRefusal;
use proof_checker::ProofRefusal;

/// Why the text of a model is refused.
#[derive(Clone, Copy, Debug, PartialEq, Eq)]
pub enum ModelKind {
    Syntax,
    TooBig,
}

/// Why a file was not had, or a proof was not accepted. All but the last two are told to the user.
#[derive(Clone, Copy, Debug, PartialEq, Eq)]
pub enum Stop {
    Refused { kind: ReadKind, line: u32 },
    Exceeded(Limit),
    PairsRefused { kind: PairsKind, line: u32 },
    ModelRefused { kind: ModelKind, line: u32 },
    ProofRefused(ProofRefusal),
    ReadFault,
    NoMemory,
}

impl From<NoMemory> for Stop {
    ghost from_gives = { λ _ e. e ≡ stop_no_memory };

    fn from(_: NoMemory) -> Self {
        Stop::NoMemory
    }
}

impl From<Failed> for Stop {
    ghost from_gives = { λ _ e. e ≡ stop_read_fault };

    fn from(_: Failed) -> Self {
        Stop::ReadFault
    }
}

impl From<OpbRefusal> for Stop {
    ghost from_gives = { λ refusal e. e ≡ model_stop refusal };

    fn from(refusal: OpbRefusal) -> Self {
        match refusal {
            OpbRefusal::Syntax(line) => Stop::ModelRefused {
                kind: ModelKind::Syntax,
                line,
            },
            OpbRefusal::TooBig(line) => Stop::ModelRefused {
                kind: ModelKind::TooBig,
                line,
            },
            OpbRefusal::TooManyVariables(_) => Stop::Exceeded(Limit::Variables),
            OpbRefusal::TooManyRows(_) => Stop::Exceeded(Limit::Rows),
            OpbRefusal::NoMemory => Stop::NoMemory,
        }
    }
}

impl From<CheckRefusal> for Stop {
    ghost from_gives = { λ refusal e. e ≡ check_stop refusal };

    fn from(refusal: CheckRefusal) -> Self {
        match refusal {
            CheckRefusal::Failed => Stop::ReadFault,
            CheckRefusal::TooLong => Stop::Exceeded(Limit::ProofBytes),
            CheckRefusal::Proof(refusal) => Stop::ProofRefused(refusal),
            CheckRefusal::NoMemory => Stop::NoMemory,
        }
    }
}
