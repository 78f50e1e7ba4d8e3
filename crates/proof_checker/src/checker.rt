// The checker.
ghost use Rattle.std.specs.Prelude.{◌≡◌, ◌+◌, ◌≤◌, ℕ, List, [], ◌++◌, length, IsTrue, IfOk, IfErr, OnOk, OnErr, Err};
ghost use Rattle.opb_text.specs.Limits.{IsWithinLimits};
ghost use Rattle.proof_rules.specs.Sound.{IsTrueClaim};
ghost use Rattle.proof_checker.specs.declared.phase.Phase.TheVariants.{Finished, OutOfMemory, Reading};
ghost use Rattle.proof_checker.specs.Limits.{most_proof_bytes};
ghost use Rattle.proof_checker.specs.Standing.{StandsFor, StaysStanding, is_open};
ghost use Rattle.proof_checker.specs.Answers.{Judges};

use crate::ProofRefusal;
use crate::judging::judge;
use crate::phase::Phase;
use hrt_base::NoMemory;
use opb_text::Formula;
use proof_lines::Claim;
use std::alloc::Global;
use std::marker::Model;

/// A checker of proofs of a formula. It is seen as the formula, all bytes that it was fed, and what it does next.
#[derive(Drop)]
pub struct Checker {
    formula: Formula,
    bytes: Vec<u8>,
    phase: Phase,
}

impl Model for Checker {
    ghost use Rattle.proof_checker.specs.Standing.{Checked, IsFed};

    ghost Value = { Checked };

    ghost view = { λ c. record { formula = c.formula; bytes = c.bytes.items; phase = c.phase } };

    ghost invariant = { λ c. IsFed c.formula c.bytes.items };
}

impl Checker {
    /// A checker to which nothing was fed yet.
    pub fn new(alloc: Global, formula: Formula) -> Result<Checker, NoMemory>
        requires { IsWithinLimits formula }
        ensures is { IfOk result (λ checker. checker ≡ record { formula = formula; bytes = []; phase = Reading }) }
        ensures stands { IfOk result (StandsFor []) }
    {
        Ok(Checker {
            formula,
            bytes: Vec::new(alloc),
            phase: Phase::Reading,
        })
    }

    /// Takes the next bytes of the proof. After want of memory every call answers that.
    pub fn feed(&mut self, _alloc: Global, piece: &[u8]) -> Result<(), ProofRefusal>
        requires open { IsTrue (is_open self.old.phase) }
        requires bytes { length self.old.bytes + length piece.now ≤ most_proof_bytes }
        ensures fed { OnOk result (self.new ≡ record self.old { bytes = self.old.bytes ++ piece.now }) }
        ensures stands { OnOk result (StaysStanding piece.now self.old self.new) }
        ensures memory { self.old.phase ≡ OutOfMemory → result ≡ Err ProofRefusal.NoMemory }
        ensures refused { IfErr result (λ refusal. refusal ≡ ProofRefusal.NoMemory) }
        ensures err { OnErr result (self.new ≡ record self.old { phase = OutOfMemory }) }
    {
        if self.phase == Phase::OutOfMemory {
            return Err(ProofRefusal::NoMemory);
        }
        match self.bytes.extend_from_slice(piece) {
            Ok(()) => Ok(()),
            Err(_) => {
                self.phase = Phase::OutOfMemory;
                Err(ProofRefusal::NoMemory)
            }
        }
    }

    /// Judges what was fed: whether it is a valid proof, and of which claim. It is the last call.
    pub fn finish(&mut self, alloc: Global) -> Result<Claim, ProofRefusal>
        requires { IsTrue (is_open self.old.phase) }
        ensures last { self.new ≡ record self.old { phase = Finished } }
        ensures memory { self.old.phase ≡ OutOfMemory → result ≡ Err ProofRefusal.NoMemory }
        ensures verdict { (text : List ℕ) → StandsFor text self.old → Judges self.old.formula text result }
        ensures sound { IfOk result (IsTrueClaim self.old.formula) }
    {
        let phase = self.phase;
        self.phase = Phase::Finished;
        if phase == Phase::OutOfMemory {
            return Err(ProofRefusal::NoMemory);
        }
        judge(alloc, &self.formula, self.bytes.as_slice())
    }
}
