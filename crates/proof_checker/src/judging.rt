// The verdict on a proof: its lines, one after another, and the bytes behind the last line feed.
ghost use Rattle.std.specs.Prelude.{◌≡◌, ◌≤◌, ℕ, List, length, IfErr, IfOk, IfSome};
ghost use Rattle.opb_text.specs.Limits.{IsWithinLimits};
ghost use Rattle.proof_rules.specs.Texts.{HasVerdict};
ghost use Rattle.proof_rules.specs.Sound.{HasNormalRows, IsTrueClaim};
ghost use Rattle.proof_rules.specs.States as states;
ghost use Rattle.pb_rows.specs.Formula as formulas;
ghost use Rattle.proof_checker.specs.Answers.{verdict_of};
ghost use Rattle.proof_checker.specs.Endings.{EndsWith, IsUnread, StopsFirst, Takes, TooBigAt};
ghost use Rattle.proof_checker.specs.Limits.{most_proof_bytes};
ghost use Rattle.proof_checker.specs.Places.{HasRoomAt, IsAt, IsSoundAt, place_of};

use crate::ProofRefusal;
use crate::fault::Fault;
use crate::stage::{Stage, next_stage};
use crate::state::State;
use opb_text::Formula;
use proof_lines::{Claim, LineKind, LineRefusal, first_line, is_blank_text, is_end_text};
use std::alloc::Global;

/// Why a line with a number that is too big is no step: it may stand out of order.
fn too_big_at(stage: Stage, kind: LineKind) -> Fault
    ensures { TooBigAt stage kind result }
{
    match (stage, kind) {
        (Stage::Proving, LineKind::Pol) => Fault::TooBig,
        (Stage::Proving, LineKind::Rup) => Fault::TooBig,
        (Stage::Closing, LineKind::Conclusion) => Fault::TooBig,
        _ => Fault::Syntax,
    }
}

/// Why a first line that isn't read is no step.
fn unread_at(stage: Stage, refusal: LineRefusal) -> Fault
    ensures { (f : formulas.Formula) (s : states.State) (bytes : List ℕ) → IsUnread refusal bytes → StopsFirst f (place_of stage s) bytes result }
{
    match refusal {
        LineRefusal::Syntax => Fault::Syntax,
        LineRefusal::TooBig(kind) => too_big_at(stage, kind),
        LineRefusal::NoMemory => Fault::NoMemory,
    }
}

/// Takes the first line of some bytes. Answers what comes after it and its length; `None` where the bytes have no line feed.
fn take_line(
    alloc: Global,
    formula: &Formula,
    stage: Stage,
    state: &mut State,
    bytes: &[u8],
) -> Result<Option<(Stage, usize)>, Fault>
    requires limits { IsWithinLimits formula.now }
    requires stands { IsAt formula.now stage state.old }
    requires sound { IsSoundAt formula.now stage state.old.state }
    requires room { HasRoomAt stage state.old.state }
    ensures taken { IfOk result (λ taken. Takes formula.now bytes.now stage state.old taken state.new) }
    ensures refused { IfErr result (StopsFirst formula.now (place_of stage state.old.state) bytes.now) }
{
    match first_line(alloc, bytes) {
        Ok(None) => Ok(None),
        Ok(Some((line, len))) => {
            let next = next_stage(alloc, formula, stage, state, &line)?;
            Ok(Some((next, len)))
        }
        Err(refusal) => Err(unread_at(stage, refusal)),
    }
}

/// The verdict on the bytes behind the last line feed, which would be the line with this number.
fn judge_rest(stage: Stage, rest: &[u8], line: u64) -> Result<Claim, ProofRefusal>
    ensures { (f : formulas.Formula) (s : states.State) → EndsWith f (place_of stage s) rest.now line result }
{
    match stage {
        Stage::Done(claim) => {
            if is_blank_text(rest) {
                return Ok(claim);
            }
            Err(ProofRefusal::Syntax(line))
        }
        Stage::Claimed(claim) => {
            if is_end_text(rest) {
                return Ok(claim);
            }
            Err(ProofRefusal::Truncated)
        }
        _ => Err(ProofRefusal::Truncated),
    }
}

/// The verdict on all lines, from the state in which a proof begins.
fn judge_lines(
    alloc: Global,
    formula: &Formula,
    mut state: State,
    bytes: &[u8],
) -> Result<Claim, ProofRefusal>
    requires limits { IsWithinLimits formula.now }
    requires normal { HasNormalRows formula.now }
    requires first { state ≡ record { vars = formula.now.vars; state = states.first_state formula.now } }
    requires few { length bytes.now ≤ most_proof_bytes }
    ensures verdict { IfSome (verdict_of result) (HasVerdict formula.now bytes.now) }
    ensures sound { IfOk result (IsTrueClaim formula.now) }
{
    let mut stage = Stage::Start;
    let mut left = bytes;
    let mut lines = 0;
    'lines: loop {
        match take_line(alloc, formula, stage, &mut state, left) {
            Ok(None) => return judge_rest(stage, left, lines + 1),
            Ok(Some((next, len))) => {
                stage = next;
                left = &left[len..];
                lines += 1;
            }
            Err(fault) => return Err(fault.at_line(lines + 1)),
        }
    }
}

/// The verdict on a proof.
pub fn judge(alloc: Global, formula: &Formula, bytes: &[u8]) -> Result<Claim, ProofRefusal>
    requires limits { IsWithinLimits formula.now }
    requires few { length bytes.now ≤ most_proof_bytes }
    ensures verdict { IfSome (verdict_of result) (HasVerdict formula.now bytes.now) }
    ensures sound { IfOk result (IsTrueClaim formula.now) }
{
    match State::new(alloc, formula) {
        Ok(state) => judge_lines(alloc, formula, state, bytes),
        Err(_) => Err(ProofRefusal::NoMemory),
    }
}
