// The order of the lines.
ghost use Rattle.std.specs.Prelude.{◌≡◌, ◌<◌, ◌^◌, IsTrue, IfErr, IfOk};
ghost use Rattle.opb_text.specs.Limits.{IsWithinLimits};
ghost use Rattle.proof_lines.specs.Spelling.{is_small_line};
ghost use Rattle.proof_lines.specs.Texts.{is_spellable};
ghost use Rattle.proof_rules.specs.States as states;
ghost use Rattle.proof_rules.specs.Sound.{IsSoundState};
ghost use Rattle.proof_checker.specs.Faults.{Halts};
ghost use Rattle.proof_checker.specs.Kept.{Kept};
ghost use Rattle.proof_checker.specs.Places.{Goes, HasRoomAt, IsAt, IsSoundAt, AlwaysLeads, AlwaysHalts, place_of};

use crate::claims::shows;
use crate::fault::Fault;
use crate::solution::log;
use crate::state::State;
use crate::steps::{delete, derive, imply};
use opb_text::Formula;
use proof_lines::{Claim, Line};
use std::alloc::Global;

/// Which lines may come next.
#[derive(Clone, Copy, Debug, PartialEq, Eq)]
pub enum Stage {
    /// The header is due.
    Start,
    /// The count is due.
    Headed,
    /// Steps, or the output line.
    Proving,
    /// The conclusion is due.
    Closing,
    /// The end line is due.
    Claimed(Claim),
    /// Blank lines alone.
    Done(Claim),
}

/// What comes after the first line.
fn after_start(line: &Line) -> Result<Stage, Fault>
    ensures ok { IfOk result (AlwaysLeads line.now Stage.Start) }
    ensures refused { IfErr result (AlwaysHalts line.now Stage.Start) }
{
    match line {
        Line::Header => Ok(Stage::Headed),
        _ => Err(Fault::Syntax),
    }
}

/// What comes after a line where the count is due.
fn after_headed(formula: &Formula, line: &Line) -> Result<Stage, Fault>
    ensures ok { IfOk result (λ stage. (kept : Kept) → IsAt formula.now Stage.Headed kept → Goes formula.now line.now Stage.Headed kept stage kept) }
    ensures refused { IfErr result (λ fault. (s : states.State) → Halts formula.now (place_of Stage.Headed s) line.now fault) }
{
    match line {
        Line::Blank => Ok(Stage::Headed),
        Line::Comment => Ok(Stage::Headed),
        Line::Count(count) => {
            if *count == formula.rows.len() as u64 {
                return Ok(Stage::Proving);
            }
            Err(Fault::WrongCount)
        }
        _ => Err(Fault::Syntax),
    }
}

/// What comes after a line among the steps, which changes the state.
fn after_proving(
    alloc: Global,
    formula: &Formula,
    state: &mut State,
    line: &Line,
) -> Result<Stage, Fault>
    requires limits { IsWithinLimits formula.now }
    requires stands { IsAt formula.now Stage.Proving state.old }
    requires next { state.old.state.next < 2 ^ 63 }
    requires made { IsTrue (is_spellable line.now) }
    requires small { IsTrue (is_small_line line.now) }
    ensures ok { IfOk result (λ stage. Goes formula.now line.now Stage.Proving state.old stage state.new) }
    ensures refused { IfErr result (Halts formula.now (place_of Stage.Proving state.old.state) line.now) }
{
    match line {
        Line::Pol(steps) => derive(alloc, formula, state, steps.as_slice())?,
        Line::Rup(written) => imply(alloc, formula, state, written)?,
        Line::Soli(literals) => log(alloc, formula, state, literals.as_slice())?,
        Line::Del(ids) => delete(alloc, formula, state, ids.as_slice())?,
        Line::Output => return Ok(Stage::Closing),
        Line::Blank | Line::Comment => {}
        _ => return Err(Fault::Syntax),
    }
    Ok(Stage::Proving)
}

/// What comes after a line where the conclusion is due.
fn after_closing(
    alloc: Global,
    formula: &Formula,
    state: &mut State,
    line: &Line,
) -> Result<Stage, Fault>
    requires limits { IsWithinLimits formula.now }
    requires stands { IsAt formula.now Stage.Closing state.old }
    requires sound { IsSoundState formula.now state.old.state }
    requires small { IsTrue (is_small_line line.now) }
    ensures ok { IfOk result (λ stage. Goes formula.now line.now Stage.Closing state.old stage state.new) }
    ensures refused { IfErr result (Halts formula.now (place_of Stage.Closing state.old.state) line.now) }
{
    match line {
        Line::Blank => Ok(Stage::Closing),
        Line::Comment => Ok(Stage::Closing),
        Line::Conclusion(claim) => {
            if shows(alloc, formula, state, *claim)? {
                return Ok(Stage::Claimed(*claim));
            }
            Err(Fault::BoundNotShown)
        }
        _ => Err(Fault::Syntax),
    }
}

/// What comes after a line where the end line is due.
fn after_claimed(claim: Claim, line: &Line) -> Result<Stage, Fault>
    ensures ok { IfOk result (AlwaysLeads line.now (Stage.Claimed claim)) }
    ensures refused { IfErr result (AlwaysHalts line.now (Stage.Claimed claim)) }
{
    match line {
        Line::Blank => Ok(Stage::Claimed(claim)),
        Line::Comment => Ok(Stage::Claimed(claim)),
        Line::End => Ok(Stage::Done(claim)),
        _ => Err(Fault::Syntax),
    }
}

/// What comes after a line behind the end line.
fn after_done(claim: Claim, line: &Line) -> Result<Stage, Fault>
    ensures ok { IfOk result (AlwaysLeads line.now (Stage.Done claim)) }
    ensures refused { IfErr result (AlwaysHalts line.now (Stage.Done claim)) }
{
    match line {
        Line::Blank => Ok(Stage::Done(claim)),
        _ => Err(Fault::Syntax),
    }
}

/// What comes after a line, which may change the state.
pub fn next_stage(
    alloc: Global,
    formula: &Formula,
    stage: Stage,
    state: &mut State,
    line: &Line,
) -> Result<Stage, Fault>
    requires limits { IsWithinLimits formula.now }
    requires stands { IsAt formula.now stage state.old }
    requires sound { IsSoundAt formula.now stage state.old.state }
    requires room { HasRoomAt stage state.old.state }
    requires made { IsTrue (is_spellable line.now) }
    requires small { IsTrue (is_small_line line.now) }
    ensures ok { IfOk result (λ next. Goes formula.now line.now stage state.old next state.new) }
    ensures refused { IfErr result (Halts formula.now (place_of stage state.old.state) line.now) }
{
    match stage {
        Stage::Start => after_start(line),
        Stage::Headed => after_headed(formula, line),
        Stage::Proving => after_proving(alloc, formula, state, line),
        Stage::Closing => after_closing(alloc, formula, state, line),
        Stage::Claimed(claim) => after_claimed(claim, line),
        Stage::Done(claim) => after_done(claim, line),
    }
}
