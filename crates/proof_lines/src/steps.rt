// The steps of a `pol` line.

ghost use Rattle.std.specs.Prelude.{◌≡◌, ◌≤◌, is_some, length, option_map, IfOk};
ghost use Rattle.std.specs.List.{list_all};
ghost use Rattle.proof_lines.specs.declared.line.PolStep.TheVariants.{Divide, Times, Weaken};
ghost use Rattle.proof_lines.specs.Spelling.{factor, is_small_step, read_step, read_steps};
ghost use Rattle.proof_lines.specs.Steps.{first_step, steps_after};
ghost use Rattle.row_text.specs.Numbers.{is_small, read_number, read_variable};
ghost use Rattle.row_text.specs.Readings.{reading};
ghost use Rattle.row_text.specs.Tokens.{tokens};

use crate::{PolStep, PolSteps};
use hrt_base::{NoMemory, RowNo};
use row_text::{Reading, next_token, read_id, read_literal, read_number, read_variable};
use std::alloc::Global;

// The factor that is spelled, at least 1. One with a minus sign is none, however big it is.
fn read_factor(token: &[u8]) -> Reading<i128>
    ensures { result ≡ reading is_small (factor (read_number token.now)) }
{
    if let [b'-', ..] = token {
        return Reading::Unspelled;
    }
    match read_number(token) {
        Reading::Value(factor) => {
            if factor >= 1 {
                Reading::Value(factor)
            } else {
                Reading::Unspelled
            }
        }
        Reading::TooBig => Reading::TooBig,
        Reading::Unspelled => Reading::Unspelled,
    }
}

fn read_times(token: &[u8]) -> Reading<PolStep>
    ensures { result ≡ reading is_small_step (option_map Times (factor (read_number token.now))) }
{
    match read_factor(token) {
        Reading::Value(factor) => Reading::Value(PolStep::Times(factor)),
        Reading::TooBig => Reading::TooBig,
        Reading::Unspelled => Reading::Unspelled,
    }
}

fn read_divide(token: &[u8]) -> Reading<PolStep>
    ensures { result ≡ reading is_small_step (option_map Divide (factor (read_number token.now))) }
{
    match read_factor(token) {
        Reading::Value(factor) => Reading::Value(PolStep::Divide(factor)),
        Reading::TooBig => Reading::TooBig,
        Reading::Unspelled => Reading::Unspelled,
    }
}

fn read_weaken(token: &[u8]) -> Reading<PolStep>
    ensures { result ≡ reading is_small_step (option_map Weaken (read_variable token.now)) }
{
    match read_variable(token) {
        Some(var) => Reading::Value(PolStep::Weaken(var)),
        None => Reading::Unspelled,
    }
}

// A step of one token.
fn read_step(token: &[u8]) -> Reading<PolStep>
    ensures { result ≡ reading is_small_step (read_step token.now) }
{
    if token == b"+".as_slice() {
        return Reading::Value(PolStep::Add);
    }
    if token == b"s".as_slice() {
        return Reading::Value(PolStep::Saturate);
    }
    if let Some(id) = read_id(token) {
        return Reading::Value(PolStep::Id(RowNo(id)));
    }
    match read_literal(token) {
        Some(lit) => Reading::Value(PolStep::Axiom(lit)),
        None => Reading::Unspelled,
    }
}

// The step that begins with the token, and what follows it.
fn next_step<'a>(first: &[u8], after: &'a [u8]) -> (Reading<PolStep>, &'a [u8])
    ensures step { result.0 ≡ reading is_small_step (first_step first.now (tokens after.now)) }
    ensures rest { tokens result.1.now ≡ steps_after (tokens after.now) }
    ensures shorter { length result.1.now ≤ length after.now }
{
    let Some((second, behind)) = next_token(after) else {
        return (read_step(first), after);
    };
    if second == b"*".as_slice() {
        return (read_times(first), behind);
    }
    if second == b"d".as_slice() {
        return (read_divide(first), behind);
    }
    if second == b"w".as_slice() {
        return (read_weaken(first), behind);
    }
    (read_step(first), after)
}

// Whether steps are spelled, whatever their numbers.
fn are_steps(line: &[u8]) -> bool
    ensures { result ≡ is_some (read_steps (tokens line.now)) }
{
    let mut rest = line;
    while let Some((first, after)) = next_token(rest) {
        let (step, behind) = next_step(first, after);
        if !step.is_spelled() {
            return false;
        }
        rest = behind;
    }
    true
}

/// The steps that the line spells, if any.
pub fn read_steps(alloc: Global, line: &[u8]) -> Result<Reading<PolSteps>, NoMemory>
    ensures { IfOk result (λ steps. steps ≡ reading (list_all is_small_step) (read_steps (tokens line.now))) }
{
    let mut steps = PolSteps::new(alloc);
    let mut rest = line;
    while let Some((first, after)) = next_token(rest) {
        let (step, behind) = next_step(first, after);
        match step {
            Reading::Value(step) => steps.push(step)?,
            Reading::TooBig => {
                return Ok(if are_steps(behind) {
                    Reading::TooBig
                } else {
                    Reading::Unspelled
                });
            }
            Reading::Unspelled => return Ok(Reading::Unspelled),
        }
        rest = behind;
    }
    Ok(Reading::Value(steps))
}
