//! One line after the other: how far a text has come, and the flaw that stops it.

ghost use Rattle.std.specs.Prelude.{◌≡◌, ◌&&◌, is_none, nat_lt, slice_get, if◌then◌else◌, IfOk, List, ℕ};
ghost use Rattle.hrt_text.specs.Text.{Row, tokens};
ghost use Rattle.hrt_reader.specs.Refusal.{declared_hospitals, declared_residents};
ghost use Rattle.hrt_text.specs.Views.{texts};
ghost use Rattle.hrt_reader.specs.Kinds.{flaw_number};
ghost use Rattle.hrt_reader.specs.Stages.{IsStage, StepsBy, StepsTo};

use crate::declarations::{hospital_flaw, resident_flaw};
use crate::refusals::{Flaw, ReadKind};
use hrt_text::{Form, form_of, is_header, next_token};
use indexmap::IndexSet;
use std::alloc::{AllocError, Global};

/// How far a text has come: before its header, between the header and `end`, or behind `end`.
#[derive(Clone, Copy, Debug)]
pub enum Stage {
    Start,
    Open,
    Ended,
}

/// What a line does.
#[derive(Clone, Copy, Debug)]
pub enum Step {
    Next(Stage),
    Refused(Flaw),
}

// In the last line `AfterEnd` and the limits give way to the missing end of the text, whose number is less.
fn before_end(flaw: Flaw, is_last: bool) -> Flaw
    ensures { flaw_number result ≡ (if nat_lt 9 (flaw_number flaw) && is_last then 9 else flaw_number flaw) }
{
    match flaw {
        Flaw::Bad(ReadKind::AfterEnd) | Flaw::TooManyResidents | Flaw::TooManyHospitals
            if is_last => { Flaw::Bad(ReadKind::NoEnd) }
        other => other,
    }
}

fn step_by(flaw: Option<Flaw>, is_last: bool) -> Step
    ensures { StepsBy flaw is_last result }
{
    match flaw {
        None => Step::Next(Stage::Open),
        Some(flaw) => Step::Refused(before_end(flaw, is_last)),
    }
}

fn start_step(line: &[u8]) -> Step
    ensures { (before after : List Row) (residents hospitals : List (List ℕ)) → IsStage Stage.Start before → declared_residents before ≡ residents → declared_hospitals before ≡ hospitals → StepsTo before (tokens line.now) after residents hospitals result }
{
    match next_token(line) {
        None => Step::Next(Stage::Start),
        Some(_) => {
            if is_header(line) {
                Step::Next(Stage::Open)
            } else {
                Step::Refused(Flaw::Bad(ReadKind::BadHeader))
            }
        }
    }
}

fn ended_step(line: &[u8]) -> Step
    ensures { (before after : List Row) (residents hospitals : List (List ℕ)) → IsStage Stage.Ended before → declared_residents before ≡ residents → declared_hospitals before ≡ hospitals → StepsTo before (tokens line.now) after residents hospitals result }
{
    match next_token(line) {
        None => Step::Next(Stage::Ended),
        Some(_) => Step::Refused(Flaw::Bad(ReadKind::AfterEnd)),
    }
}

fn open_step<'a>(
    alloc: Global,
    line: &'a [u8],
    is_last: bool,
    residents: &mut IndexSet<&'a [u8]>,
    hospitals: &mut IndexSet<&'a [u8]>,
) -> Result<Step, AllocError>
    ensures { IfOk result (λ step. (before after : List Row) → IsStage Stage.Open before → declared_residents before ≡ texts residents.old.keys → declared_hospitals before ≡ texts hospitals.old.keys → is_last ≡ is_none (slice_get after 0) →
        StepsTo before (tokens line.entry.now) after (texts residents.new.keys) (texts hospitals.new.keys) step) }
{
    match form_of(line) {
        None => Ok(Step::Next(Stage::Open)),
        Some(Form::Finish) => Ok(Step::Next(Stage::Ended)),
        Some(Form::Other) => Ok(Step::Refused(Flaw::Bad(ReadKind::BadLine))),
        Some(Form::Resident { name, items }) => {
            let flaw = resident_flaw(alloc, name, items, residents)?;
            Ok(step_by(flaw, is_last))
        }
        Some(
            Form::Hospital {
                name,
                capacity,
                items,
            },
        ) => {
            let flaw = hospital_flaw(alloc, name, capacity, items, hospitals)?;
            Ok(step_by(flaw, is_last))
        }
    }
}

/// What the line does, after the lines before it.
pub fn line_step<'a>(
    alloc: Global,
    stage: Stage,
    line: &'a [u8],
    is_last: bool,
    residents: &mut IndexSet<&'a [u8]>,
    hospitals: &mut IndexSet<&'a [u8]>,
) -> Result<Step, AllocError>
    ensures { IfOk result (λ step. (before after : List Row) → IsStage stage before → declared_residents before ≡ texts residents.old.keys → declared_hospitals before ≡ texts hospitals.old.keys → is_last ≡ is_none (slice_get after 0) →
        StepsTo before (tokens line.entry.now) after (texts residents.new.keys) (texts hospitals.new.keys) step) }
{
    match stage {
        Stage::Start => Ok(start_step(line)),
        Stage::Open => open_step(alloc, line, is_last, residents, hospitals),
        Stage::Ended => Ok(ended_step(line)),
    }
}
