//! The first pass over a text: what it declares, and its least kind other than an unknown name.

ghost use Rattle.std.specs.Prelude.{◌≡◌, ◌<◌, ◌^◌, None, length, IfOk, IfErr};
ghost use Rattle.hrt_text.specs.Text.{rows};
ghost use Rattle.hrt_reader.specs.Refusal.{declared_hospitals, refusal_but_6, declared_residents};
ghost use Rattle.hrt_reader.specs.Survey.{IsRefusedBy};
ghost use Rattle.hrt_text.specs.Views.{texts};

use crate::refusals::{ReadKind, ReadRefusal, refused};
use crate::stages::{Stage, Step, line_step};
use hrt_text::next_line;
use indexmap::IndexSet;
use std::alloc::Global;

/// The names of both sides, in the order of declaration.
#[derive(Drop)]
pub struct Names<'a> {
    pub residents: IndexSet<&'a [u8]>,
    pub hospitals: IndexSet<&'a [u8]>,
}

/// What the text declares, if no line has a kind other than an unknown name.
pub fn survey<'a>(alloc: Global, text: &'a [u8]) -> Result<Names<'a>, ReadRefusal>
    requires { length (rows text.now) < 2 ^ 32 }
    ensures accepted { IfOk result (λ names. refusal_but_6 (rows text.entry.now) ≡ None) }
    ensures residents { IfOk result (λ names. texts names.residents.keys ≡ declared_residents (rows text.entry.now)) }
    ensures hospitals { IfOk result (λ names. texts names.hospitals.keys ≡ declared_hospitals (rows text.entry.now)) }
    ensures refused { IfErr result (IsRefusedBy (refusal_but_6 (rows text.entry.now))) }
{
    let mut residents = IndexSet::new(alloc);
    let mut hospitals = IndexSet::new(alloc);
    let mut stage = Stage::Start;
    let mut number: u32 = 0;
    let mut rest = text;
    while let Some((line, after)) = next_line(rest) {
        number += 1;
        let done = line_step(
            alloc,
            stage,
            line,
            after.is_empty(),
            &mut residents,
            &mut hospitals,
        )?;
        match done {
            Step::Next(next) => stage = next,
            Step::Refused(flaw) => return Err(refused(flaw, number)),
        }
        rest = after;
    }
    match stage {
        Stage::Start => Err(ReadRefusal::Bad {
            kind: ReadKind::BadHeader,
            line: 1,
        }),
        Stage::Open => Err(ReadRefusal::Bad {
            kind: ReadKind::NoEnd,
            line: number,
        }),
        Stage::Ended => Ok(Names {
            residents,
            hospitals,
        }),
    }
}
