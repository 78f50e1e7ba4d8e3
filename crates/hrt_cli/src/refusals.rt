// Reports on inputs that are refused.
ghost use Rattle.std.specs.Prelude.{◌≡◌, ◌++◌, codes, IfOk};
ghost use Rattle.hrt_reader.specs.Kinds.{number};
ghost use Rattle.hrt_reader.specs.PairsAnswer.{pairs_number};
ghost use Rattle.hrt_cli.specs.Reports.{TellsOfProof, kind_word, line, model_kind_word, pairs_kind_word, place_line, with_number};

use crate::Report;
use hrt_base::NoMemory;
use hrt_inputs::ModelKind;
use hrt_reader::{PairsKind, ReadKind};
use itoa::Buffer;
use proof_checker::ProofRefusal;
use std::alloc::Global;

/// The report on a refused instance.
pub fn instance_refusal_report(alloc: Global, kind: ReadKind, line: u32) -> Result<Report, NoMemory>
    ensures { IfOk result (λ report. report ≡ codes "instance refused line " ++ place_line line (kind_word (number kind))) }
{
    let word = instance_kind_name(kind);
    refused_line(alloc, "instance refused line ", u64::from(line), word)
}

/// The report on refused pairs.
pub fn pairs_refusal_report(alloc: Global, kind: PairsKind, line: u32) -> Result<Report, NoMemory>
    ensures { IfOk result (λ report. report ≡ codes "pairs refused line " ++ place_line line (pairs_kind_word (pairs_number kind))) }
{
    let word = pairs_kind_name(kind);
    refused_line(alloc, "pairs refused line ", u64::from(line), word)
}

/// The report on a refused model.
pub fn model_refusal_report(alloc: Global, kind: ModelKind, line: u32) -> Result<Report, NoMemory>
    ensures { IfOk result (λ report. report ≡ codes "model refused line " ++ place_line line (model_kind_word kind)) }
{
    let word = model_kind_name(kind);
    refused_line(alloc, "model refused line ", u64::from(line), word)
}

// The word for a kind of refusal of an instance.
fn instance_kind_name(kind: ReadKind) -> &'static str
    ensures { result.now ≡ kind_word (number kind) }
{
    match kind {
        ReadKind::BadHeader => "BadHeader",
        ReadKind::BadLine => "BadLine",
        ReadKind::BadName => "BadName",
        ReadKind::BadCapacity => "BadCapacity",
        ReadKind::DeclaredTwice => "DeclaredTwice",
        ReadKind::UnknownName => "UnknownName",
        ReadKind::NamedTwice => "NamedTwice",
        ReadKind::BadTie => "BadTie",
        ReadKind::NoEnd => "NoEnd",
        ReadKind::AfterEnd => "AfterEnd",
    }
}

// The word for a kind of refusal of pairs.
fn pairs_kind_name(kind: PairsKind) -> &'static str
    ensures { result.now ≡ pairs_kind_word (pairs_number kind) }
{
    match kind {
        PairsKind::BadLine => "BadLine",
        PairsKind::UnknownName => "UnknownName",
        PairsKind::NotAcceptable => "NotAcceptable",
        PairsKind::RepeatedPair => "RepeatedPair",
    }
}

// The word for a kind of refusal of a model.
fn model_kind_name(kind: ModelKind) -> &'static str
    ensures { result.now ≡ model_kind_word kind }
{
    match kind {
        ModelKind::Syntax => "Syntax",
        ModelKind::TooBig => "TooBig",
    }
}

/// The report on a refused proof. Want of memory is no refusal, and is handed on.
pub fn proof_refusal_report(alloc: Global, refusal: ProofRefusal) -> Result<Report, NoMemory>
    ensures { IfOk result (TellsOfProof refusal) }
{
    match refusal {
        ProofRefusal::Syntax(line) => refused_step(alloc, line, "Syntax"),
        ProofRefusal::TooBig(line) => refused_step(alloc, line, "TooBig"),
        ProofRefusal::BadId(line, id) => refused_for(alloc, line, "BadId", id),
        ProofRefusal::BadVariable(line, var) => refused_for(alloc, line, "BadVariable", var),
        ProofRefusal::StackShape(line) => refused_step(alloc, line, "StackShape"),
        ProofRefusal::NotFull(line) => refused_step(alloc, line, "NotFull"),
        ProofRefusal::NotASolution(line, row) => refused_for(alloc, line, "NotASolution", row),
        ProofRefusal::NotImplied(line) => refused_step(alloc, line, "NotImplied"),
        ProofRefusal::BoundNotShown(line) => refused_step(alloc, line, "BoundNotShown"),
        ProofRefusal::WrongCount(line) => refused_step(alloc, line, "WrongCount"),
        ProofRefusal::Truncated => truncated(alloc),
        ProofRefusal::NoMemory => Err(NoMemory),
    }
}

// The report that a line is refused, of this kind, behind the words that say of what.
fn refused_line(alloc: Global, words: &str, line: u64, kind: &str) -> Result<Report, NoMemory>
    ensures { IfOk result (λ report. report ≡ words.now ++ place_line line kind.now) }
{
    let mut report = Report::new(alloc);
    report.push(words.as_bytes())?;
    report.push_place(line, kind)?;
    Ok(report)
}

// The same of a line of a proof.
fn refused_step(alloc: Global, line: u64, kind: &str) -> Result<Report, NoMemory>
    ensures { IfOk result (λ report. report ≡ codes "proof refused line " ++ place_line line kind.now) }
{
    refused_line(alloc, "proof refused line ", line, kind)
}

// The same of a kind that names a number.
fn refused_for(alloc: Global, line: u64, kind: &str, number: u64) -> Result<Report, NoMemory>
    ensures { IfOk result (λ report. report ≡ codes "proof refused line " ++ place_line line (with_number kind.now number)) }
{
    let mut report = Report::new(alloc);
    let mut buffer = Buffer::new();
    report.push("proof refused line ".as_bytes())?;
    report.push(buffer.format(line).as_bytes())?;
    report.push(b" ")?;
    report.push_value(kind, buffer.format(number))?;
    Ok(report)
}

// The report on a proof that is cut short.
fn truncated(alloc: Global) -> Result<Report, NoMemory>
    ensures { IfOk result (λ report. report ≡ line (codes "proof refused Truncated")) }
{
    let mut report = Report::new(alloc);
    report.push_line("proof refused Truncated")?;
    Ok(report)
}
