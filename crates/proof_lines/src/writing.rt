// Lines as text.

ghost use Rattle.std.specs.Prelude.{◌≡◌, ◌≤◌, ℕ, true, List, length, Some, ◌++◌, ◌∷◌, [], OnOk, OnErr, decimal, flat_map, map, codes};
ghost use Rattle.std.specs.Fmt.{signed_decimal};
ghost use Rattle.proof_lines.specs.Spelling.{is_small_line, most_bytes, read_line};
ghost use Rattle.proof_lines.specs.Texts.{bound_text, claim_words, id_text, line_text, spelling, step_words, variable_text};
ghost use Rattle.row_text.specs.Readings.{StaysInFront};
ghost use Rattle.row_text.specs.Rows.{literal_text, row_words};
ghost use Rattle.row_text.specs.Tokens.{spaced};

use crate::{Claim, Line, PolStep};
use hrt_base::{Lit, NoMemory, RowNo};
use itoa::Buffer;
use row_text::{Written, push_literal, push_number, push_row};

/// Appends a space and a number that has no sign.
#[tactic(auto, using(row_text::proofs::Appended::stays_longer))]
pub fn push_decimal(n: u64, out: &mut Vec<u8>) -> Result<(), NoMemory>
    ensures ok { OnOk result (out.new.items ≡ out.old.items ++ spaced (decimal n ∷ [])) }
    ensures err { OnErr result (StaysInFront out.old.items out.new.items) }
{
    out.push(b' ')?;
    let mut buffer = Buffer::new();
    out.extend_from_slice(buffer.format(n).as_bytes())?;
    Ok(())
}

/// Appends a space and a variable.
#[tactic(auto, using(row_text::proofs::Appended::stays_longer))]
pub fn push_variable(var: u32, out: &mut Vec<u8>) -> Result<(), NoMemory>
    ensures ok { OnOk result (out.new.items ≡ out.old.items ++ spaced (variable_text var ∷ [])) }
    ensures err { OnErr result (StaysInFront out.old.items out.new.items) }
{
    out.extend_from_slice(b" x")?;
    let mut buffer = Buffer::new();
    out.extend_from_slice(buffer.format(var).as_bytes())?;
    Ok(())
}

/// Appends a space and a literal.
#[tactic(auto, using(row_text::proofs::Appended::stays_longer))]
pub fn push_spaced_literal(lit: Lit, out: &mut Vec<u8>) -> Result<(), NoMemory>
    ensures ok { OnOk result (out.new.items ≡ out.old.items ++ spaced (literal_text lit ∷ [])) }
    ensures err { OnErr result (StaysInFront out.old.items out.new.items) }
{
    out.push(b' ')?;
    push_literal(lit, out)?;
    Ok(())
}

// Appends a space, a number and a text.
#[tactic(auto, using(row_text::proofs::Appended::stays_longer))]
fn push_number_and(n: i128, text: &[u8], out: &mut Vec<u8>) -> Result<(), NoMemory>
    ensures ok { OnOk result (out.new.items ≡ out.old.items ++ 32 ∷ (signed_decimal n ++ text.now)) }
    ensures err { OnErr result (StaysInFront out.old.items out.new.items) }
{
    out.push(b' ')?;
    push_number(n, out)?;
    out.extend_from_slice(text)?;
    Ok(())
}

// Appends a step.
#[tactic(auto, using(row_text::proofs::Appended::stays_longer))]
fn push_step(step: PolStep, out: &mut Vec<u8>) -> Result<(), NoMemory>
    ensures ok { OnOk result (out.new.items ≡ out.old.items ++ spaced (step_words step)) }
    ensures err { OnErr result (StaysInFront out.old.items out.new.items) }
{
    match step {
        PolStep::Id(RowNo(id)) => push_decimal(id, out),
        PolStep::Axiom(lit) => push_spaced_literal(lit, out),
        PolStep::Add => push_text(b" +", out),
        PolStep::Times(factor) => push_number_and(factor, b" *", out),
        PolStep::Divide(factor) => push_number_and(factor, b" d", out),
        PolStep::Saturate => push_text(b" s", out),
        PolStep::Weaken(var) => {
            push_variable(var, out)?;
            push_text(b" w", out)
        }
    }
}

/// Appends a text.
pub fn push_text(text: &[u8], out: &mut Vec<u8>) -> Result<(), NoMemory>
    ensures ok { OnOk result (out.new.items ≡ out.old.items ++ text.now) }
    ensures err { OnErr result (StaysInFront out.old.items out.new.items) }
{
    out.extend_from_slice(text)?;
    Ok(())
}

#[tactic(auto, using(row_text::proofs::Appended::stays_longer))]
fn push_steps(steps: &[PolStep], out: &mut Vec<u8>) -> Result<(), NoMemory>
    ensures ok { OnOk result (out.new.items ≡ out.old.items ++ spaced (flat_map step_words steps.now)) }
    ensures err { OnErr result (StaysInFront out.old.items out.new.items) }
{
    for step in steps {
        push_step(*step, out)?;
    }
    Ok(())
}

/// Appends literals, with a space before each.
#[tactic(auto, using(row_text::proofs::Appended::stays_longer))]
pub fn push_literals(lits: &[Lit], out: &mut Vec<u8>) -> Result<(), NoMemory>
    ensures ok { OnOk result (out.new.items ≡ out.old.items ++ spaced (map literal_text lits.now)) }
    ensures err { OnErr result (StaysInFront out.old.items out.new.items) }
{
    for lit in lits {
        push_spaced_literal(*lit, out)?;
    }
    Ok(())
}

/// Appends row numbers, with a space before each.
#[tactic(auto, using(row_text::proofs::Appended::stays_longer))]
pub fn push_ids(ids: &[RowNo], out: &mut Vec<u8>) -> Result<(), NoMemory>
    ensures ok { OnOk result (out.new.items ≡ out.old.items ++ spaced (map id_text ids.now)) }
    ensures err { OnErr result (StaysInFront out.old.items out.new.items) }
{
    for id in ids {
        push_decimal(id.0, out)?;
    }
    Ok(())
}

// Appends a space and a bound, or the word that stands for none.
#[tactic(auto, using(row_text::proofs::Appended::stays_longer))]
fn push_bound(word: &[u8], bound: Option<i128>, out: &mut Vec<u8>) -> Result<(), NoMemory>
    ensures ok { OnOk result (out.new.items ≡ out.old.items ++ 32 ∷ bound_text word.now bound) }
    ensures err { OnErr result (StaysInFront out.old.items out.new.items) }
{
    match bound {
        Some(bound) => push_number_and(bound, b"", out),
        None => {
            out.push(b' ')?;
            push_text(word, out)
        }
    }
}

#[tactic(auto, using(row_text::proofs::Appended::stays_longer))]
fn push_claim(claim: Claim, out: &mut Vec<u8>) -> Result<(), NoMemory>
    ensures ok { OnOk result (out.new.items ≡ out.old.items ++ spaced (claim_words claim)) }
    ensures err { OnErr result (StaysInFront out.old.items out.new.items) }
{
    match claim {
        Claim::Bounds { lower, upper } => {
            out.extend_from_slice(b" BOUNDS")?;
            push_bound(b"-INF", lower, out)?;
            push_bound(b"INF", upper, out)
        }
        Claim::Unsat => push_text(b" UNSAT", out),
        Claim::Nothing => push_text(b" NONE", out),
    }
}

// Appends a space and a row.
#[tactic(auto, using(row_text::proofs::Appended::stays_longer))]
fn push_spaced_row(row: &Written, out: &mut Vec<u8>) -> Result<(), NoMemory>
    ensures ok { OnOk result (out.new.items ≡ out.old.items ++ spaced (row_words row.now)) }
    ensures err { OnErr result (StaysInFront out.old.items out.new.items) }
{
    out.push(b' ')?;
    push_row(row.terms.as_slice(), row.at_least, out)?;
    Ok(())
}

// Appends a line without its line feed.
#[tactic(auto, using(row_text::proofs::Appended::stays_longer))]
fn push_spelling(line: &Line, out: &mut Vec<u8>) -> Result<(), NoMemory>
    ensures ok { OnOk result (out.new.items ≡ out.old.items ++ spelling line.now) }
    ensures err { OnErr result (StaysInFront out.old.items out.new.items) }
{
    match line {
        Line::Header => push_text(b"pseudo-Boolean proof version 2.0", out),
        Line::Count(count) => {
            out.push(b'f')?;
            push_decimal(*count, out)
        }
        Line::Pol(steps) => {
            out.extend_from_slice(b"pol")?;
            push_steps(steps.as_slice(), out)
        }
        Line::Rup(row) => {
            out.extend_from_slice(b"rup")?;
            push_spaced_row(row, out)
        }
        Line::Soli(lits) => {
            out.extend_from_slice(b"soli")?;
            push_literals(lits.as_slice(), out)
        }
        Line::Del(ids) => {
            out.extend_from_slice(b"del id")?;
            push_ids(ids.as_slice(), out)
        }
        Line::Output => push_text(b"output NONE", out),
        Line::Conclusion(claim) => {
            out.extend_from_slice(b"conclusion")?;
            push_claim(*claim, out)
        }
        Line::End => push_text(b"end pseudo-Boolean proof", out),
        Line::Comment => push_text(b"*", out),
        Line::Blank => Ok(()),
    }
}

/// Appends a line with its line feed, or a front of them.
#[tactic(auto, using(row_text::proofs::Appended::stays_longer))]
fn push_in_pieces(line: &Line, out: &mut Vec<u8>) -> Result<(), NoMemory>
    requires spelled { (text : List ℕ) × (read_line text ≡ Some line.now) }
    requires small { is_small_line line.now ≡ true }
    ensures ok { OnOk result (out.new.items ≡ out.old.items ++ line_text line.now) }
    ensures err { OnErr result (StaysInFront out.old.items out.new.items) }
{
    push_spelling(line, out)?;
    out.push(b'\n')?;
    Ok(())
}

/// Appends a line with its line feed. It has to be a line that a text spells. What is written reads as the line where it has
/// at most 16,777,216 bytes, its line feed among them.
#[tactic(auto, using(crate::proofs::CutBack::cut_back, crate::proofs::Spelled::spelled_line_back))]
pub fn push_line(line: &Line, out: &mut Vec<u8>) -> Result<(), NoMemory>
    requires spelled { (text : List ℕ) × (read_line text ≡ Some line.now) }
    requires small { is_small_line line.now ≡ true }
    ensures ok { OnOk result (out.new.items ≡ out.old.items ++ line_text line.now) }
    ensures err { OnErr result (out.new.items ≡ out.old.items) }
    ensures read_back { length (line_text line.now) ≤ most_bytes → read_line (spelling line.now) ≡ Some line.now }
{
    let length = out.len();
    if push_in_pieces(line, out).is_err() {
        out.truncate(length);
        return Err(NoMemory);
    }
    Ok(())
}
