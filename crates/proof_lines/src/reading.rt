// What a line says.

ghost use Rattle.std.specs.Prelude.{◌≡◌, option_map};
ghost use Rattle.proof_lines.specs.declared.line.Line.TheVariants.{Conclusion, Count, Del, Pol, Rup, Soli};
ghost use Rattle.proof_lines.specs.FirstLine.{Answers, judged};
ghost use Rattle.proof_lines.specs.Spelling.{one_or_more, read_claim, read_count, read_del, read_steps, read_tokens, read_words};
ghost use Rattle.row_text.specs.Numbers.{read_each, read_literal};
ghost use Rattle.row_text.specs.Rows.{read_row};
ghost use Rattle.row_text.specs.Tokens.{tokens};

use crate::claims::{has_words, read_claim};
use crate::items::{read_ids, read_literals};
use crate::steps::read_steps;
use crate::{Line, LineKind, LineRefusal};
use row_text::{Reading, next_token, read_id, read_row};
use std::alloc::Global;

// What follows `f`.
fn count_line(rest: &[u8]) -> Result<Line, LineRefusal>
    ensures { result ≡ judged (option_map Count (read_count (tokens rest.now))) }
{
    let Some((token, after)) = next_token(rest) else {
        return Err(LineRefusal::Syntax);
    };
    if next_token(after).is_some() {
        return Err(LineRefusal::Syntax);
    }
    if token == b"0".as_slice() {
        return Ok(Line::Count(0));
    }
    match read_id(token) {
        Some(count) => Ok(Line::Count(count)),
        None => Err(LineRefusal::Syntax),
    }
}

// What follows `pol`.
fn pol_line(alloc: Global, rest: &[u8]) -> Result<Line, LineRefusal>
    ensures { Answers result (judged (option_map Pol (one_or_more (read_steps (tokens rest.now))))) }
{
    match read_steps(alloc, rest)? {
        Reading::Value(steps) => {
            if steps.as_slice().is_empty() {
                return Err(LineRefusal::Syntax);
            }
            Ok(Line::Pol(steps))
        }
        Reading::TooBig => Err(LineRefusal::TooBig(LineKind::Pol)),
        Reading::Unspelled => Err(LineRefusal::Syntax),
    }
}

// What follows `rup`.
fn rup_line(alloc: Global, rest: &[u8]) -> Result<Line, LineRefusal>
    ensures { Answers result (judged (option_map Rup (read_row (tokens rest.now)))) }
{
    match read_row(alloc, rest)? {
        Reading::Value(row) => Ok(Line::Rup(row)),
        Reading::TooBig => Err(LineRefusal::TooBig(LineKind::Rup)),
        Reading::Unspelled => Err(LineRefusal::Syntax),
    }
}

// What follows `soli`.
fn soli_line(alloc: Global, rest: &[u8]) -> Result<Line, LineRefusal>
    ensures { Answers result (judged (option_map Soli (read_each read_literal (tokens rest.now)))) }
{
    match read_literals(alloc, rest)? {
        Some(lits) => Ok(Line::Soli(lits)),
        None => Err(LineRefusal::Syntax),
    }
}

// What follows `del`.
fn del_line(alloc: Global, rest: &[u8]) -> Result<Line, LineRefusal>
    ensures { Answers result (judged (option_map Del (read_del (tokens rest.now)))) }
{
    let Some((token, after)) = next_token(rest) else {
        return Err(LineRefusal::Syntax);
    };
    if token != b"id".as_slice() {
        return Err(LineRefusal::Syntax);
    }
    match read_ids(alloc, after)? {
        Some(ids) => Ok(Line::Del(ids)),
        None => Err(LineRefusal::Syntax),
    }
}

// What follows `conclusion`.
fn conclusion_line(rest: &[u8]) -> Result<Line, LineRefusal>
    ensures { result ≡ judged (option_map Conclusion (read_claim (tokens rest.now))) }
{
    match read_claim(rest) {
        Reading::Value(claim) => Ok(Line::Conclusion(claim)),
        Reading::TooBig => Err(LineRefusal::TooBig(LineKind::Conclusion)),
        Reading::Unspelled => Err(LineRefusal::Syntax),
    }
}

// A line of fixed words.
fn words_line(text: &[u8]) -> Result<Line, LineRefusal>
    ensures { result ≡ judged (read_words (tokens text.now)) }
{
    if has_words(text, b"output NONE") {
        return Ok(Line::Output);
    }
    if has_words(text, b"pseudo-Boolean proof version 2.0") {
        return Ok(Line::Header);
    }
    if has_words(text, b"end pseudo-Boolean proof") {
        return Ok(Line::End);
    }
    Err(LineRefusal::Syntax)
}

/// What the line says.
pub fn read_tokens(alloc: Global, text: &[u8]) -> Result<Line, LineRefusal>
    ensures { Answers result (judged (read_tokens (tokens text.now))) }
{
    let Some((first, rest)) = next_token(text) else {
        return Ok(Line::Blank);
    };
    if first.first() == Some(&b'*') {
        return Ok(Line::Comment);
    }
    if first == b"f".as_slice() {
        return count_line(rest);
    }
    if first == b"pol".as_slice() {
        return pol_line(alloc, rest);
    }
    if first == b"rup".as_slice() {
        return rup_line(alloc, rest);
    }
    if first == b"soli".as_slice() {
        return soli_line(alloc, rest);
    }
    if first == b"del".as_slice() {
        return del_line(alloc, rest);
    }
    if first == b"conclusion".as_slice() {
        return conclusion_line(rest);
    }
    words_line(text)
}
