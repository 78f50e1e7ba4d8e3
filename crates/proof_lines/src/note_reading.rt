// Notes, read.

ghost use Rattle.std.specs.Prelude.{◌≡◌, [], IfOk, MatchOption, None, Some};
ghost use Rattle.proof_lines.specs.Notes.{learn_from, note_of, read_front, read_kind, read_learn, read_load, read_note_tokens, read_one_literal, read_one_row, without_feed};
ghost use Rattle.row_text.specs.Numbers.{read_literal, read_variable};
ghost use Rattle.row_text.specs.Tokens.{tokens};

use crate::first::MOST_BYTES;
use crate::items::{read_ids, read_row_no};
use crate::{Lits, Note, Vars};
use hrt_base::{Lit, NoMemory, RowNo};
use hrt_text::without_return;
use row_text::{next_token, read_literal, read_variable};
use std::alloc::Global;

// Puts the variables before the first `:` into the list, and answers what follows it.
fn read_variables<'a>(line: &'a [u8], vars: &mut Vars) -> Result<Option<&'a [u8]>, NoMemory>
    requires { vars.old ≡ [] }
    ensures { IfOk result (λ rest. MatchOption rest
        (read_front read_variable (tokens line.now) ≡ None)
        (λ r. read_front read_variable (tokens line.now) ≡ Some (record { items = vars.new; behind = tokens r.now }))) }
{
    let mut rest = line;
    while let Some((token, after)) = next_token(rest) {
        if token == b":".as_slice() {
            return Ok(Some(after));
        }
        let Some(var) = read_variable(token) else {
            return Ok(None);
        };
        vars.push(var)?;
        rest = after;
    }
    Ok(None)
}

// Puts the literals before the first `:` into the list, and answers what follows it.
fn read_decisions<'a>(line: &'a [u8], lits: &mut Lits) -> Result<Option<&'a [u8]>, NoMemory>
    requires { lits.old ≡ [] }
    ensures { IfOk result (λ rest. MatchOption rest
        (read_front read_literal (tokens line.now) ≡ None)
        (λ r. read_front read_literal (tokens line.now) ≡ Some (record { items = lits.new; behind = tokens r.now }))) }
{
    let mut rest = line;
    while let Some((token, after)) = next_token(rest) {
        if token == b":".as_slice() {
            return Ok(Some(after));
        }
        let Some(lit) = read_literal(token) else {
            return Ok(None);
        };
        lits.push(lit)?;
        rest = after;
    }
    Ok(None)
}

fn read_one_row(line: &[u8]) -> Option<RowNo>
    ensures { result ≡ read_one_row (tokens line.now) }
{
    let (token, rest) = next_token(line)?;
    match next_token(rest) {
        None => read_row_no(token),
        Some(_) => None,
    }
}

fn read_one_literal(line: &[u8]) -> Option<Lit>
    ensures { result ≡ read_one_literal (tokens line.now) }
{
    let (token, rest) = next_token(line)?;
    match next_token(rest) {
        None => read_literal(token),
        Some(_) => None,
    }
}

// What follows `load`.
fn read_load(alloc: Global, line: &[u8]) -> Result<Option<Note>, NoMemory>
    ensures { IfOk result (λ note. note ≡ read_load (tokens line.now)) }
{
    let mut trues = Vars::new(alloc);
    let Some(rest) = read_variables(line, &mut trues)? else {
        return Ok(None);
    };
    match read_ids(alloc, rest)? {
        Some(rows) => Ok(Some(Note::Load { trues, rows })),
        None => Ok(None),
    }
}

// What follows `learn` and the number of the row.
fn read_learned(alloc: Global, row: RowNo, line: &[u8]) -> Result<Option<Note>, NoMemory>
    ensures { IfOk result (λ note. note ≡ learn_from (Some row) (tokens line.now)) }
{
    let mut decisions = Lits::new(alloc);
    let Some(rest) = read_decisions(line, &mut decisions)? else {
        return Ok(None);
    };
    match read_one_literal(rest) {
        Some(asserts) => Ok(Some(Note::Learn {
            row,
            decisions,
            asserts,
        })),
        None => Ok(None),
    }
}

// What follows `learn`.
fn read_learn(alloc: Global, line: &[u8]) -> Result<Option<Note>, NoMemory>
    ensures { IfOk result (λ note. note ≡ read_learn (tokens line.now)) }
{
    let Some((id, rest)) = next_token(line) else {
        return Ok(None);
    };
    let Some((colon, rest)) = next_token(rest) else {
        return Ok(None);
    };
    if colon != b":".as_slice() {
        return Ok(None);
    }
    match read_row_no(id) {
        Some(row) => read_learned(alloc, row, rest),
        None => Ok(None),
    }
}

// A note of this kind, from what follows.
fn read_kind(alloc: Global, kind: &[u8], line: &[u8]) -> Result<Option<Note>, NoMemory>
    ensures { IfOk result (λ note. note ≡ read_kind kind.now (tokens line.now)) }
{
    if kind == b"unit".as_slice() {
        return Ok(read_one_row(line).map(Note::Unit));
    }
    if kind == b"bound".as_slice() {
        return Ok(read_one_row(line).map(Note::Bound));
    }
    if kind == b"load".as_slice() {
        return read_load(alloc, line);
    }
    if kind == b"learn".as_slice() {
        return read_learn(alloc, line);
    }
    if kind == b"drop".as_slice() {
        return Ok(read_one_row(line).map(Note::Drop));
    }
    Ok(None)
}

fn read_note_tokens(alloc: Global, text: &[u8]) -> Result<Option<Note>, NoMemory>
    ensures { IfOk result (λ note. note ≡ read_note_tokens (tokens text.now)) }
{
    let Some((star, rest)) = next_token(text) else {
        return Ok(None);
    };
    let Some((word, rest)) = next_token(rest) else {
        return Ok(None);
    };
    let Some((kind, rest)) = next_token(rest) else {
        return Ok(None);
    };
    if star == b"*".as_slice() && word == b"note".as_slice() {
        return read_kind(alloc, kind, rest);
    }
    Ok(None)
}

// A line without the line feed at its end.
fn without_feed(line: &[u8]) -> &[u8]
    ensures { result.now ≡ without_feed line.now }
{
    let len = line.len();
    if len > 0 && line[len - 1] == b'\n' {
        &line[..len - 1]
    } else {
        line
    }
}

/// What a line, with its line feed or without, says as a note; `None` where it is no note.
pub fn read_note(alloc: Global, bytes: &[u8]) -> Result<Option<Note>, NoMemory>
    ensures { IfOk result (λ note. note ≡ note_of bytes.now) }
{
    let text = without_feed(bytes);
    if text.len() >= MOST_BYTES {
        return Ok(None);
    }
    read_note_tokens(alloc, without_return(text))
}
