// Terms and rows.

ghost use Rattle.std.specs.Prelude.{◌≡◌, is_some, IfOk};
ghost use Rattle.row_text.specs.Numbers.{is_small};
ghost use Rattle.row_text.specs.Readings.{reading};
ghost use Rattle.row_text.specs.Rows.{is_small_row, is_small_term, read_right, read_row, read_term};
ghost use Rattle.row_text.specs.Tokens.{tokens};

use crate::{Reading, Written, next_token, read_literal, read_number};
use hrt_base::{NoMemory, Term};
use std::alloc::Global;

/// The term that a number and a literal spell.
pub fn read_term(number: &[u8], literal: &[u8]) -> Reading<Term>
    ensures { result ≡ reading is_small_term (read_term number.now literal.now) }
{
    let Some(lit) = read_literal(literal) else {
        return Reading::Unspelled;
    };
    match read_number(number) {
        Reading::Value(coef) => Reading::Value(Term { coef, lit }),
        Reading::TooBig => Reading::TooBig,
        Reading::Unspelled => Reading::Unspelled,
    }
}

/// The number behind `>=`, where `;` alone follows it.
fn read_right(number: &[u8], rest: &[u8]) -> Reading<i128>
    ensures { result ≡ reading is_small (read_right number.now (tokens rest.now)) }
{
    match next_token(rest) {
        Some((last, after)) => {
            if last != b";".as_slice() || next_token(after).is_some() {
                return Reading::Unspelled;
            }
            read_number(number)
        }
        None => Reading::Unspelled,
    }
}

// Whether a row is spelled, whatever its numbers.
fn is_row(line: &[u8]) -> bool
    ensures { result ≡ is_some (read_row (tokens line.now)) }
{
    let mut rest = line;
    while let Some((first, behind)) = next_token(rest) {
        let Some((second, after)) = next_token(behind) else {
            return false;
        };
        if first == b">=".as_slice() {
            return read_right(second, after).is_spelled();
        }
        if !read_term(first, second).is_spelled() {
            return false;
        }
        rest = after;
    }
    false
}

/// The row that the line spells: terms, `>=`, a number and `;`. It is too big where the size of a number passes 2^120.
pub fn read_row(alloc: Global, line: &[u8]) -> Result<Reading<Written>, NoMemory>
    ensures { IfOk result (λ row. row ≡ reading is_small_row (read_row (tokens line.now))) }
{
    let mut terms = Vec::new(alloc);
    let mut rest = line;
    while let Some((first, behind)) = next_token(rest) {
        let Some((second, after)) = next_token(behind) else {
            return Ok(Reading::Unspelled);
        };
        if first == b">=".as_slice() {
            return Ok(match read_right(second, after) {
                Reading::Value(at_least) => Reading::Value(Written { terms, at_least }),
                Reading::TooBig => Reading::TooBig,
                Reading::Unspelled => Reading::Unspelled,
            });
        }
        match read_term(first, second) {
            Reading::Value(term) => terms.push(term)?,
            Reading::TooBig => {
                return Ok(if is_row(after) {
                    Reading::TooBig
                } else {
                    Reading::Unspelled
                });
            }
            Reading::Unspelled => return Ok(Reading::Unspelled),
        }
        rest = after;
    }
    Ok(Reading::Unspelled)
}
