// The lines of the canonical spelling, in memory.
ghost use Rattle.std.specs.Prelude.{◌≡◌, ◌++◌, decimal, map, IfOk, OnOk};
ghost use Rattle.pb_rows.specs.Terms.{IsPositive};
ghost use Rattle.opb_text.specs.Spelling.{header_line, objective_line, row_line, without_opposite, written_with};

use hrt_base::{Lit, NoMemory, Term};
use itoa::Buffer;
use pb_rows::Row;
use row_text::{push_row, push_terms};
use std::alloc::Global;

// Appends a word and a number.
fn push_count(text: &mut Vec<u8>, word: &[u8], number: u32) -> Result<(), NoMemory>
    ensures { OnOk result (text.new.items ≡ text.old.items ++ (word.now ++ decimal number)) }
{
    let mut buffer = Buffer::new();
    text.extend_from_slice(word)?;
    text.extend_from_slice(buffer.format(number).as_bytes())?;
    Ok(())
}

/// The line that counts variables and rows.
pub fn header_line(alloc: Global, vars: u32, rows: u32) -> Result<Vec<u8>, NoMemory>
    ensures { IfOk result (λ text. text.items ≡ header_line vars rows) }
{
    let mut text = Vec::new(alloc);
    push_count(&mut text, b"* #variable= ", vars)?;
    push_count(&mut text, b" #constraint= ", rows)?;
    text.push(b'\n')?;
    Ok(text)
}

/// The line of the objective.
pub fn objective_line(alloc: Global, terms: &[Term]) -> Result<Vec<u8>, NoMemory>
    ensures { IfOk result (λ text. text.items ≡ objective_line terms.now) }
{
    let mut text = Vec::new(alloc);
    text.extend_from_slice(b"min: ")?;
    push_terms(terms, &mut text)?;
    text.extend_from_slice(b";\n")?;
    Ok(text)
}

// A term without its opposite: of `c ~x`, which is `c - c x`, the part over x.
fn without_opposite(term: Term) -> Term
    requires { IsPositive term.coef }
    ensures { result ≡ without_opposite term }
{
    if term.lit.neg {
        Term {
            coef: -term.coef,
            lit: Lit {
                var: term.lit.var,
                neg: false,
            },
        }
    } else {
        term
    }
}

// The terms of a row without opposites.
fn terms_without_opposites(alloc: Global, row: &Row) -> Result<Vec<Term>, NoMemory>
    ensures { IfOk result (λ terms. terms.items ≡ map without_opposite row.now.terms) }
{
    let mut terms = Vec::new(alloc);
    for term in row.terms() {
        terms.push(without_opposite(*term))?;
    }
    Ok(terms)
}

/// The line of a row in normal form, written without opposites and with this right side.
pub fn row_line(alloc: Global, row: &Row, at_least: i128) -> Result<Vec<u8>, NoMemory>
    ensures { IfOk result (λ text. text.items ≡ row_line (written_with at_least row.now)) }
{
    let terms = terms_without_opposites(alloc, row)?;
    let mut text = Vec::new(alloc);
    push_row(&terms, at_least, &mut text)?;
    text.push(b'\n')?;
    Ok(text)
}
