// The objective's line.
ghost use Rattle.std.specs.Prelude.{◌≡◌, Some, None, false, is_some, option_map, IfErr, IfOk};
ghost use Rattle.row_text.specs.Tokens.{tokens};
ghost use Rattle.opb_text.specs.Refusal.{IsRefusedBy, objective_refusal, statement_refusal};
ghost use Rattle.opb_text.specs.Statements.{minimize, read_objective};

use crate::OpbRefusal;
use crate::limits::{MOST_VARIABLES, are_small, greatest_variable};
use hrt_base::Term;
use row_text::{Reading, next_token, read_term};
use std::alloc::Global;

// Whether terms and `;` are spelled, whatever their numbers.
fn is_objective(line: &[u8]) -> bool
    ensures { result ≡ is_some (read_objective (tokens line.now)) }
{
    let mut rest = line;
    while let Some((first, behind)) = next_token(rest) {
        let Some((second, after)) = next_token(behind) else {
            return first == b";".as_slice();
        };
        if !read_term(first, second).is_spelled() {
            return false;
        }
        rest = after;
    }
    false
}

// The terms that are spelled, unless one of their numbers passes 2^120.
fn spelled_terms(alloc: Global, line: &[u8], number: u32) -> Result<Vec<Term>, OpbRefusal>
    ensures spelled { IfOk result (λ terms. read_objective (tokens line.now) ≡ Some terms.items) }
    ensures refused { IfErr result (IsRefusedBy (statement_refusal number false 0 (option_map minimize (read_objective (tokens line.now))))) }
{
    let mut terms = Vec::new(alloc);
    let mut rest = line;
    while let Some((first, behind)) = next_token(rest) {
        let Some((second, after)) = next_token(behind) else {
            if first == b";".as_slice() {
                return Ok(terms);
            }
            return Err(OpbRefusal::Syntax(number));
        };
        match read_term(first, second) {
            Reading::Value(term) => terms.push(term)?,
            Reading::TooBig => {
                return Err(if is_objective(after) {
                    OpbRefusal::TooBig(number)
                } else {
                    OpbRefusal::Syntax(number)
                });
            }
            Reading::Unspelled => return Err(OpbRefusal::Syntax(number)),
        }
        rest = after;
    }
    Err(OpbRefusal::Syntax(number))
}

/// The terms behind `min:` in line `number`, where nothing was said before it.
pub fn read_objective(alloc: Global, line: &[u8], number: u32) -> Result<Vec<Term>, OpbRefusal>
    ensures spelled { IfOk result (λ terms. read_objective (tokens line.now) ≡ Some terms.items) }
    ensures fine { IfOk result (λ terms. objective_refusal number false terms.items ≡ None) }
    ensures refused { IfErr result (IsRefusedBy (statement_refusal number false 0 (option_map minimize (read_objective (tokens line.now))))) }
{
    let terms = spelled_terms(alloc, line, number)?;
    if !are_small(&terms) {
        return Err(OpbRefusal::TooBig(number));
    }
    if greatest_variable(&terms) > MOST_VARIABLES {
        return Err(OpbRefusal::TooManyVariables(number));
    }
    Ok(terms)
}
