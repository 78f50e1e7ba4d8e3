// Lists of literals and of row numbers.

ghost use Rattle.std.specs.Prelude.{◌≡◌, IfOk};
ghost use Rattle.proof_lines.specs.Spelling.{one_or_more, read_row_no};
ghost use Rattle.row_text.specs.Numbers.{read_each, read_literal};
ghost use Rattle.row_text.specs.Tokens.{tokens};

use crate::{Ids, Lits};
use hrt_base::{NoMemory, RowNo};
use row_text::{next_token, read_id, read_literal};
use std::alloc::Global;

/// The number of a row that is spelled.
pub fn read_row_no(token: &[u8]) -> Option<RowNo>
    ensures { result ≡ read_row_no token.now }
{
    let id = read_id(token)?;
    Some(RowNo(id))
}

/// The literals that the line spells, if each token is one.
pub fn read_literals(alloc: Global, line: &[u8]) -> Result<Option<Lits>, NoMemory>
    ensures { IfOk result (λ lits. lits ≡ read_each read_literal (tokens line.now)) }
{
    let mut lits = Lits::new(alloc);
    let mut rest = line;
    while let Some((token, after)) = next_token(rest) {
        let Some(lit) = read_literal(token) else {
            return Ok(None);
        };
        lits.push(lit)?;
        rest = after;
    }
    Ok(Some(lits))
}

/// The row numbers that the line spells, one or more, if each token is one.
pub fn read_ids(alloc: Global, line: &[u8]) -> Result<Option<Ids>, NoMemory>
    ensures { IfOk result (λ ids. ids ≡ one_or_more (read_each read_row_no (tokens line.now))) }
{
    let mut ids = Ids::new(alloc);
    let mut rest = line;
    while let Some((token, after)) = next_token(rest) {
        let Some(id) = read_row_no(token) else {
            return Ok(None);
        };
        ids.push(id)?;
        rest = after;
    }
    if ids.as_slice().is_empty() {
        return Ok(None);
    }
    Ok(Some(ids))
}
