// A row's line.
ghost use Rattle.std.specs.Prelude.{◌≡◌, ◌≤◌, ◌^◌, ℕ, Bool, Some, option_map, IfErr, IfOk, OnOk};
ghost use Rattle.pb_rows.specs.Normal.{all_sizes};
ghost use Rattle.pb_rows.specs.Rows.{in_normal_form};
ghost use Rattle.row_text.specs.Rows.{read_row};
ghost use Rattle.row_text.specs.Tokens.{tokens};
ghost use Rattle.opb_text.specs.Refusal.{IsRefusedBy, row_refusal, statement_refusal};
ghost use Rattle.opb_text.specs.Statements.{constraint};

use crate::OpbRefusal;
use pb_rows::{Row, RowRefusal};
use row_text::{Reading, Written, read_row};
use std::alloc::Global;

/// The row that line `number` spells, unless one of its numbers passes 2^120.
pub fn written_row(alloc: Global, line: &[u8], number: u32) -> Result<Written, OpbRefusal>
    ensures spelled { IfOk result (λ row. read_row (tokens line.now) ≡ Some row) }
    ensures refused { IfErr result (λ e. (begun : Bool) → (rows : ℕ) → IsRefusedBy (statement_refusal number begun rows (option_map constraint (read_row (tokens line.now)))) e) }
{
    match read_row(alloc, line)? {
        Reading::Value(row) => Ok(row),
        Reading::TooBig => Err(OpbRefusal::TooBig(number)),
        Reading::Unspelled => Err(OpbRefusal::Syntax(number)),
    }
}

/// The row of line `number` in normal form, where the sizes of its numbers are within their limit.
pub fn normal_row(alloc: Global, written: &Written, number: u32) -> Result<Row, OpbRefusal>
    ensures is { IfOk result (λ row. row ≡ in_normal_form written.now) }
    ensures fits { OnOk result (all_sizes written.now.terms written.now.at_least ≤ 2 ^ 120) }
    ensures refused { IfErr result (λ e. (rows : ℕ) → IsRefusedBy (row_refusal number rows written.now) e) }
{
    match Row::from_terms(alloc, &written.terms, written.at_least) {
        Ok(row) => Ok(row),
        Err(RowRefusal::TooBig) => Err(OpbRefusal::TooBig(number)),
        Err(RowRefusal::NoMemory) => Err(OpbRefusal::NoMemory),
    }
}
