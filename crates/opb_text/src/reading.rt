// Reading a formula.
ghost use Rattle.std.specs.Prelude.{◌≡◌, ◌≤◌, ◌==◌, None, Some, count_by, IfErr, IfOk};
ghost use Rattle.opb_text.specs.declared.refusal.OpbRefusal.{OpbRefusal as refusal_kind};
ghost use Rattle.opb_text.specs.Limits.{IsWithinLimits};
ghost use Rattle.opb_text.specs.Refusal.{IsRefusedBy, Spells, refusal};

use crate::draft::Draft;
use crate::{Formula, OpbRefusal};
use hrt_text::next_line;
use std::alloc::Global;

/// Reads a formula in any spelling. The text has few enough line feeds for each line's number to fit. It takes time linear in
/// the bytes, but for a sort of each row.
pub fn read_opb(alloc: Global, bytes: &[u8]) -> Result<Formula, OpbRefusal>
    requires { count_by (λ b. b == 10) bytes.now ≤ 4294967294 }
    ensures spells { IfOk result (Spells bytes.now) }
    ensures within { IfOk result IsWithinLimits }
    ensures refused { IfErr result (IsRefusedBy (refusal bytes.now)) }
    ensures accepts { refusal bytes.now ≡ None → IfErr result (λ e. e ≡ OpbRefusal.NoMemory) }
    ensures refuses { (r : refusal_kind) → refusal bytes.now ≡ Some r → IfOk result (λ f. ⊥) }
{
    let mut draft = Draft::new(alloc);
    let mut number: u32 = 0;
    let mut rest = bytes;
    while let Some((line, after)) = next_line(rest) {
        number += 1;
        draft.add_line(alloc, line, number)?;
        rest = after;
    }
    Ok(draft.into_formula())
}
