// The search through all sets.
ghost use Rattle.std.specs.Prelude.{◌≡◌, ◌≤◌, IfOk};
ghost use Rattle.std.specs.List.Sorted.{IsStrictlyIncreasing};
ghost use Rattle.rank_tables.specs.Instance.{pair_count};
ghost use Rattle.rank_tables.specs.Stability.{Best};
ghost use Rattle.rank_tables.specs.Tables.{numbers_of};
ghost use Rattle.plain_enumeration.specs.Sets.{most_pairs_tried};

use crate::members::list_members;
use hrt_base::{NoMemory, PairNo};
use rank_tables::Instance;
use stability_audit::{Auditor, Verdict};
use std::alloc::Global;
use std::mem;

/// A largest weakly stable matching, its pairs rising. Of n pairs it audits up to 2^n lists.
pub fn largest_stable(alloc: Global, inst: &Instance) -> Result<Vec<PairNo>, NoMemory>
    requires { pair_count inst.now ≤ most_pairs_tried }
    ensures best { IfOk result (λ best. Best inst.now (numbers_of best.items)) }
    ensures rising { IfOk result (λ best. IsStrictlyIncreasing (numbers_of best.items)) }
{
    let count = inst.pairs();
    let mut auditor = Auditor::new(alloc, inst)?;
    let mut list = Vec::new(alloc);
    // Every instance has a stable list. Where none of one pair or more is stable, the empty one is.
    let mut best = Vec::new(alloc);
    for set in 0..1u32 << count {
        list_members(set, count, &mut list)?;
        if list.len() > best.len() && auditor.audit(inst, &list) == Verdict::Stable {
            mem::swap(&mut best, &mut list);
        }
    }
    Ok(best)
}
