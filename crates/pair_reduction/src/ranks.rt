// The ranks of some pairs of a list, rising: they answer the tests of all its pairs.
ghost use Rattle.std.specs.Prelude.{◌≡◌, ◌<◌, IfOk, length, nat_le, not};
ghost use Rattle.std.specs.List.Sorted.{IsNonDecreasing};
ghost use Rattle.rank_tables.specs.Instance.{pair_count};
ghost use Rattle.derivation.specs.Deletions.{is_deleted};
ghost use Rattle.pair_reduction.specs.Flags.{is_marked};
ghost use Rattle.pair_reduction.specs.Ranks.{AreRisingRanks, count_within};
ghost use Rattle.pair_reduction.specs.Sides.{list_count, pairs_on};

use crate::sides::{Side, pairs_on, rank_on};
use derivation::Deleted;
use hrt_base::NoMemory;
use rank_tables::Instance;
use std::alloc::Global;

/// The ranks of the marked pairs of a list.
pub(crate) fn ranks_marked(
    alloc: Global,
    inst: &Instance,
    side: Side,
    n: u32,
    marks: &[bool],
) -> Result<Vec<u32>, NoMemory>
    requires n { n < list_count side inst.now }
    requires marks { length marks.now ≡ pair_count inst.now }
    ensures { IfOk result (λ ranks. AreRisingRanks side inst.now (is_marked marks.now) (pairs_on side inst.now n) ranks.items) }
{
    let pairs = pairs_on(inst, side, n);
    let mut ranks = Vec::new(alloc);
    for p in pairs {
        if marks[p.0 as usize - 1] {
            ranks.push(rank_on(inst, side, *p))?;
        }
    }
    ranks.sort_unstable();
    Ok(ranks)
}

/// The ranks of the pairs of a list that aren't gone.
pub(crate) fn ranks_left(
    alloc: Global,
    inst: &Instance,
    side: Side,
    n: u32,
    gone: &Deleted,
) -> Result<Vec<u32>, NoMemory>
    requires { n < list_count side inst.now }
    ensures { IfOk result (λ ranks. AreRisingRanks side inst.now (λ q. not (is_deleted gone.now q)) (pairs_on side inst.now n) ranks.items) }
{
    let pairs = pairs_on(inst, side, n);
    let mut ranks = Vec::new(alloc);
    for p in pairs {
        if !gone.is_gone(*p) {
            ranks.push(rank_on(inst, side, *p))?;
        }
    }
    ranks.sort_unstable();
    Ok(ranks)
}

/// Tells whether at least k of these ranks are at most r.
pub(crate) fn are_within(ranks: &[u32], k: u32, r: u32) -> bool
    requires { IsNonDecreasing ranks.now }
    ensures { result ≡ nat_le k (count_within ranks.now r) }
{
    if k == 0 {
        return true;
    }
    if k as usize > ranks.len() {
        return false;
    }
    ranks[k as usize - 1] <= r
}
