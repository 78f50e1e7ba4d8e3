// The matching with which the steps end.
ghost use Rattle.std.specs.Prelude.{◌≡◌, IsTrue, All, IfOk, OnOk, None, length};
ghost use Rattle.std.specs.List.Sorted.{IsStrictlyIncreasing};
ghost use Rattle.rank_tables.specs.Stability.{is_weakly_stable};
ghost use Rattle.rank_tables.specs.Tables.{IsPairNo, numbers_of};
ghost use Rattle.promotion_heuristic.specs.Promotion.{held, proposal, final, promotion};

use crate::rounds::Rounds;
use crate::standing::Standing;
use hrt_base::{NoMemory, PairNo};
use rank_tables::Instance;
use std::alloc::Global;

// The pairs that are held, rising.
fn held_pairs(
    alloc: Global,
    inst: &Instance,
    standings: &[Standing],
) -> Result<Vec<PairNo>, NoMemory>
    requires { length standings.now ≡ length inst.now.residents }
    ensures { IfOk result (λ pairs. numbers_of pairs.items ≡ held inst.now standings.now) }
{
    let mut pairs = Vec::new(alloc);
    for before in 0..inst.pairs() {
        let p = PairNo(before + 1);
        let standing = standings[inst.resident_of(p) as usize];
        if standing.assigned && standing.last == p.0 {
            pairs.push(p)?;
        }
    }
    Ok(pairs)
}

/// A weakly stable matching, its pairs rising, made by deferred acceptance with one promotion of each resident that its whole
/// list refused. A proposal takes time that grows with the logarithm of the number of the hospital's residents, and each
/// resident proposes at most twice by each of its pairs.
pub fn promote(alloc: Global, inst: &Instance) -> Result<Vec<PairNo>, NoMemory>
    ensures steps { IfOk result (λ pairs. numbers_of pairs.items ≡ promotion inst.now) }
    ensures ended { OnOk result (proposal inst.now (final inst.now) ≡ None) }
    ensures stable { IfOk result (λ pairs. IsTrue (is_weakly_stable inst.now (numbers_of pairs.items))) }
    ensures rising { IfOk result (λ pairs. IsStrictlyIncreasing (numbers_of pairs.items)) }
    ensures numbers { IfOk result (λ pairs. All (λ p. IsPairNo inst.now p.0) pairs.items) }
{
    let mut rounds = Rounds::start(alloc, inst)?;
    for r in 0..inst.residents() {
        rounds.settle(inst, r)?;
    }
    held_pairs(alloc, inst, &rounds.standings)
}
