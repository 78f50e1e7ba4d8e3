// The candidate of a full engine, as a list of pairs.
ghost use Rattle.std.specs.Prelude.{◌≡◌, IfOk};
ghost use Rattle.std.specs.List.{All};
ghost use Rattle.std.specs.List.Sorted.{IsStrictlyIncreasing};
ghost use Rattle.rank_tables.specs.Tables.{IsPairNo, numbers_of};
ghost use Rattle.lazy_stability.specs.Candidates.{candidate};

use crate::table::is_taken;
use hrt_base::{NoMemory, PairNo};
use pb_propagate::Engine;
use rank_tables::Instance;
use std::alloc::Global;

/// The pairs of the true variables, rising.
pub fn candidate_pairs(
    alloc: Global,
    inst: &Instance,
    engine: &Engine,
) -> Result<Vec<PairNo>, NoMemory>
    ensures pairs { IfOk result (λ pairs. numbers_of pairs.items ≡ candidate inst.now engine.now) }
    ensures rising { IfOk result (λ pairs. IsStrictlyIncreasing (numbers_of pairs.items)) }
    ensures numbers { IfOk result (λ pairs. All (λ p. IsPairNo inst.now p.0) pairs.items) }
{
    let mut pairs = Vec::new(alloc);
    for var in 1..inst.pairs() + 1 {
        if !is_taken(engine, PairNo(var)) {
            continue;
        }
        pairs.push(PairNo(var))?;
    }
    Ok(pairs)
}
