// Pairs in the order of the ranks that their residents give them.
ghost use Rattle.std.specs.Prelude.{◌≡◌, IfOk, OnOk};
ghost use Rattle.search_guides.specs.Ranks.{AreByRank, IsRankFound, all_ranked};
ghost use Rattle.rank_tables.specs.Instance.{Lists};

use crate::scores::{is_free, least};
use hrt_base::{NoMemory, PairNo};
use pb_propagate::Engine;
use rank_tables::Instance;
use std::alloc::Global;

/// A pair's number, and the rank of its hospital by its resident.
#[derive(Clone, Copy)]
pub struct RankedPair {
    pub rank: u32,
    pub pair: u32,
}

/// The pairs of an instance by rising rank, those of one rank by rising number.
pub fn by_rank(alloc: Global, inst: &Instance) -> Result<Vec<RankedPair>, NoMemory>
    ensures { IfOk result (λ order. AreByRank inst.now order.items) }
{
    let mut order = all_ranked(alloc, inst)?;
    order.sort_by_key(|entry| entry.rank)?;
    Ok(order)
}

// The pairs of an instance with their ranks, by their numbers.
fn all_ranked(alloc: Global, inst: &Instance) -> Result<Vec<RankedPair>, NoMemory>
    ensures { IfOk result (λ order. order.items ≡ all_ranked inst.now) }
{
    let mut order = Vec::new(alloc);
    for before in 0..inst.pairs() {
        order.push(RankedPair {
            rank: inst.rank_by_resident(PairNo(before + 1)),
            pair: before + 1,
        })?;
    }
    Ok(order)
}

/// The first free pair of an order, and where none is free the least free variable.
pub fn first_free(engine: &Engine, order: &[RankedPair]) -> Option<u32>
    ensures { (lists : Lists) → AreByRank lists order.now → IsRankFound lists engine.now result }
{
    for entry in order {
        if is_free(engine, entry.pair) {
            return Some(entry.pair);
        }
    }
    least(engine)
}
