// The candidate of a full engine.
ghost use Rattle.std.specs.Prelude.{◌≡◌, length, IfOk};
ghost use Rattle.pb_propagate.specs.Engines.{IsIdle};
ghost use Rattle.lazy_stability.specs.Table.{sizes_of};
ghost use Rattle.pb_search.specs.Knowing.{Knows};
ghost use Rattle.pb_search.specs.Searching.{AreJoined};
ghost use Rattle.pb_search.specs.Tried.{TriesCandidate};

use crate::improving::improve;
use crate::loading::load_broken;
use crate::moves::Move;
use derivation::Derivation;
use hrt_base::{NoMemory, PairNo, RowNo};
use lazy_stability::{Posts, candidate_pairs};
use pb_propagate::Engine;
use stability_model::Model;
use std::alloc::Global;

/// The most pairs whose rows are loaded at once.
const MOST_LOADED: usize = 64;

/// Tries the candidate of a full engine in which nothing is due. Where pairs block it, the rows of the least ones are loaded, at most 64. Else
/// it is the largest matching so far: it is logged, and its row added; and where it is as large as the ceiling, the bound is closed. After
/// want of memory the engine may hold more rows and the derivation may have more lines.
pub(crate) fn try_candidate(
    alloc: Global,
    model: &Model,
    ceiling: u32,
    bound_row: RowNo,
    engine: &mut Engine,
    deriv: &mut Derivation,
    found: &mut Vec<PairNo>,
    posts: &mut Posts,
    budget: u64,
) -> Result<Move, NoMemory>
    requires same { model.now ≡ deriv.old.lists }
    requires sizes { posts.old ≡ sizes_of deriv.old.lists }
    requires joined { AreJoined budget engine.old deriv.old }
    requires idle { IsIdle engine.old }
    requires full { length engine.old.trail ≡ engine.old.vars }
    requires knows { Knows ceiling bound_row found.old.items deriv.old }
    ensures tries { IfOk result (TriesCandidate budget ceiling bound_row found.old.items found.new.items engine.old engine.new deriv.old deriv.new) }
    ensures sizes { posts.new ≡ posts.old }
{
    // For what their contracts say: the engine and the live rows are in order, and pairs are few.
    let _level = engine.level();
    let _next = deriv.next();
    let _pairs = model.instance().pairs();
    let mut blocking = [PairNo(0); MOST_LOADED];
    let count = posts.broken(model.instance(), engine, &mut blocking);
    if count > 0 {
        load_broken(alloc, model, engine, deriv, &blocking[..count])?;
        return Ok(Move::On);
    }
    let pairs = candidate_pairs(alloc, model.instance(), engine)?;
    let step = improve(alloc, model, ceiling, bound_row, engine, deriv, &pairs)?;
    *found = pairs;
    Ok(step)
}
