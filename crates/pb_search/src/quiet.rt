// What follows where nothing is due.
ghost use Rattle.std.specs.Prelude.{◌≡◌, IfNone, IfOk, IfSome, length};
ghost use Rattle.derivation.specs.Derived.{Derived};
ghost use Rattle.pb_propagate.specs.Engines.{IsIdle};
ghost use Rattle.lazy_stability.specs.Table.{sizes_of};
ghost use Rattle.pb_search.specs.Deciding.{IsLeastFree};
ghost use Rattle.pb_search.specs.Knowing.{Knows};
ghost use Rattle.pb_search.specs.Loop.{IsAtRest, LeadsTo};
ghost use Rattle.pb_search.specs.Searching.{AreJoined};

use crate::candidate::try_candidate;
use crate::limits::Limits;
use crate::moves::Move;
use derivation::Derivation;
use hrt_base::{Lit, NoMemory, PairNo, Value};
use lazy_stability::Posts;
use pb_propagate::Engine;
use stability_model::Model;
use std::alloc::Global;

/// The literal that makes the least free variable true, or none where no variable is free. It takes no memory.
fn pick(engine: &Engine) -> Option<Lit>
    ensures least { IfSome result (IsLeastFree engine.now) }
    ensures full { IfNone result (length engine.now.trail ≡ engine.now.vars) }
{
    // For what its contract says: the engine is in order.
    let _level = engine.level();
    for k in 0..engine.vars() {
        let var = k + 1;
        if engine.value(var) == Value::Free {
            return Some(Lit { var, neg: false });
        }
    }
    None
}

/// Where nothing is due: decides the least free variable as true, or tries the candidate of a full engine. After want of memory the engine
/// may hold more rows and the derivation may have more lines.
pub(crate) fn on_quiet(
    alloc: Global,
    model: &Model,
    limits: &Limits,
    engine: &mut Engine,
    deriv: &mut Derivation,
    found: &mut Vec<PairNo>,
    posts: &mut Posts,
) -> Result<Move, NoMemory>
    requires same { model.now ≡ deriv.old.lists }
    requires sizes { posts.old ≡ sizes_of deriv.old.lists }
    requires joined { AreJoined limits.now.budget engine.old deriv.old }
    requires idle { IsIdle engine.old }
    requires knows { Knows limits.now.ceiling limits.now.bound_row found.old.items deriv.old }
    ensures leads { IfOk result (λ move. (first : Derived) → IsAtRest limits.now found.old.items first engine.old deriv.old → LeadsTo limits.now found.old.items found.new.items first engine.old engine.new deriv.old deriv.new move) }
    ensures sizes { posts.new ≡ posts.old }
{
    // For what its contract says: the engine is in order.
    let _level = engine.level();
    let Some(lit) = pick(engine) else {
        return try_candidate(
            alloc,
            model,
            limits.ceiling,
            limits.bound_row,
            engine,
            deriv,
            found,
            posts,
            limits.budget,
        );
    };
    engine.decide(lit);
    // For what its contract says: the trail has at most as many literals as there are variables.
    let _free = engine.free_count();
    Ok(Move::On)
}
