// The search.
ghost use Rattle.std.specs.Prelude.{◌≡◌, ◌≤◌, ◌^◌, IfOk, OnOk};
ghost use Rattle.derivation.specs.Derived.{Derived};
ghost use Rattle.pb_propagate.specs.Engines.{AreKeptBelow};
ghost use Rattle.lazy_stability.specs.Table.{sizes_of};
ghost use Rattle.pb_search.specs.Knowing.{CanSearch, Knows};
ghost use Rattle.pb_search.specs.Loop.{EndsIn, IsAtStep, LeadsTo};
ghost use Rattle.pb_search.specs.Searching.{AreJoined};
ghost use Rattle.pb_search.specs.Tried.{Finds, Searches};

use crate::Found;
use crate::conflict::on_conflict;
use crate::limits::Limits;
use crate::moves::Move;
use crate::opening::open;
use crate::quiet::on_quiet;
use conflict_cuts::{Outcome, propagate};
use derivation::{Deleted, Derivation};
use hrt_base::{NoMemory, PairNo, RowNo, Steps};
use lazy_stability::Posts;
use pb_propagate::Engine;
use rank_tables::Instance;
use stability_model::Model;
use std::alloc::Global;
use std::sync::ledger::Ledger;

/// Propagates what is due, and does what that comes to. After want of memory the engine may hold more rows and the derivation may have more
/// lines.
fn step<L: Ledger>(
    alloc: Global,
    model: &Model,
    limits: &Limits,
    engine: &mut Engine,
    deriv: &mut Derivation,
    found: &mut Vec<PairNo>,
    posts: &mut Posts,
    steps: &mut Steps<L>,
) -> Result<Move, NoMemory>
    requires same { model.now ≡ deriv.old.lists }
    requires sizes { posts.old ≡ sizes_of deriv.old.lists }
    requires budget { limits.now.budget ≤ 10 ^ 12 }
    requires joined { AreJoined limits.now.budget engine.old deriv.old }
    requires kept { AreKeptBelow engine.old }
    requires knows { Knows limits.now.ceiling limits.now.bound_row found.old.items deriv.old }
    ensures leads { IfOk result (λ move. (first : Derived) → IsAtStep limits.now found.old.items first engine.old deriv.old → LeadsTo limits.now found.old.items found.new.items first engine.old engine.new deriv.old deriv.new move) }
    ensures sizes { posts.new ≡ posts.old }
{
    match propagate(engine, steps) {
        Outcome::Conflict(place) => on_conflict(alloc, model, limits, engine, deriv, place),
        Outcome::Quiet => on_quiet(alloc, model, limits, engine, deriv, found, posts),
    }
}

/// Makes steps until one ends the search.
fn search_on<L: Ledger>(
    alloc: Global,
    model: &Model,
    limits: &Limits,
    engine: &mut Engine,
    deriv: &mut Derivation,
    found: &mut Vec<PairNo>,
    posts: &mut Posts,
    steps: &mut Steps<L>,
) -> Result<Move, NoMemory>
    requires same { model.now ≡ deriv.old.lists }
    requires sizes { posts.old ≡ sizes_of deriv.old.lists }
    requires budget { limits.now.budget ≤ 10 ^ 12 }
    requires starts { IsAtStep limits.now found.old.items deriv.old engine.old deriv.old }
    ensures { IfOk result (EndsIn limits.now found.new.items deriv.old deriv.new) }
{
    loop {
        match step(alloc, model, limits, engine, deriv, found, posts, steps)? {
            Move::On => {}
            end => return Ok(end),
        }
    }
}

/// Searches for a weakly stable matching that is larger than the first one. It holds the rows of residents and hospitals, of the deleted
/// pairs, of the ceiling and the one that asks for a larger matching; it loads rows of pairs where a candidate breaks them, and learns
/// a row from each conflict, at most as many as the budget allows. Each line and note goes to the derivation. After want of memory the
/// derivation may have more lines.
pub fn search<L: Ledger>(
    alloc: Global,
    inst: &Instance,
    model: &Model,
    gone: &Deleted,
    ceiling: u32,
    bound_row: RowNo,
    first: &[PairNo],
    improve_row: RowNo,
    deriv: &mut Derivation,
    budget: u64,
    steps: &mut Steps<L>,
) -> Result<Found, NoMemory>
    requires inst { inst.now ≡ deriv.old.lists }
    requires model { model.now ≡ deriv.old.lists }
    requires budget { budget ≤ 10 ^ 12 }
    requires can { CanSearch gone.now ceiling bound_row improve_row first.now deriv.old }
    ensures found { IfOk result (Finds budget ceiling deriv.new) }
    ensures searches { OnOk result (Searches budget ceiling bound_row deriv.old deriv.new) }
{
    let limits = Limits {
        ceiling,
        bound_row,
        budget,
    };
    let mut engine = open(
        alloc,
        model,
        gone,
        ceiling,
        bound_row,
        first,
        improve_row,
        deriv,
    )?;
    let mut posts = Posts::new(alloc, inst)?;
    let mut found = Vec::new(alloc);
    found.extend_from_slice(first)?;
    let end = search_on(
        alloc,
        model,
        &limits,
        &mut engine,
        deriv,
        &mut found,
        &mut posts,
        steps,
    )?;
    match end {
        Move::On => unreachable!(),
        Move::Best => Ok(Found::Best(found)),
        Move::Bounded => Ok(Found::Bounded(found)),
    }
}
