// The loading of rows of pairs that block the candidate.
ghost use Rattle.std.specs.Prelude.{◌≡◌, ◌<◌, length, IsTrue, OnOk};
ghost use Rattle.rank_tables.specs.Stability.{is_matching};
ghost use Rattle.pb_propagate.specs.Engines.{IsIdle};
ghost use Rattle.derivation.specs.Ready.{IsReady};
ghost use Rattle.agreement.specs.Agreement.{Agree};
ghost use Rattle.lazy_stability.specs.Candidates.{AreBlocking, IsFull, candidate};
ghost use Rattle.pb_search.specs.Loading.{LoadsBroken};

use crate::returning::return_to_lowest;
use derivation::Derivation;
use hrt_base::{NoMemory, PairNo};
use lazy_stability::load;
use pb_propagate::Engine;
use stability_model::Model;
use std::alloc::Global;

/// Loads the rows of pairs that block the candidate of a full engine in which nothing is due, and goes back to the lowest level at which
/// one of them is open.
pub(crate) fn load_broken(
    alloc: Global,
    model: &Model,
    engine: &mut Engine,
    deriv: &mut Derivation,
    pairs: &[PairNo],
) -> Result<(), NoMemory>
    requires same { model.now ≡ deriv.old.lists }
    requires ready { IsReady deriv.old }
    requires agree { Agree engine.old deriv.old }
    requires full { IsFull engine.old }
    requires quiet { IsIdle engine.old }
    requires matching { IsTrue (is_matching deriv.old.lists (candidate deriv.old.lists engine.old)) }
    requires some { 0 < length pairs.now }
    requires block { AreBlocking deriv.old.lists (candidate deriv.old.lists engine.old) pairs.now }
    ensures { OnOk result (LoadsBroken pairs.now engine.old engine.new deriv.old deriv.new) }
{
    let places = load(alloc, model, engine, deriv, pairs)?;
    // For what its contract says: the engine is in order.
    let _level = engine.level();
    return_to_lowest(engine, &places);
    Ok(())
}
