// What stands before a search: the bound, and the first matching.
ghost use Rattle.std.specs.Prelude.{◌≡◌, [], IfOk, OnOk, length};
ghost use Rattle.derivation.specs.Derived.{StandsFor};
ghost use Rattle.derivation.specs.Ready.{IsReady};
ghost use Rattle.derivation.specs.Steps.{first_derived};
ghost use Rattle.lazy_stability.specs.Laws.{AreRowsLazy};
ghost use Rattle.hrt_solve.specs.Claimed.{CanClaim};
ghost use Rattle.hrt_solve.specs.Gauged.{found_claim};
ghost use Rattle.hrt_solve.specs.Started.{IsStarted};
ghost use Rattle.hrt_solve.specs.Writing.{IsProof, IsQuickEnd};

use crate::SolveEnd;
use crate::bounding::{Gauged, gauge};
use crate::claims::{conclude, found_claim};
use derivation::Derivation;
use hrt_base::{NoMemory, PairNo, RowNo};
use matching_log::{close, log};
use promotion_heuristic::promote;
use stability_model::Model;
use std::alloc::Global;

/// What stands once the first matching is logged.
#[derive(Drop)]
pub(crate) struct Started {
    pub gauged: Gauged,
    /// The pairs of the first matching, rising.
    pub pairs: Vec<PairNo>,
    /// How many they are.
    pub size: u32,
    /// The row that asks for a larger matching.
    pub larger: RowNo,
}

/// Deletes pairs, derives the bound and logs the first matching, in a new derivation.
pub(crate) fn start(
    alloc: Global,
    model: &Model,
    deriv: &mut Derivation,
) -> Result<Started, NoMemory>
    requires first { deriv.old ≡ first_derived model.now }
    requires ready { IsReady deriv.old }
    requires stands { StandsFor [] deriv.old }
    ensures { IfOk result (λ started. IsStarted model.now started deriv.new) }
{
    let inst = model.instance();
    let gauged = gauge(alloc, inst, model, deriv)?;
    // For what its contract says: the live rows are in order.
    let _next = deriv.next();
    let pairs = promote(alloc, inst)?;
    let larger = log(alloc, model, &pairs, deriv)?;
    let size = pairs.len() as u32;
    Ok(Started {
        gauged,
        pairs,
        size,
        larger,
    })
}

// Where there is a bound row and the first matching is as large as the ceiling, closes the bound.
fn close_where_met(
    alloc: Global,
    model: &Model,
    started: &Started,
    deriv: &mut Derivation,
) -> Result<(), NoMemory>
    requires { IsStarted model.now started.now deriv.old }
    ensures can { OnOk result (CanClaim model.now (found_claim started.now.gauged.end.ceiling started.now.size) deriv.new) }
    ensures unlearned { OnOk result (deriv.new.held.learn_notes ≡ 0) }
{
    let Some(bound) = started.gauged.row else {
        return Ok(());
    };
    if started.size != started.gauged.end.ceiling {
        return Ok(());
    }
    close(alloc, model, bound, started.larger, started.size, deriv)?;
    Ok(())
}

/// Ends the proof with the ceiling and the first matching.
pub(crate) fn conclude_first(
    alloc: Global,
    model: &Model,
    started: Started,
    deriv: &mut Derivation,
) -> Result<SolveEnd, NoMemory>
    requires { IsStarted model.now started deriv.old }
    ensures said { IfOk result (λ end. IsQuickEnd model.now end) }
    ensures proof { IfOk result (λ end. IsProof model.now deriv.new.pending (found_claim end.ceiling (length end.pairs.items)) end.conflicts) }
    ensures lazy { OnOk result (AreRowsLazy model.now deriv.new.pending) }
{
    close_where_met(alloc, model, &started, deriv)?;
    let Started {
        gauged,
        pairs,
        size,
        ..
    } = started;
    conclude(alloc, model, found_claim(gauged.end.ceiling, size), deriv)?;
    Ok(SolveEnd {
        deleted: gauged.end.deleted,
        ceiling: gauged.end.ceiling,
        first: size,
        conflicts: 0,
        pairs,
        best: size == gauged.end.ceiling,
    })
}
