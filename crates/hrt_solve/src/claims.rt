// What proofs are ended with.
ghost use Rattle.std.specs.Prelude.{◌≡◌, OnOk};
ghost use Rattle.hrt_solve.specs.Claimed.{CanClaim, EndsProof};
ghost use Rattle.hrt_solve.specs.Gauged.{found_claim};
ghost use Rattle.hrt_solve.specs.Searched.{solve_claim};

use derivation::Derivation;
use hrt_base::NoMemory;
use lazy_stability::lawful_rows_are_lazy;
use proof_lines::Claim;
use stability_model::Model;
use std::alloc::Global;

/// That no matching is larger than the ceiling, and one has so many pairs.
pub(crate) fn found_claim(ceiling: u32, size: u32) -> Claim
    ensures { result ≡ found_claim ceiling size }
{
    Claim::Bounds {
        lower: Some(-i128::from(ceiling)),
        upper: Some(-i128::from(size)),
    }
}

/// That no matching is larger than one of so many pairs, where that is best, or else than the ceiling.
pub(crate) fn solve_claim(best: bool, ceiling: u32, size: u32) -> Claim
    ensures { result ≡ solve_claim best ceiling size }
{
    if best {
        return found_claim(size, size);
    }
    found_claim(ceiling, size)
}

/// Ends a proof with a claim.
pub(crate) fn conclude(
    alloc: Global,
    model: &Model,
    claim: Claim,
    deriv: &mut Derivation,
) -> Result<(), NoMemory>
    requires { CanClaim model.now claim deriv.old }
    ensures { OnOk result (EndsProof model.now claim deriv.old deriv.new) }
{
    deriv.conclude(alloc, model, claim)?;
    // For what the law says of the whole text.
    lawful_rows_are_lazy();
    Ok(())
}
