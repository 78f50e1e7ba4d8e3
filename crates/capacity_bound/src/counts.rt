// The ceiling.
ghost use Rattle.std.specs.Prelude.{◌≡◌, ◌≤◌, not, count_by};
ghost use Rattle.rank_tables.specs.Instance.{pair_count};
ghost use Rattle.rank_tables.specs.Tables.{numbers_of};
ghost use Rattle.rank_tables.specs.WellFormed.{IsWellFormed, most_residents};
ghost use Rattle.stability_model.specs.Gone.{AreGone, ceiling, posts_left, residents_left};
ghost use Rattle.derivation.specs.Deletions.{is_deleted};
ghost use Rattle.capacity_bound.specs.Ceiling.{BoundsMatchings, IsCeiling};

use derivation::Deleted;
use hrt_base::PairNo;
use rank_tables::Instance;

/// How many of the pairs aren't deleted.
pub(crate) fn count_left(gone: &Deleted, pairs: &[PairNo]) -> usize
    ensures { result ≡ count_by (λ p. not (is_deleted gone.now p)) (numbers_of pairs.now) }
{
    let mut left = 0;
    for p in pairs {
        if !gone.is_gone(*p) {
            left += 1;
        }
    }
    left
}

/// How many residents have a pair that is left.
pub(crate) fn residents_left(inst: &Instance, gone: &Deleted) -> usize
    ensures is { result ≡ residents_left inst.now (is_deleted gone.now) }
    ensures few { result ≤ most_residents }
    ensures well_formed { IsWellFormed inst.now }
{
    let mut residents = 0;
    for r in 0..inst.residents() {
        if count_left(gone, inst.pairs_of_resident(r)) > 0 {
            residents += 1;
        }
    }
    residents
}

/// How many posts the pairs that are left can fill.
pub(crate) fn posts_left(inst: &Instance, gone: &Deleted) -> usize
    ensures { result ≡ posts_left inst.now (is_deleted gone.now) }
{
    let mut posts = 0;
    for h in 0..inst.hospitals() {
        let capacity = inst.capacity(h) as usize;
        let left = count_left(gone, inst.pairs_of_hospital(h));
        posts += capacity.min(left);
    }
    posts
}

/// The smaller of the number of residents that have a pair that isn't deleted, and the number of posts that such pairs can
/// fill. No matching without deleted pairs is longer (`bounds`). Where the deleted pairs are those that are gone, it is the
/// ceiling of the instance (`exact`).
#[tactic(auto, using(crate::proofs::CeilingBound::ceiling_bounds, crate::proofs::CeilingBound::ceiling_exact))]
pub fn ceiling(inst: &Instance, gone: &Deleted) -> u32
    ensures value { result ≡ ceiling inst.now (is_deleted gone.now) }
    ensures bounds { BoundsMatchings inst.now (is_deleted gone.now) result }
    ensures exact { AreGone inst.now (is_deleted gone.now) → IsCeiling inst.now result }
    ensures few { result ≤ pair_count inst.now }
{
    residents_left(inst, gone).min(posts_left(inst, gone)) as u32
}
