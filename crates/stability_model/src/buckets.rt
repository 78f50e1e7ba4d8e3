// The pairs of each hospital by rising number. (An instance has them in the order of the hospital's list.)
ghost use Rattle.std.specs.Prelude.{◌≡◌, ◌<◌, ◌++◌, [], ◌∷◌, ℕ, ◌==◌, if◌then◌else◌, length, IfOk, OnOk};
ghost use Rattle.rank_tables.specs.Instance.{rising_pairs_of_hospital};
ghost use Rattle.rank_tables.specs.Tables.{numbers_of};
ghost use Rattle.stability_model.specs.Making.{bucket_at};

use hrt_base::PairNo;
use rank_tables::Instance;
use std::alloc::{AllocError, Global};

// So many empty buckets.
fn empty_buckets(alloc: Global, count: usize) -> Result<Vec<Vec<PairNo>>, AllocError>
    ensures count { IfOk result (λ buckets. length buckets.items ≡ count) }
    ensures empty { IfOk result (λ buckets. (h : ℕ) → bucket_at buckets.items h ≡ []) }
{
    let mut buckets = Vec::new(alloc);
    for _h in 0..count {
        buckets.push(Vec::new(alloc))?;
    }
    Ok(buckets)
}

// Adds a pair to the bucket at a place.
fn push_at(buckets: &mut Vec<Vec<PairNo>>, place: usize, pair: PairNo) -> Result<(), AllocError>
    requires { place < length buckets.old.items }
    ensures count { length buckets.new.items ≡ length buckets.old.items }
    ensures pushed { OnOk result ((h : ℕ) → bucket_at buckets.new.items h ≡ (if h == place then bucket_at buckets.old.items h ++ pair ∷ [] else bucket_at buckets.old.items h)) }
{
    buckets[place].push(pair)?;
    Ok(())
}

// The pairs of each hospital.
pub fn pairs_by_hospital(alloc: Global, inst: &Instance) -> Result<Vec<Vec<PairNo>>, AllocError>
    ensures count { IfOk result (λ buckets. length buckets.items ≡ length inst.now.hospitals) }
    ensures each { IfOk result (λ buckets. (h : ℕ) → numbers_of (bucket_at buckets.items h) ≡ rising_pairs_of_hospital inst.now h) }
{
    let mut buckets = empty_buckets(alloc, inst.hospitals() as usize)?;
    for k in 0..inst.pairs() {
        let pair = PairNo(k + 1);
        push_at(&mut buckets, inst.hospital_of(pair) as usize, pair)?;
    }
    Ok(buckets)
}
