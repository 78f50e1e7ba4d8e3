// How a resident goes on in its list.
ghost use Rattle.std.specs.Prelude.{◌≡◌, ◌<◌, length, nat_lt, option_map};
ghost use Rattle.std.specs.List.{find};
ghost use Rattle.std.specs.List.Sorted.{IsStrictlyIncreasing};
ghost use Rattle.rank_tables.specs.Tables.{numbers_of};
ghost use Rattle.promotion_heuristic.specs.Promotion.{next_pair, after};

use crate::standing::Standing;
use hrt_base::PairNo;
use rank_tables::Instance;

// The first of these rising pairs whose number is greater.
fn first_after(pairs: &[PairNo], number: u32) -> Option<PairNo>
    requires { IsStrictlyIncreasing (numbers_of pairs.now) }
    ensures { option_map (λ p. p.0) result ≡ find (nat_lt number) (numbers_of pairs.now) }
{
    let place = pairs.partition_point(|p| p.0 <= number);
    pairs.get(place).copied()
}

// The next pair of resident r.
pub fn pair_ahead(standings: &[Standing], inst: &Instance, r: u32) -> Option<PairNo>
    requires declared { r < length inst.now.residents }
    requires residents { length standings.now ≡ length inst.now.residents }
    ensures { option_map (λ p. p.0) result ≡ next_pair inst.now standings.now r }
{
    first_after(inst.pairs_of_resident(r), standings[r as usize].last)
}

// What resident r comes to after it was turned away by pair p.
pub fn goes_on(inst: &Instance, r: u32, promoted: bool, p: PairNo) -> Standing
    requires { r < length inst.now.residents }
    ensures { result ≡ after inst.now r promoted p.0 }
{
    if promoted || first_after(inst.pairs_of_resident(r), p.0).is_some() {
        Standing {
            last: p.0,
            promoted,
            assigned: false,
        }
    } else {
        Standing {
            last: 0,
            promoted: true,
            assigned: false,
        }
    }
}
