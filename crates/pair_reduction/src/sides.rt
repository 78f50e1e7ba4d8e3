// Both sides of an instance in the same words.
ghost use Rattle.std.specs.Prelude.{◌≡◌, ◌<◌, ◌≤◌, ℕ, All, IsTrue};
ghost use Rattle.rank_tables.specs.Numbers.{is_distinct, is_in};
ghost use Rattle.rank_tables.specs.Tables.{IsPairNo, numbers_of};
ghost use Rattle.pair_reduction.specs.Sides.{IsOn, list_count, list_of, other, pairs_on, places, rank_on};

use hrt_base::PairNo;
use rank_tables::Instance;

/// Who ranks the pairs of a list.
#[derive(Clone, Copy)]
pub(crate) enum Side {
    Resident,
    Hospital,
}

/// The number of the list in which a pair stands.
pub(crate) fn list_of(inst: &Instance, side: Side, p: PairNo) -> u32
    requires { IsPairNo inst.now p.0 }
    ensures value { result ≡ list_of side inst.now p.0 }
    ensures declared { result < list_count side inst.now }
{
    match side {
        Side::Resident => inst.resident_of(p),
        Side::Hospital => inst.hospital_of(p),
    }
}

/// The pairs of a list, in its order.
pub(crate) fn pairs_on(inst: &Instance, side: Side, n: u32) -> &[PairNo]
    requires { n < list_count side inst.now }
    ensures each { All (λ p. IsOn side inst.now n p.0) result.now }
    ensures same { (p : ℕ) → is_in p (numbers_of result.now) ≡ is_in p (pairs_on side inst.now n) }
    ensures distinct { IsTrue (is_distinct (numbers_of result.now)) }
{
    match side {
        Side::Resident => inst.pairs_of_resident(n),
        Side::Hospital => inst.pairs_of_hospital(n),
    }
}

/// The rank of a pair in its list, from 1 on.
pub(crate) fn rank_on(inst: &Instance, side: Side, p: PairNo) -> u32
    requires { IsPairNo inst.now p.0 }
    ensures value { result ≡ rank_on side inst.now p.0 }
    ensures some { 1 ≤ result }
{
    match side {
        Side::Resident => inst.rank_by_resident(p),
        Side::Hospital => inst.rank_by_hospital(p),
    }
}

/// How many pairs of a list a matching may have.
pub(crate) fn places(inst: &Instance, side: Side, n: u32) -> u32
    requires { n < list_count side inst.now }
    ensures value { result ≡ places side inst.now n }
    ensures few { result ≤ 20000 }
{
    match side {
        Side::Resident => 1,
        Side::Hospital => inst.capacity(n),
    }
}

/// The other side.
pub(crate) fn other(side: Side) -> Side
    ensures { result ≡ other side }
{
    match side {
        Side::Resident => Side::Hospital,
        Side::Hospital => Side::Resident,
    }
}
