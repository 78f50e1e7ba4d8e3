// First matchings and largest ones.
use crate::instances::{empty, one_hospital, strict, three_by_three, tied};
use hrt_base::PairNo;
use plain_enumeration::largest_stable;
use promotion_heuristic::promote;
use std::test::Fail;

#[test]
fn a_promoted_resident_puts_out_an_equal(rt: HostRuntime) -> Result<(), Fail> {
    let instance = tied(rt.alloc())?;
    let pairs = promote(rt.alloc(), &instance)?;
    assert_eq!(rt; pairs.as_slice(), [PairNo(2), PairNo(3)].as_slice());
    Ok(())
}

#[test]
fn a_lower_rank_is_no_equal(rt: HostRuntime) -> Result<(), Fail> {
    let instance = three_by_three(rt.alloc())?;
    let pairs = promote(rt.alloc(), &instance)?;
    assert_eq!(rt; pairs.as_slice(), [PairNo(1), PairNo(5)].as_slice());
    Ok(())
}

#[test]
fn a_tie_for_posts(rt: HostRuntime) -> Result<(), Fail> {
    let closed = one_hospital(rt.alloc(), 0)?;
    let none = promote(rt.alloc(), &closed)?;
    assert_eq!(rt; none.as_slice(), [].as_slice());
    let open = one_hospital(rt.alloc(), 2)?;
    let both = promote(rt.alloc(), &open)?;
    assert_eq!(rt; both.as_slice(), [PairNo(2), PairNo(3)].as_slice());
    Ok(())
}

#[test]
fn a_tie_leaves_room_for_both(rt: HostRuntime) -> Result<(), Fail> {
    let instance = tied(rt.alloc())?;
    let best = largest_stable(rt.alloc(), &instance)?;
    assert_eq!(rt; best.as_slice(), [PairNo(2), PairNo(3)].as_slice());
    Ok(())
}

#[test]
fn without_the_tie_one_is_left_out(rt: HostRuntime) -> Result<(), Fail> {
    let instance = strict(rt.alloc())?;
    let best = largest_stable(rt.alloc(), &instance)?;
    assert_eq!(rt; best.as_slice(), [PairNo(1)].as_slice());
    Ok(())
}

#[test]
fn the_first_of_equals_is_kept(rt: HostRuntime) -> Result<(), Fail> {
    let instance = three_by_three(rt.alloc())?;
    let best = largest_stable(rt.alloc(), &instance)?;
    assert_eq!(rt; best.as_slice(), [PairNo(2), PairNo(4)].as_slice());
    Ok(())
}

#[test]
fn no_pair(rt: HostRuntime) -> Result<(), Fail> {
    let instance = empty(rt.alloc())?;
    let best = largest_stable(rt.alloc(), &instance)?;
    assert_eq!(rt; best.as_slice(), [].as_slice());
    Ok(())
}
