//! First matchings of small instances: `promote` gives the one with which the steps end, taken one by one over whole lists.
ghost use Rattle.std.specs.Prelude.{◌<◌, ◌≤◌, All, IfSome};
ghost use Rattle.rank_tables.specs.Tables.{IsPairNo};

use crate::definition::{Chosen, Small, instance_of};
use crate::instances::instance_in;
use hrt_base::PairNo;
use promotion_heuristic::promote;
use rank_tables::Instance;
use std::test::Fail;

// How far a resident has come: how many hospitals it has proposed to in this pass, and which one has it.
#[derive(Clone, Copy)]
struct Progress {
    proposals: u32,
    promoted: bool,
    hospital: Option<usize>,
}

// The hospital of a resident's list to which it proposes after so many proposals.
fn hospital_after(small: &Small, r: usize, proposals: u32) -> Option<usize>
    requires { r < 3 }
    ensures { IfSome result (λ h. h < 3) }
{
    let mut before = 0u32;
    for rank in 1..4u32 {
        for h in 0..3 {
            if small.is_acceptable(r, h) && small.rank_by_resident(r, h) == rank {
                if before == proposals {
                    return Some(h);
                }
                before = before.saturating_add(1);
            }
        }
    }
    None
}

// The unassigned resident of least number that has a hospital left.
fn waiting(small: &Small, all: &[Progress; 3]) -> Option<usize>
    ensures { IfSome result (λ r. r < 3) }
{
    for r in 0..3 {
        if all[r].hospital.is_none() && hospital_after(small, r, all[r].proposals).is_some() {
            return Some(r);
        }
    }
    None
}

// Whether the hospital holds resident r lower than s: it ranks it lower, or as high while s alone is promoted.
fn is_lower(small: &Small, all: &[Progress; 3], h: usize, r: usize, s: usize) -> bool
    requires h { h < 3 }
    requires r { r < 3 }
    requires s { s < 3 }
{
    let rank_of_r = small.rank_by_hospital(r, h);
    let rank_of_s = small.rank_by_hospital(s, h);
    rank_of_s < rank_of_r || rank_of_r == rank_of_s && !all[r].promoted && all[s].promoted
}

// The worst resident of a hospital: of two of which neither is lower, the one with the greater number.
fn worst(small: &Small, all: &[Progress; 3], h: usize) -> Option<usize>
    requires { h < 3 }
    ensures { IfSome result (λ r. r < 3) }
{
    for r in 0..3 {
        let is_worst = (0..3).all(|s: usize| {
            s >= 3
                || all[s].hospital != Some(h)
                || is_lower(small, all, h, r, s)
                || !is_lower(small, all, h, s, r) && s <= r
        });
        if all[r].hospital == Some(h) && is_worst {
            return Some(r);
        }
    }
    None
}

fn residents_of(all: &[Progress; 3], h: usize) -> u32
    ensures { result ≤ 3 }
{
    (all[0].hospital == Some(h)) as u32
        + (all[1].hospital == Some(h)) as u32
        + (all[2].hospital == Some(h)) as u32
}

// Resident r was refused or put out: it goes on, and at the end of its list it is promoted once.
fn turn_away(small: &Small, all: &mut [Progress; 3], r: usize)
    requires { r < 3 }
{
    all[r].hospital = None;
    let has_one_left = hospital_after(small, r, all[r].proposals).is_some();
    if !has_one_left && !all[r].promoted {
        all[r].promoted = true;
        all[r].proposals = 0;
    }
}

// Resident r proposes to hospital h.
fn propose(small: &Small, all: &mut [Progress; 3], r: usize, h: usize)
    requires r { r < 3 }
    requires h { h < 3 }
{
    all[r].proposals = all[r].proposals.saturating_add(1);
    if residents_of(all, h) < small.posts_of(h) {
        all[r].hospital = Some(h);
        return;
    }
    if let Some(w) = worst(small, all, h) {
        if is_lower(small, all, h, w, r) {
            turn_away(small, all, w);
            all[r].hospital = Some(h);
            return;
        }
    }
    turn_away(small, all, r);
}

// The pairs with which the steps end. A resident proposes at most twice to each hospital.
fn steps_end(small: &Small) -> Chosen {
    let top = Progress {
        proposals: 0,
        promoted: false,
        hospital: None,
    };
    let mut all = [top; 3];
    for _step in 0..18 {
        if let Some(r) = waiting(small, &all) {
            if let Some(h) = hospital_after(small, r, all[r].proposals) {
                propose(small, &mut all, r, h);
            }
        }
    }
    let mut chosen = [[false; 3]; 3];
    for r in 0..3 {
        for h in 0..3 {
            chosen[r][h] = all[r].hospital == Some(h);
        }
    }
    chosen
}

// The cells of these pairs.
fn cells_of(inst: &Instance, pairs: &[PairNo]) -> Chosen
    requires { All (λ p. IsPairNo inst.now p.0) pairs.now }
{
    let mut chosen = [[false; 3]; 3];
    for p in pairs {
        let r = inst.resident_of(*p) as usize;
        let h = inst.hospital_of(*p) as usize;
        if r < 3 && h < 3 {
            chosen[r][h] = true;
        }
    }
    chosen
}

#[test]
fn promotes_as_the_steps_do(rt: HostRuntime) -> Result<(), Fail> {
    let alloc = rt.alloc();
    for number in 0..400 {
        let small = instance_of(number);
        let text = small.text(alloc)?;
        let inst = instance_in(alloc, &text)?;
        let pairs = promote(alloc, &inst)?;
        assert_eq!(rt;
            cells_of(&inst, &pairs),
            steps_end(&small),
            "of instance {number}"
        );
    }
    Ok(())
}
