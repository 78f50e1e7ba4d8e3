//! Reductions of worked and of small instances: the deleted pairs against the two rules taken plainly, and the lines against the
//! checker.
ghost use Rattle.std.specs.Prelude.{◌≡◌, ◌<◌, ◌≤◌};
ghost use Rattle.derivation.specs.Deletions.{Deletions};

use crate::definition::{Chosen, Small, instance_of};
use crate::instances::{claim_of, instance_in};
use derivation::{Deleted, Derivation};
use hrt_base::{NoMemory, PairNo};
use pair_reduction::reduce;
use proof_lines::Claim;
use rank_tables::Instance;
use stability_model::Model;
use std::alloc::Global;
use std::test::Fail;

// Fewer others than the hospital has posts are left that it ranks at least as high as the resident.
fn is_sure(small: &Small, gone: &Chosen, r: usize, h: usize) -> bool
    requires r { r < 3 }
    requires h { h < 3 }
{
    let mut others = 0u32;
    for s in 0..3 {
        if s != r
            && small.is_acceptable(s, h)
            && !gone[s][h]
            && small.rank_by_hospital(s, h) <= small.rank_by_hospital(r, h)
        {
            others = others.saturating_add(1);
        }
    }
    others < small.posts_of(h)
}

// No other hospital is left that the resident ranks at least as high.
fn has_only(small: &Small, gone: &Chosen, r: usize, h: usize) -> bool
    requires r { r < 3 }
    requires h { h < 3 }
{
    (0..3).all(|k: usize| {
        k >= 3
            || k == h
            || !small.is_acceptable(r, k)
            || gone[r][k]
            || small.rank_by_resident(r, k) > small.rank_by_resident(r, h)
    })
}

// The resident is sure of a hospital that it prefers.
fn rule_a(small: &Small, gone: &Chosen, r: usize, h: usize) -> bool
    requires r { r < 3 }
    requires h { h < 3 }
{
    (0..3).any(|k: usize| {
        k < 3
            && small.is_acceptable(r, k)
            && small.rank_by_resident(r, k) < small.rank_by_resident(r, h)
            && is_sure(small, gone, r, k)
    })
}

// As many residents as there are posts have nothing else left, and the hospital prefers each.
fn rule_b(small: &Small, gone: &Chosen, r: usize, h: usize) -> bool
    requires r { r < 3 }
    requires h { h < 3 }
{
    let mut count = 0u32;
    for s in 0..3 {
        if small.is_acceptable(s, h)
            && small.rank_by_hospital(s, h) < small.rank_by_hospital(r, h)
            && has_only(small, gone, s, h)
        {
            count = count.saturating_add(1);
        }
    }
    small.posts_of(h) <= count
}

// Both rules, applied to all nine cells nine times, delete what they ever will.
fn plainly_gone(small: &Small) -> Chosen {
    let mut gone = [[false; 3]; 3];
    for _round in 0..9 {
        for r in 0..3 {
            for h in 0..3 {
                if small.is_acceptable(r, h)
                    && (rule_a(small, &gone, r, h) || rule_b(small, &gone, r, h))
                {
                    gone[r][h] = true;
                }
            }
        }
    }
    gone
}

// The cells of the deleted pairs.
fn cells_of(inst: &Instance, gone: &Deleted) -> Chosen {
    let mut cells = [[false; 3]; 3];
    for done in 0..inst.pairs() {
        let p = PairNo(done + 1);
        let r = inst.resident_of(p) as usize;
        let h = inst.hospital_of(p) as usize;
        if r < 3 && h < 3 {
            cells[r][h] = gone.is_gone(p);
        }
    }
    cells
}

// What is deleted of an instance, and the lines of it, ended with no claim.
fn reduced(alloc: Global, inst: &Instance) -> Result<(Deleted, Vec<u8>), NoMemory> {
    let model = Model::of(alloc, inst)?;
    let _limits = (inst.pairs(), model.row_count());
    let mut deriv = Derivation::new(alloc, &model)?;
    let gone = reduce(alloc, inst, &model, &mut deriv)?;
    deriv.conclude(alloc, &model, Claim::Nothing)?;
    let mut lines = Vec::new(alloc);
    lines.extend_from_slice(deriv.pending())?;
    Ok((gone, lines))
}

// Of two residents and a hospital without posts: both pairs are deleted, each by one line.
const NO_POSTS: &[u8] =
    b"pseudo-Boolean proof version 2.0\nf 5\nrup +1 ~x1 >= 1 ;\n* note unit 6\nrup +1 ~x2 >= 1 ;\n* note unit 7\noutput NONE\nconclusion NONE\nend pseudo-Boolean proof\n";

#[test]
fn worked_reductions(rt: HostRuntime) -> Result<(), Fail> {
    let alloc = rt.alloc();
    let cases: [(&[u8], &[bool]); 7] = [
        (
            b"hrt 1\nresident a: x y\nresident b: x\nhospital x 1: a b\nhospital y 1: a\nend\n",
            &[false, true, true],
        ),
        (
            b"hrt 1\nresident a: x y\nresident b: x\nhospital x 1: (a b)\nhospital y 1: a\nend\n",
            &[false, false, false],
        ),
        (
            b"hrt 1\nresident a: x\nresident b: x\nhospital x 0: a b\nend\n",
            &[true, true],
        ),
        (
            b"hrt 1\nresident a: (x y)\nresident b: y\nhospital x 1: a\nhospital y 1: (a b)\nend\n",
            &[false, false, false],
        ),
        (
            b"hrt 1\nresident a: (x y) z\nresident b: (x y)\nresident c: x\nhospital x 1: (a b) c\nhospital y 1: (a b)\nhospital z 1: a\nend\n",
            &[false, false, false, false, false, false],
        ),
        (
            b"hrt 1\nresident anna: General City\nresident ben: City General\nresident cleo: General\nresident dan: (City General)\nhospital General 2: anna (ben cleo) dan\nhospital City 1: (anna ben dan)\nend\n",
            &[false, true, false, false, false, false, true],
        ),
        (b"hrt 1\nend\n", &[]),
    ];
    for (text, wanted) in cases.iter() {
        let inst = instance_in(alloc, text)?;
        let gone = reduced(alloc, &inst)?.0;
        assert_eq!(rt; inst.pairs() as usize, wanted.len());
        let mut p = 0u32;
        for is_gone in wanted.iter() {
            p = p.saturating_add(1);
            assert_eq!(rt; gone.is_gone(PairNo(p)), *is_gone, "pair {p}");
        }
    }
    Ok(())
}

#[test]
fn lines_of_no_posts(rt: HostRuntime) -> Result<(), Fail> {
    let alloc = rt.alloc();
    let inst = instance_in(
        alloc,
        b"hrt 1\nresident a: x\nresident b: x\nhospital x 0: a b\nend\n",
    )?;
    let lines = reduced(alloc, &inst)?.1;
    assert_eq!(rt; lines.as_slice(), NO_POSTS);
    Ok(())
}

// The resident of the first pair ranks nothing else as high, so the third pair is deleted by its offer; and the first pair is sure
// of its post, so the second is.
const EACH_RULE: &[u8] =
    b"pseudo-Boolean proof version 2.0\nf 7\npol 5 3 +\nrup +1 ~x3 >= 1 ;\n* note unit 9\nrup +1 ~x2 >= 1 ;\n* note unit 10\ndel id 8\noutput NONE\nconclusion NONE\nend pseudo-Boolean proof\n";

#[test]
fn lines_of_each_rule(rt: HostRuntime) -> Result<(), Fail> {
    let alloc = rt.alloc();
    let inst = instance_in(
        alloc,
        b"hrt 1\nresident a: x y\nresident b: x\nhospital x 1: a b\nhospital y 1: a\nend\n",
    )?;
    let lines = reduced(alloc, &inst)?.1;
    assert_eq!(rt; lines.as_slice(), EACH_RULE);
    Ok(())
}

// Of three residents and a hospital with one post: the offer of its first pair in order of rank, which deletes both others, is the
// only row that is forgotten.
const ONE_OFFER: &[u8] =
    b"pseudo-Boolean proof version 2.0\nf 7\npol 7 4 +\nrup +1 ~x2 >= 1 ;\n* note unit 9\nrup +1 ~x1 >= 1 ;\n* note unit 10\ndel id 8\noutput NONE\nconclusion NONE\nend pseudo-Boolean proof\n";

#[test]
fn lines_of_one_offer(rt: HostRuntime) -> Result<(), Fail> {
    let alloc = rt.alloc();
    let inst = instance_in(
        alloc,
        b"hrt 1\nresident a: x\nresident b: x\nresident c: x\nhospital x 1: c b a\nend\n",
    )?;
    let lines = reduced(alloc, &inst)?.1;
    assert_eq!(rt; lines.as_slice(), ONE_OFFER);
    Ok(())
}

#[test]
fn reduces_as_the_rules_do(rt: HostRuntime) -> Result<(), Fail> {
    let alloc = rt.alloc();
    for number in 0..400 {
        let small = instance_of(number);
        let text = small.text(alloc)?;
        let inst = instance_in(alloc, &text)?;
        let gone = reduced(alloc, &inst)?.0;
        assert_eq!(rt;
            cells_of(&inst, &gone),
            plainly_gone(&small),
            "of instance {number}"
        );
    }
    Ok(())
}

#[test]
fn lines_are_accepted(rt: HostRuntime) -> Result<(), Fail> {
    let alloc = rt.alloc();
    for number in 0..400 {
        let small = instance_of(number);
        let text = small.text(alloc)?;
        let inst = instance_in(alloc, &text)?;
        let lines = reduced(alloc, &inst)?.1;
        assert_eq!(rt;
            claim_of(alloc, &inst, &lines)?,
            Claim::Nothing,
            "of instance {number}"
        );
    }
    Ok(())
}
