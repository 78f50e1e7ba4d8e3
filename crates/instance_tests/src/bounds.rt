//! Ceilings and bound rows of a worked instance, and bounds of small ones against the checker.
use crate::definition::instance_of;
use crate::instances::{claim_of, instance_in};
use capacity_bound::{ceiling, derive_bound};
use derivation::{Deleted, Derivation};
use hrt_base::{Host, NoMemory, PairNo, Port, RowNo};
use hrt_host::MemoryHost;
use hrt_solve::bound;
use proof_lines::Claim;
use rank_tables::Instance;
use stability_model::Model;
use std::alloc::Global;
use std::test::Fail;

// Two residents that name one hospital, which has them in a tie, with no post, one and two.
const POSTS: [&[u8]; 3] = [
    b"hrt 1\nresident a: x\nresident b: x\nhospital x 0: (a b)\nend\n",
    b"hrt 1\nresident a: x\nresident b: x\nhospital x 1: (a b)\nend\n",
    b"hrt 1\nresident a: x\nresident b: x\nhospital x 2: (a b)\nend\n",
];

#[test]
fn counts_residents_and_posts(rt: HostRuntime) -> Result<(), Fail> {
    let alloc = rt.alloc();
    let mut gone = Deleted::new(alloc, 2)?;
    let mut count = 0u32;
    for text in POSTS.iter() {
        let inst = instance_in(alloc, text)?;
        assert_eq!(rt; ceiling(&inst, &gone), count, "of {count} posts");
        count = count.saturating_add(1);
    }
    let inst = instance_in(alloc, POSTS[2])?;
    gone.mark(PairNo(2), RowNo(6));
    assert_eq!(rt; ceiling(&inst, &gone), 1);
    gone.mark(PairNo(1), RowNo(7));
    assert_eq!(rt; ceiling(&inst, &gone), 0);
    Ok(())
}

// What is written for the bound row where no pair is deleted, and its number.
fn bound_of(alloc: Global, inst: &Instance) -> Result<(Vec<u8>, Option<RowNo>), Fail> {
    let model = Model::of(alloc, inst)?;
    let mut deriv = Derivation::new(alloc, &model)?;
    if deriv.next() > 1_000_000 {
        return Err(Fail::from(NoMemory));
    }
    let gone = Deleted::new(alloc, inst.pairs())?;
    let id = derive_bound(alloc, inst, &model, &gone, &mut deriv)?;
    let mut text = Vec::new(alloc);
    text.extend_from_slice(deriv.pending())?;
    Ok((text, id))
}

#[test]
fn adds_rows_by_the_smaller_count(rt: HostRuntime) -> Result<(), Fail> {
    let alloc = rt.alloc();
    let by_hospital = b"pseudo-Boolean proof version 2.0\nf 5\npol 3\n* note bound 6\n";
    let by_residents = b"pseudo-Boolean proof version 2.0\nf 5\npol 1 2 +\n* note bound 6\n";
    let (text, id) = bound_of(alloc, &instance_in(alloc, POSTS[1])?)?;
    assert_eq!(rt; text.as_slice(), by_hospital.as_slice());
    assert_eq!(rt; id, Some(RowNo(6)));
    let (text, id) = bound_of(alloc, &instance_in(alloc, POSTS[2])?)?;
    assert_eq!(rt; text.as_slice(), by_residents.as_slice());
    assert_eq!(rt; id, Some(RowNo(6)));
    Ok(())
}

#[test]
fn bounds_are_accepted(rt: HostRuntime) -> Result<(), Fail> {
    let alloc = rt.alloc();
    for number in 0..400 {
        let text = instance_of(number).text(alloc)?;
        let inst = instance_in(alloc, &text)?;
        let mut host = MemoryHost::new(alloc);
        host.give_room(Port::Model, "m", 10_000)?;
        host.give_room(Port::Proof, "p", 10_000)?;
        host.begin_write(Port::Model, "m")?;
        host.begin_write(Port::Proof, "p")?;
        let end = bound(alloc, &inst, &mut host)?;
        assert_eq!(rt;
            claim_of(alloc, &inst, host.sent(Port::Proof))?,
            Claim::Bounds {
                lower: Some(-i128::from(end.ceiling)),
                upper: None,
            },
            "of instance {number}"
        );
    }
    Ok(())
}
