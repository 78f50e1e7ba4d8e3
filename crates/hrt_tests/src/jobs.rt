//! Models and proofs that are written without a search, over a host in memory.
ghost use Rattle.std.specs.Prelude.{◌≡◌, ◌<◌, IfOk};
ghost use Rattle.hrt_host.specs.Memory.{memory_world};

use crate::models::WORKED_MODEL;
use crate::runs::{WORKED, verify};
use hrt_base::{Begun, Host, PairNo, Port};
use hrt_host::MemoryHost;
use hrt_reader::read_instance;
use hrt_solve::{bound, quick};
use std::alloc::Global;
use std::process::Abort;
use std::test::Fail;

/// The first matching is smaller than the ceiling.
pub const OPEN: &[u8] =
    b"hrt 1\nresident a: (x y) z\nresident b: (x y)\nresident c: x\nhospital x 1: (a b) c\nhospital y 1: (a b)\nhospital z 1: a\nend\n";

/// As the worked instance, but x ranks a above b.
pub const STRICT: &[u8] =
    b"hrt 1\nresident a: x y\nresident b: x\nhospital x 1: a b\nhospital y 1: a\nend\n";

/// The proof of the worked instance's bound.
pub const BOUND_PROOF: &[u8] =
    b"pseudo-Boolean proof version 2.0\nf 7\npol 1 2 +\n* note bound 8\noutput NONE\nconclusion BOUNDS -2 INF\nend pseudo-Boolean proof\n";

/// The proof of the worked instance's bound and of its best matching.
pub const QUICK_PROOF: &[u8] =
    b"pseudo-Boolean proof version 2.0\nf 7\npol 1 2 +\n* note bound 8\nsoli ~x1 x2 x3\npol 8 9 +\noutput NONE\nconclusion BOUNDS -2 -2\nend pseudo-Boolean proof\n";

// Two begin to write, nine lines of the model, its seal, the proof and its seal.
const CALLS: u64 = 14;

/// No resident and no hospital.
pub const EMPTY: &[u8] = b"hrt 1\nend\n";

/// A hospital without a post.
pub const NO_POST: &[u8] = b"hrt 1\nresident a: x\nresident b: x\nhospital x 0: a b\nend\n";

/// Two pairs are deleted, and the first matching is best.
pub const TOWN: &[u8] =
    b"hrt 1\nresident anna: General City\nresident ben: City General\nresident cleo: General\nresident dan: (City General)\nhospital General 2: anna (ben cleo) dan\nhospital City 1: (anna ben dan)\nend\n";

// A host on which a model and a proof are being written, whose calls move at most so many bytes and of which this one fails.
fn writing(alloc: Global, most: usize, failing: u64) -> Result<MemoryHost, Fail>
    requires { 0 < most }
    ensures model { IfOk result (λ host. (memory_world host).begun Port.Model ≡ Begun.Writing) }
    ensures proof { IfOk result (λ host. (memory_world host).begun Port.Proof ≡ Begun.Writing) }
{
    let mut host = MemoryHost::new(alloc);
    host.give_room(Port::Model, "m", 10_000)?;
    host.give_room(Port::Proof, "p", 10_000)?;
    host.piece(most);
    host.fail_at(failing)?;
    host.begin_write(Port::Model, "m")?;
    host.begin_write(Port::Proof, "p")?;
    Ok(host)
}

#[test]
fn worked_ends(rt: HostRuntime) -> Result<(), Fail> {
    let alloc = rt.alloc();
    let cases: [(&[u8], u32, u32, &[u32]); 6] = [
        (WORKED, 0, 2, &[2, 3]),
        (STRICT, 2, 1, &[1]),
        (OPEN, 0, 3, &[1, 5]),
        (EMPTY, 0, 0, &[]),
        (NO_POST, 2, 0, &[]),
        (TOWN, 2, 3, &[1, 4, 6]),
    ];
    for (text, deleted, ceiling, pairs) in cases.iter() {
        let inst = read_instance(alloc, text)?;
        let mut host = writing(alloc, 1_000, 1_000_000)?;
        let end = quick(alloc, &inst, &mut host)?;
        assert_eq!(rt; end.deleted, *deleted);
        assert_eq!(rt; end.ceiling, *ceiling);
        assert_eq!(rt; end.first as usize, pairs.len());
        assert_eq!(rt; end.conflicts, 0);
        assert_eq!(rt; end.best, end.first == end.ceiling);
        assert_eq!(rt; end.pairs.len(), pairs.len());
        for (k, p) in pairs.iter().enumerate() {
            assert_eq!(rt; end.pairs.get(k), Some(&PairNo(*p)));
        }
    }
    Ok(())
}

#[test]
fn worked_proofs(rt: HostRuntime) -> Result<(), Fail> {
    let alloc = rt.alloc();
    let cases: [(&[u8], &[u8]); 3] = [
        (WORKED, QUICK_PROOF),
        (
            OPEN,
            b"pseudo-Boolean proof version 2.0\nf 12\npol 1 2 + 3 +\n* note bound 13\nsoli x1 ~x2 ~x3 ~x4 x5 ~x6\noutput NONE\nconclusion BOUNDS -3 -2\nend pseudo-Boolean proof\n",
        ),
        (
            EMPTY,
            b"pseudo-Boolean proof version 2.0\nf 0\nsoli\noutput NONE\nconclusion BOUNDS 0 0\nend pseudo-Boolean proof\n",
        ),
    ];
    for (text, proof) in cases.iter() {
        let inst = read_instance(alloc, text)?;
        let mut host = writing(alloc, 16, 1_000_000)?;
        quick(alloc, &inst, &mut host)?;
        assert_eq!(rt; host.file("p"), Some(*proof));
    }
    Ok(())
}

#[test]
fn worked_bound(rt: HostRuntime) -> Result<(), Fail> {
    let alloc = rt.alloc();
    let inst = read_instance(alloc, WORKED)?;
    let mut host = writing(alloc, 16, 1_000_000)?;
    let end = bound(alloc, &inst, &mut host)?;
    assert_eq!(rt; end.deleted, 0);
    assert_eq!(rt; end.ceiling, 2);
    assert_eq!(rt; host.file("p"), Some(BOUND_PROOF));
    Ok(())
}

#[test]
fn proofs_are_accepted(rt: HostRuntime) -> Result<(), Fail> {
    let alloc = rt.alloc();
    let cases: [(&[u8], &[u8], &[u8]); 6] = [
        (
            WORKED,
            b"accepted\nbound 2\nfound 2\n",
            b"accepted\nbound 2\nfound none\n",
        ),
        (
            STRICT,
            b"accepted\nbound 1\nfound 1\n",
            b"accepted\nbound 1\nfound none\n",
        ),
        (
            OPEN,
            b"accepted\nbound 3\nfound 2\n",
            b"accepted\nbound 3\nfound none\n",
        ),
        (
            EMPTY,
            b"accepted\nbound 0\nfound 0\n",
            b"accepted\nbound 0\nfound none\n",
        ),
        (
            NO_POST,
            b"accepted\nbound 0\nfound 0\n",
            b"accepted\nbound 0\nfound none\n",
        ),
        (
            TOWN,
            b"accepted\nbound 3\nfound 3\n",
            b"accepted\nbound 3\nfound none\n",
        ),
    ];
    for (text, quickly, bounded) in cases.iter() {
        let inst = read_instance(alloc, text)?;
        let mut host = writing(alloc, 1_000, 1_000_000)?;
        quick(alloc, &inst, &mut host)?;
        let ended = verify(alloc, text, host.sent(Port::Proof))?;
        assert_eq!(rt; ended.code, 0);
        assert_eq!(rt; ended.host.sent(Port::Report), *quickly);
        let mut host = writing(alloc, 1_000, 1_000_000)?;
        bound(alloc, &inst, &mut host)?;
        let ended = verify(alloc, text, host.sent(Port::Proof))?;
        assert_eq!(rt; ended.code, 0);
        assert_eq!(rt; ended.host.sent(Port::Report), *bounded);
    }
    Ok(())
}

// After a call that failed, the files of the worked instance are fronts, and nothing of the proof was sent before the whole model.
fn leaves_fronts(rt: &impl Abort, host: &MemoryHost, proof: &[u8]) {
    let model = host.sent(Port::Model);
    let lines = host.sent(Port::Proof);
    assert!(rt; WORKED_MODEL.starts_with(model));
    assert!(rt; proof.starts_with(lines));
    assert!(rt; lines.is_empty() || model == WORKED_MODEL);
}

#[test]
fn each_call_of_a_bound_fails_in_turn(rt: HostRuntime) -> Result<(), Fail> {
    let alloc = rt.alloc();
    let inst = read_instance(alloc, WORKED)?;
    for failing in 3..CALLS + 2 {
        let mut host = writing(alloc, 1_000, failing)?;
        assert_eq!(rt; bound(alloc, &inst, &mut host).is_err(), failing <= CALLS);
        leaves_fronts(&rt, &host, BOUND_PROOF);
    }
    Ok(())
}

#[test]
fn each_call_of_a_quick_solve_fails_in_turn(rt: HostRuntime) -> Result<(), Fail> {
    let alloc = rt.alloc();
    let inst = read_instance(alloc, WORKED)?;
    for failing in 3..CALLS + 2 {
        let mut host = writing(alloc, 1_000, failing)?;
        assert_eq!(rt; quick(alloc, &inst, &mut host).is_err(), failing <= CALLS);
        leaves_fronts(&rt, &host, QUICK_PROOF);
    }
    Ok(())
}
