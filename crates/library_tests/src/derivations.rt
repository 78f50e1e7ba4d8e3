//! The proof of an instance worked by hand: a matching of two pairs, and no larger one.
ghost use Rattle.std.specs.Prelude.{◌≡◌, ◌<◌, IfOk, None};
ghost use Rattle.hrt_host.specs.Memory.{memory_world};
ghost use Rattle.library_tests.specs.Worked.{bounded, solved, tied};

use crate::instances::tied;
use derivation::Derivation;
use hrt_base::{Begun, Host, Port, RowNo};
use hrt_host::MemoryHost;
use proof_lines::{Claim, PolStep};
use stability_model::Model;
use std::alloc::Global;
use std::test::Fail;

// The first two lines, and the row that there are at most two pairs.
fn bounded<'a>(alloc: Global, model: &Model<'a>) -> Result<Derivation<'a>, Fail>
    requires { model.now ≡ tied }
    ensures lists { IfOk result (λ d. d.lists ≡ tied) }
    ensures state { IfOk result (λ d. d.state ≡ bounded) }
    ensures open { IfOk result (λ d. d.claim ≡ None) }
{
    let steps = [PolStep::Id(RowNo(1)), PolStep::Id(RowNo(2)), PolStep::Add];
    let mut deriv = Derivation::new(alloc, model)?;
    deriv.pol(alloc, model, &steps)?;
    Ok(deriv)
}

// The same, and the matching of the second and the third pair.
fn solved<'a>(alloc: Global, model: &Model<'a>) -> Result<Derivation<'a>, Fail>
    requires { model.now ≡ tied }
    ensures lists { IfOk result (λ d. d.lists ≡ tied) }
    ensures state { IfOk result (λ d. d.state ≡ solved) }
    ensures open { IfOk result (λ d. d.claim ≡ None) }
{
    let mut deriv = bounded(alloc, model)?;
    deriv.solution(alloc, model, &[false, true, true])?;
    Ok(deriv)
}

// The whole proof, which was not sent yet.
fn concluded<'a>(alloc: Global, model: &Model<'a>) -> Result<Derivation<'a>, Fail>
    requires { model.now ≡ tied }
{
    let mut deriv = solved(alloc, model)?;
    let claim = Claim::Bounds {
        lower: Some(-2),
        upper: Some(-2),
    };
    deriv.conclude(alloc, model, claim)?;
    Ok(deriv)
}

const PROOF: &[u8] =
    b"pseudo-Boolean proof version 2.0\nf 7\npol 1 2 +\nsoli ~x1 x2 x3\noutput NONE\nconclusion BOUNDS -2 -2\nend pseudo-Boolean proof\n";

#[test]
fn appends_each_line(rt: HostRuntime) -> Result<(), Fail> {
    let alloc = rt.alloc();
    let inst = tied(alloc)?;
    let model = Model::of(alloc, &inst)?;
    let deriv = concluded(alloc, &model)?;
    assert_eq!(rt; deriv.pending(), PROOF);
    Ok(())
}

#[test]
fn copies_a_live_row(rt: HostRuntime) -> Result<(), Fail> {
    let alloc = rt.alloc();
    let inst = tied(alloc)?;
    let model = Model::of(alloc, &inst)?;
    let deriv = bounded(alloc, &model)?;
    let row = deriv.row(alloc, &model, RowNo(8))?;
    assert_eq!(rt; row.degree(), 1);
    assert_eq!(rt; row.terms().len(), 3);
    Ok(())
}

// A host in memory with a proof that is being written, in pieces of so many bytes.
fn host_of(alloc: Global, piece: usize) -> Result<MemoryHost, Fail>
    requires { 0 < piece }
    ensures { IfOk result (λ host. (memory_world host).begun Port.Proof ≡ Begun.Writing) }
{
    let mut host = MemoryHost::new(alloc);
    host.give_room(Port::Proof, "proof", 200)?;
    host.piece(piece);
    host.begin_write(Port::Proof, "proof")?;
    Ok(host)
}

#[test]
fn is_sent_in_pieces(rt: HostRuntime) -> Result<(), Fail> {
    let alloc = rt.alloc();
    let inst = tied(alloc)?;
    let model = Model::of(alloc, &inst)?;
    for piece in [1, 7, 16] {
        let mut deriv = concluded(alloc, &model)?;
        let mut host = host_of(alloc, piece)?;
        deriv.send(&mut host)?;
        assert_eq!(rt; host.sent(Port::Proof), PROOF, "in pieces of {piece}");
        assert_eq!(rt; deriv.pending().len(), 0);
    }
    Ok(())
}
