// What proofs are judged as.
ghost use Rattle.std.specs.Prelude.{◌+◌, ◌<◌, ◌≤◌, IfOk, IsTrue, OnOk, length};
ghost use Rattle.opb_text.specs.Limits.{IsWithinLimits};
ghost use Rattle.proof_checker.specs.Limits.{most_proof_bytes};
ghost use Rattle.proof_checker.specs.Standing.{is_open};

use hrt_base::NoMemory;
use opb_text::{Formula, OpbRefusal, read_opb};
use proof_checker::{Checker, ProofRefusal};
use proof_lines::Claim;
use std::alloc::Global;

/// More bytes than any proof here has.
pub const MOST_BYTES: usize = 100_000_000;

/// Three variables, and two rows.
pub const FREE: &[u8] = b"min: +1 x1 +1 x2 +1 x3 ;\n+1 x1 +1 x2 >= 1 ;\n+1 x2 +1 x3 >= 1 ;\n";

/// Its row has the terms of the objective; propagation alone gives no bound.
pub const BOUNDED: &[u8] = b"min: +1 x1 +1 x2 +1 x3 ;\n+1 x1 +1 x2 +1 x3 >= 2 ;\n";

/// No point satisfies its rows.
pub const CLASHING: &[u8] = b"min: +1 x1 ;\n+1 x1 >= 1 ;\n+1 ~x1 >= 1 ;\n";

// A model that is read.
fn read(alloc: Global, text: &[u8]) -> Result<Formula, OpbRefusal>
    ensures { IfOk result IsWithinLimits }
{
    if text.len() > MOST_BYTES {
        return Err(OpbRefusal::NoMemory);
    }
    read_opb(alloc, text)
}

// Feeds a proof in pieces of so many bytes; the last one may have fewer.
fn feed_pieces(
    alloc: Global,
    checker: &mut Checker,
    proof: &[u8],
    piece: usize,
) -> Result<(), ProofRefusal>
    requires some { 0 < piece }
    requires open { IsTrue (is_open checker.old.phase) }
    requires few { length checker.old.bytes + length proof.now ≤ most_proof_bytes }
    ensures { OnOk result (IsTrue (is_open checker.new.phase)) }
{
    let mut left = proof;
    while left.len() > piece {
        let (first, behind) = left.split_at(piece);
        checker.feed(alloc, first)?;
        left = behind;
    }
    checker.feed(alloc, left)?;
    Ok(())
}

/// What a proof is judged as, fed in pieces of so many bytes.
pub fn judged(
    alloc: Global,
    formula: &[u8],
    proof: &[u8],
    piece: usize,
) -> Result<Claim, ProofRefusal> {
    if piece == 0 || proof.len() > MOST_BYTES {
        return Err(ProofRefusal::NoMemory);
    }
    let Ok(formula) = read(alloc, formula) else {
        return Err(ProofRefusal::NoMemory);
    };
    let Ok(mut checker) = Checker::new(alloc, formula) else {
        return Err(ProofRefusal::NoMemory);
    };
    feed_pieces(alloc, &mut checker, proof, piece)?;
    checker.finish(alloc)
}

// A proof with these lines before its output line, and this claim.
fn proof_of(alloc: Global, lines: &[u8], claim: &[u8]) -> Result<Vec<u8>, NoMemory> {
    let mut proof = Vec::new(alloc);
    proof.extend_from_slice(b"pseudo-Boolean proof version 2.0\n")?;
    proof.extend_from_slice(lines)?;
    proof.extend_from_slice(b"output NONE\nconclusion ")?;
    proof.extend_from_slice(claim)?;
    proof.extend_from_slice(b"\nend pseudo-Boolean proof\n")?;
    Ok(proof)
}

/// What such a proof is judged as.
pub fn concluded(
    alloc: Global,
    formula: &[u8],
    lines: &[u8],
    claim: &[u8],
) -> Result<Claim, ProofRefusal> {
    let Ok(proof) = proof_of(alloc, lines, claim) else {
        return Err(ProofRefusal::NoMemory);
    };
    judged(alloc, formula, &proof, MOST_BYTES)
}

/// Why a proof of the first formula with these steps, the first of which is line 3, is refused.
pub fn refusal(alloc: Global, steps: &[u8]) -> Option<ProofRefusal> {
    let mut lines = Vec::new(alloc);
    let Ok(()) = lines.extend_from_slice(b"f 2\n") else {
        return Some(ProofRefusal::NoMemory);
    };
    let Ok(()) = lines.extend_from_slice(steps) else {
        return Some(ProofRefusal::NoMemory);
    };
    concluded(alloc, FREE, &lines, b"NONE").err()
}

/// The claim of these bounds.
pub fn bounds(lower: Option<i128>, upper: Option<i128>) -> Result<Claim, ProofRefusal> {
    Ok(Claim::Bounds { lower, upper })
}
