// Proofs in pieces.

use crate::verdicts::{FREE, MOST_BYTES, bounds, judged};
use proof_checker::ProofRefusal;

#[test]
fn the_worked_proof_in_pieces(rt: HostRuntime) {
    let model =
        b"* #variable= 3 #constraint= 7\nmin: -1 x1 -1 x2 -1 x3 ;\n-1 x1 -1 x2 >= -1 ;\n-1 x3 >= -1 ;\n-1 x1 -1 x3 >= -1 ;\n-1 x2 >= -1 ;\n+2 x1 +1 x3 >= 1 ;\n+1 x1 +2 x2 >= 1 ;\n+1 x1 +2 x3 >= 1 ;\n";
    let proof =
        b"pseudo-Boolean proof version 2.0\nf 7\npol 1 2 +\nsoli ~x1 x2 x3\noutput NONE\nconclusion BOUNDS -2 -2\nend pseudo-Boolean proof\n";
    for piece in [1, 3, 4096, MOST_BYTES] {
        assert_eq!(rt;
            judged(rt.alloc(), model, proof, piece),
            bounds(Some(-2), Some(-2)),
            "in pieces of {piece}"
        );
    }
}

#[test]
fn a_refused_proof_in_pieces(rt: HostRuntime) {
    let proof = b"pseudo-Boolean proof version 2.0\nf 2\npol 1 2 +\npol 9\noutput NONE\nwhat\n";
    for piece in [1, 3, 4096, MOST_BYTES] {
        assert_eq!(rt;
            judged(rt.alloc(), FREE, proof, piece),
            Err(ProofRefusal::BadId(4, 9)),
            "in pieces of {piece}"
        );
    }
}
