// What a proof concludes.

use crate::verdicts::{BOUNDED, CLASHING, FREE, bounds, concluded};
use proof_checker::ProofRefusal;
use proof_lines::Claim;

#[test]
fn conclusions_without_a_solution(rt: HostRuntime) {
    let cases: [(&[u8], Result<Claim, ProofRefusal>); 13] = [
        (b"NONE", Ok(Claim::Nothing)),
        (b"BOUNDS -INF INF", bounds(None, None)),
        (b"BOUNDS +01 INF", bounds(Some(1), None)),
        (b"BOUNDS -0 INF", bounds(Some(0), None)),
        (b"BOUNDS 2 INF", Err(ProofRefusal::BoundNotShown(4))),
        // no solution was logged
        (b"BOUNDS -INF 3", Err(ProofRefusal::BoundNotShown(4))),
        (b"UNSAT", Err(ProofRefusal::BoundNotShown(4))),
        // what isn't spelled so
        (b"BOUNDS INF INF", Err(ProofRefusal::Syntax(4))),
        (b"BOUNDS -INF -INF", Err(ProofRefusal::Syntax(4))),
        (b"BOUNDS -INF +INF", Err(ProofRefusal::Syntax(4))),
        // numbers that are too big
        (
            b"BOUNDS -1329227995784915872903807060280344577 INF",
            Err(ProofRefusal::TooBig(4)),
        ),
        (
            b"BOUNDS -INF 1329227995784915872903807060280344577",
            Err(ProofRefusal::TooBig(4)),
        ),
        // less than the objective can be
        (
            b"BOUNDS -1329227995784915872903807060280344576 INF",
            bounds(Some(-1329227995784915872903807060280344576), None),
        ),
    ];
    for (claim, wanted) in cases.iter() {
        assert_eq!(rt;
            concluded(rt.alloc(), FREE, b"f 2\n", claim),
            *wanted,
            "{claim:?}"
        );
    }
}

#[test]
fn conclusions_with_solutions(rt: HostRuntime) {
    let lines = b"f 2\nsoli ~x1 x2 ~x3\nsoli x1 x2 ~x3\n";
    let cases: [(&[u8], Result<Claim, ProofRefusal>); 7] = [
        (b"BOUNDS 1 1", bounds(Some(1), Some(1))),
        (b"BOUNDS 0 2", bounds(Some(0), Some(2))),
        (b"BOUNDS -INF 0", Err(ProofRefusal::BoundNotShown(6))),
        // the rows are refuted, and yet a solution has less
        (b"BOUNDS 2 INF", Err(ProofRefusal::BoundNotShown(6))),
        (b"BOUNDS 2 1", Err(ProofRefusal::BoundNotShown(6))),
        (b"UNSAT", Err(ProofRefusal::BoundNotShown(6))),
        (
            b"BOUNDS 1329227995784915872903807060280344576 INF",
            Err(ProofRefusal::BoundNotShown(6)),
        ),
    ];
    for (claim, wanted) in cases.iter() {
        assert_eq!(rt;
            concluded(rt.alloc(), FREE, lines, claim),
            *wanted,
            "{claim:?}"
        );
    }
}

#[test]
fn a_live_row_with_the_terms(rt: HostRuntime) {
    let cases: [(&[u8], &[u8], Result<Claim, ProofRefusal>); 6] = [
        (b"f 1\n", b"BOUNDS 2 INF", bounds(Some(2), None)),
        (b"f 1\n", b"BOUNDS 1 INF", bounds(Some(1), None)),
        (
            b"f 1\n",
            b"BOUNDS 3 INF",
            Err(ProofRefusal::BoundNotShown(4)),
        ),
        (
            b"f 1\ndel id 1\n",
            b"BOUNDS 2 INF",
            Err(ProofRefusal::BoundNotShown(5)),
        ),
        (
            b"f 1\npol 1\ndel id 1\n",
            b"BOUNDS 2 INF",
            bounds(Some(2), None),
        ),
        (
            b"f 1\npol 1 2 *\ndel id 1\n",
            b"BOUNDS 2 INF",
            Err(ProofRefusal::BoundNotShown(6)),
        ),
    ];
    for (lines, claim, wanted) in cases.iter() {
        assert_eq!(rt;
            concluded(rt.alloc(), BOUNDED, lines, claim),
            *wanted,
            "{lines:?} {claim:?}"
        );
    }
}

#[test]
fn rows_that_no_point_satisfies(rt: HostRuntime) {
    let cases: [(&[u8], &[u8], Result<Claim, ProofRefusal>); 5] = [
        (b"f 2\n", b"UNSAT", Ok(Claim::Unsat)),
        (
            b"f 2\nrup +1 x1 >= 5 ;\n",
            b"BOUNDS 5 INF",
            bounds(Some(5), None),
        ),
        (
            b"f 2\n",
            b"BOUNDS 1329227995784915872903807060280344576 INF",
            bounds(Some(1329227995784915872903807060280344576), None),
        ),
        (
            b"f 2\n",
            b"BOUNDS -INF 1",
            Err(ProofRefusal::BoundNotShown(4)),
        ),
        (
            b"f 2\ndel id 2\n",
            b"UNSAT",
            Err(ProofRefusal::BoundNotShown(5)),
        ),
    ];
    for (lines, claim, wanted) in cases.iter() {
        assert_eq!(rt;
            concluded(rt.alloc(), CLASHING, lines, claim),
            *wanted,
            "{lines:?} {claim:?}"
        );
    }
}

// The row of its solution fits in no written row.
#[test]
fn the_greatest_objective(rt: HostRuntime) {
    let formula = b"min: -664613997892457936451903530140172288 x1 ;\n";
    let least = -664613997892457936451903530140172288;
    let claim =
        b"BOUNDS -664613997892457936451903530140172288 -664613997892457936451903530140172288";
    assert_eq!(rt;
        concluded(rt.alloc(), formula, b"f 0\nsoli x1\n", claim),
        bounds(Some(least), Some(least))
    );
}
