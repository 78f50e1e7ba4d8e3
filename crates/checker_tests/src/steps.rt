// Lines that claim a row, log a solution or delete rows.

use crate::verdicts::refusal;
use proof_checker::ProofRefusal;

#[test]
fn rup_lines(rt: HostRuntime) {
    let cases: [(&[u8], Option<ProofRefusal>); 15] = [
        // the first variable as written, also of a term that is worth nothing, before the sum
        (
            b"rup +0 x5 +1 x4 >= 0 ;\n",
            Some(ProofRefusal::BadVariable(3, 5)),
        ),
        (
            b"rup +1329227995784915872903807060280344576 x1 +1 x4 >= 0 ;\n",
            Some(ProofRefusal::BadVariable(3, 4)),
        ),
        // the right side counts
        (
            b"rup +1329227995784915872903807060280344576 x1 >= 1 ;\n",
            Some(ProofRefusal::TooBig(3)),
        ),
        (
            b"rup +1329227995784915872903807060280344576 x1 >= -1 ;\n",
            Some(ProofRefusal::TooBig(3)),
        ),
        (
            b"rup +1329227995784915872903807060280344575 x1 >= -1 ;\n",
            None,
        ),
        // the opposite needn't fit
        (
            b"rup +1329227995784915872903807060280344576 x1 >= 0 ;\n",
            None,
        ),
        // nor ask for less than nothing
        (b"rup +1 x1 >= 5 ;\n", Some(ProofRefusal::NotImplied(3))),
        // `;` is a token and the last one
        (b"rup +1 x1 +1 x2 >= 1;\n", None),
        (b"rup >= 0;\n", None),
        (b"rup +1 x1 +1 x2 >= 1\n", Some(ProofRefusal::Syntax(3))),
        (b"rup >= 0 ; x1\n", Some(ProofRefusal::Syntax(3))),
        (b"rup >= 0;;\n", Some(ProofRefusal::Syntax(3))),
        // which no other line has
        (b"pol 1 ;\n", Some(ProofRefusal::Syntax(3))),
        (b"soli ~x1 x2 ~x3 ;\n", Some(ProofRefusal::Syntax(3))),
        (b"del id 1;\n", Some(ProofRefusal::Syntax(3))),
    ];
    for (steps, wanted) in cases.iter() {
        assert_eq!(rt; refusal(rt.alloc(), steps), *wanted, "{steps:?}");
    }
}

#[test]
fn solutions_and_deletions(rt: HostRuntime) {
    let cases: [(&[u8], Option<ProofRefusal>); 12] = [
        // the variables, then whether each is named once, then the rows
        (
            b"soli x1 ~x1 x5 x4\n",
            Some(ProofRefusal::BadVariable(3, 5)),
        ),
        (b"soli ~x1 ~x2\n", Some(ProofRefusal::NotFull(3))),
        (b"soli x1 x2 x3 x2\n", Some(ProofRefusal::NotFull(3))),
        (b"soli x1 ~x1 x2\n", Some(ProofRefusal::NotFull(3))),
        (
            b"soli ~x3 ~x2 ~x1\n",
            Some(ProofRefusal::NotASolution(3, 1)),
        ),
        (b"soli x1 ~x2 ~x3\n", Some(ProofRefusal::NotASolution(3, 2))),
        // rows of the formula may be deleted; a solution still has to meet them
        (
            b"del id 2 1\nsoli ~x1 ~x2 ~x3\n",
            Some(ProofRefusal::NotASolution(4, 1)),
        ),
        (b"del id 1\npol 1\n", Some(ProofRefusal::BadId(4, 1))),
        (b"del id 1\ndel id 1\n", Some(ProofRefusal::BadId(4, 1))),
        (
            b"del id 1\nrup +1 x1 +1 x2 >= 1 ;\n",
            Some(ProofRefusal::NotImplied(4)),
        ),
        // the row of a solution asks for a smaller value
        (b"soli x3 x2 ~x1\nrup +1 ~x1 +1 ~x2 >= 1 ;\n", None),
        (
            b"soli x3 x2 ~x1\nrup +1 ~x2 >= 1 ;\n",
            Some(ProofRefusal::NotImplied(4)),
        ),
    ];
    for (steps, wanted) in cases.iter() {
        assert_eq!(rt; refusal(rt.alloc(), steps), *wanted, "{steps:?}");
    }
}
