// What stands in a line, and in which order it is looked at.

use crate::verdicts::refusal;
use proof_checker::ProofRefusal;

#[test]
fn the_order_inside_a_line(rt: HostRuntime) {
    let cases: [(&[u8], Option<ProofRefusal>); 6] = [
        // no spelling, before a number that is too big
        (
            b"rup +1329227995784915872903807060280344577 x1 >= 0\n",
            Some(ProofRefusal::Syntax(3)),
        ),
        // out of order, before a number that is too big
        (
            b"conclusion BOUNDS 1329227995784915872903807060280344577 INF\n",
            Some(ProofRefusal::Syntax(3)),
        ),
        (
            b"output NONE\nrup +1329227995784915872903807060280344577 x1 >= 0 ;\n",
            Some(ProofRefusal::Syntax(4)),
        ),
        // a number that is too big, before the rest
        (
            b"pol 9 1329227995784915872903807060280344577 *\n",
            Some(ProofRefusal::TooBig(3)),
        ),
        (
            b"rup +1329227995784915872903807060280344577 x1 +1 x4 >= 0 ;\n",
            Some(ProofRefusal::TooBig(3)),
        ),
        // out of order, before the rest
        (b"f 3\n", Some(ProofRefusal::Syntax(3))),
    ];
    for (steps, wanted) in cases.iter() {
        assert_eq!(rt; refusal(rt.alloc(), steps), *wanted, "{steps:?}");
    }
}

#[test]
fn numbers(rt: HostRuntime) {
    let cases: [(&[u8], Option<ProofRefusal>); 10] = [
        (b"rup +0 x3 -0 x3 +007 x1 7 x2 >= +007 ;\n", None),
        (b"rup +1 x1 >= -00 ;\n", None),
        (
            b"pol 1 0000000000000000000000000000000000000000000000000002 * 2 d\n",
            None,
        ),
        (b"pol 1 +2 * 007 d\n", None),
        (
            b"pol 1 1329227995784915872903807060280344577 d\n",
            Some(ProofRefusal::TooBig(3)),
        ),
        (b"pol 1 0 *\n", Some(ProofRefusal::Syntax(3))),
        (b"pol 1 -0 d\n", Some(ProofRefusal::Syntax(3))),
        (b"pol 1 +000 *\n", Some(ProofRefusal::Syntax(3))),
        (b"pol 1 -1 *\n", Some(ProofRefusal::Syntax(3))),
        (
            b"pol 1 -1329227995784915872903807060280344577 *\n",
            Some(ProofRefusal::Syntax(3)),
        ),
    ];
    for (steps, wanted) in cases.iter() {
        assert_eq!(rt; refusal(rt.alloc(), steps), *wanted, "{steps:?}");
    }
}

#[test]
fn row_numbers(rt: HostRuntime) {
    let cases: [(&[u8], Option<ProofRefusal>); 9] = [
        (
            b"pol 999999999999999999\n",
            Some(ProofRefusal::BadId(3, 999_999_999_999_999_999)),
        ),
        (b"pol 1000000000000000000\n", Some(ProofRefusal::Syntax(3))),
        (b"pol 0\n", Some(ProofRefusal::Syntax(3))),
        (b"pol 01\n", Some(ProofRefusal::Syntax(3))),
        (b"pol +1\n", Some(ProofRefusal::Syntax(3))),
        (b"del id 0\n", Some(ProofRefusal::Syntax(3))),
        (b"del id 01\n", Some(ProofRefusal::Syntax(3))),
        (
            b"del id 1 9999999999999999999999999999999999999999999999999999\n",
            Some(ProofRefusal::Syntax(3)),
        ),
        (b"del id 2 1 9 1\n", Some(ProofRefusal::BadId(3, 9))),
    ];
    for (steps, wanted) in cases.iter() {
        assert_eq!(rt; refusal(rt.alloc(), steps), *wanted, "{steps:?}");
    }
}

#[test]
fn literals(rt: HostRuntime) {
    let cases: [(&[u8], Option<ProofRefusal>); 9] = [
        (b"pol ~x3\n", None),
        (b"pol x0\n", Some(ProofRefusal::Syntax(3))),
        (b"pol x01\n", Some(ProofRefusal::Syntax(3))),
        (b"pol ~ x1\n", Some(ProofRefusal::Syntax(3))),
        (b"pol ~~x1\n", Some(ProofRefusal::Syntax(3))),
        (b"pol X1\n", Some(ProofRefusal::Syntax(3))),
        (
            b"pol x4294967295\n",
            Some(ProofRefusal::BadVariable(3, 4_294_967_295)),
        ),
        (
            b"soli x4294967297\n",
            Some(ProofRefusal::BadVariable(3, 4_294_967_295)),
        ),
        (
            b"rup +1 ~x9999999999999999999999999999999999999999999999999999 >= 0 ;\n",
            Some(ProofRefusal::BadVariable(3, 4_294_967_295)),
        ),
    ];
    for (steps, wanted) in cases.iter() {
        assert_eq!(rt; refusal(rt.alloc(), steps), *wanted, "{steps:?}");
    }
}
