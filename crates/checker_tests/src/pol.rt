// Lines that make a row by steps.

use crate::verdicts::refusal;
use proof_checker::ProofRefusal;

#[test]
fn the_spelling_of_pol_lines(rt: HostRuntime) {
    let cases: [(&[u8], Option<ProofRefusal>); 15] = [
        (b"pol 1 2 + 2 * 2 d x1 w s\n", None),
        // tokens are parted by blanks
        (b"pol 1 2+\n", Some(ProofRefusal::Syntax(3))),
        (b"pol 1 2 +s\n", Some(ProofRefusal::Syntax(3))),
        (b"pol 1 2*\n", Some(ProofRefusal::Syntax(3))),
        // what stands before a factor's sign
        (b"pol 1 x1 *\n", Some(ProofRefusal::Syntax(3))),
        (b"pol 1 s d\n", Some(ProofRefusal::Syntax(3))),
        // what stands before `w`
        (b"pol 1 ~x1 w\n", Some(ProofRefusal::Syntax(3))),
        (b"pol 1 2 w\n", Some(ProofRefusal::Syntax(3))),
        // those signs begin the steps, or follow a finished step
        (b"pol *\n", Some(ProofRefusal::Syntax(3))),
        (b"pol d\n", Some(ProofRefusal::Syntax(3))),
        (b"pol w\n", Some(ProofRefusal::Syntax(3))),
        (b"pol 1 2 * *\n", Some(ProofRefusal::Syntax(3))),
        (b"pol 1 x1 w w\n", Some(ProofRefusal::Syntax(3))),
        (b"pol\n", Some(ProofRefusal::Syntax(3))),
        // a factor without a row
        (b"pol 1 *\n", Some(ProofRefusal::StackShape(3))),
    ];
    for (steps, wanted) in cases.iter() {
        assert_eq!(rt; refusal(rt.alloc(), steps), *wanted, "{steps:?}");
    }
}

#[test]
fn the_steps_of_pol_lines(rt: HostRuntime) {
    let cases: [(&[u8], Option<ProofRefusal>); 11] = [
        // from left to right
        (b"pol 9 x4 +\n", Some(ProofRefusal::BadId(3, 9))),
        (b"pol x4 9 +\n", Some(ProofRefusal::BadVariable(3, 4))),
        (b"pol + 9 x4\n", Some(ProofRefusal::StackShape(3))),
        (
            b"pol 1 664613997892457936451903530140172288 * 4 * 9\n",
            Some(ProofRefusal::TooBig(3)),
        ),
        // the variable comes before the lack of a row
        (b"pol x4 w\n", Some(ProofRefusal::BadVariable(3, 4))),
        (b"pol x3 w\n", Some(ProofRefusal::StackShape(3))),
        // one row is left
        (b"pol 1 2\n", Some(ProofRefusal::StackShape(3))),
        (b"pol 1 2 + 2\n", Some(ProofRefusal::StackShape(3))),
        // the new row is the next one
        (b"pol 1 2 +\npol 3\n", None),
        (b"pol 1 2 +\npol 4\n", Some(ProofRefusal::BadId(4, 4))),
        // a written number comes before all steps
        (
            b"pol x4 9 + 1329227995784915872903807060280344577 d\n",
            Some(ProofRefusal::TooBig(3)),
        ),
    ];
    for (steps, wanted) in cases.iter() {
        assert_eq!(rt; refusal(rt.alloc(), steps), *wanted, "{steps:?}");
    }
}

// Variables that are weakened one behind the other are taken in one pass.
#[test]
fn runs_of_weakenings(rt: HostRuntime) {
    let cases: [(&[u8], Option<ProofRefusal>); 7] = [
        (b"pol 1 x1 w x2 w x3 w x1 w\n", None),
        // the first variable that is none, and what follows it
        (
            b"pol 1 x1 w x4 w x5 w\n",
            Some(ProofRefusal::BadVariable(3, 4)),
        ),
        (b"pol 1 x1 w x2 w 9 +\n", Some(ProofRefusal::BadId(3, 9))),
        // each row of the stack is weakened by its own
        (b"pol 1 x1 w 2 x3 w\n", Some(ProofRefusal::StackShape(3))),
        (b"pol 1 x1 w 2 x3 w +\ndel id 3\n", None),
        // what is left of 1 x1 + 2 x2 + 1 x3 >= 2 asks for x2, and of each of its rows alone for nothing
        (b"pol 1 2 + x1 w x3 w s\nrup +1 x2 >= 0 ;\n", None),
        (
            b"pol 1 x1 w 2 x3 w +\nrup +1 x2 >= 1 ;\n",
            Some(ProofRefusal::NotImplied(4)),
        ),
    ];
    for (steps, wanted) in cases.iter() {
        assert_eq!(rt; refusal(rt.alloc(), steps), *wanted, "{steps:?}");
    }
}
