// Lines in their places, and the last bytes.

use crate::verdicts::{FREE, MOST_BYTES, judged};
use proof_checker::ProofRefusal;
use std::alloc::Global;

#[test]
fn lines_in_their_places(rt: HostRuntime) {
    let cases: [(&[u8], Option<ProofRefusal>); 14] = [
        // blank lines and comments
        (
            b"pseudo-Boolean proof version 2.0\n\n* \xFF\x00 ;\nf 2\n*\n\noutput NONE\n \n*a\nconclusion NONE\n*\n\t\nend pseudo-Boolean proof\n\n \t\n",
            None,
        ),
        (
            b"\npseudo-Boolean proof version 2.0\n",
            Some(ProofRefusal::Syntax(1)),
        ),
        (
            b"* a\npseudo-Boolean proof version 2.0\n",
            Some(ProofRefusal::Syntax(1)),
        ),
        // blanks at both ends and between tokens
        (
            b" pseudo-Boolean\tproof  version 2.0 \n\tf  2\t\n  pol 1\t2  + \n soli  ~x1 x2 ~x3 \n\tdel  id\t1 \n rup  >=  0  ; \n output  NONE \n conclusion  BOUNDS -INF\tINF \n  * a \n end  pseudo-Boolean proof \n",
            None,
        ),
        // what is next
        (b"f 2\n", Some(ProofRefusal::Syntax(1))),
        (
            b"pseudo-Boolean proof version 2.0\npol 1\n",
            Some(ProofRefusal::Syntax(2)),
        ),
        (
            b"pseudo-Boolean proof version 2.0\nf 1\n",
            Some(ProofRefusal::WrongCount(2)),
        ),
        (
            b"pseudo-Boolean proof version 2.0\nf 02\n",
            Some(ProofRefusal::Syntax(2)),
        ),
        (
            b"pseudo-Boolean proof version 2.0\nf 2\nconclusion NONE\n",
            Some(ProofRefusal::Syntax(3)),
        ),
        (
            b"pseudo-Boolean proof version 2.0\nf 2\noutput NONE\npol 1\n",
            Some(ProofRefusal::Syntax(4)),
        ),
        (
            b"pseudo-Boolean proof version 2.0\nf 2\noutput NONE\nconclusion NONE\nconclusion NONE\n",
            Some(ProofRefusal::Syntax(5)),
        ),
        // behind the end line
        (
            b"pseudo-Boolean proof version 2.0\nf 2\noutput NONE\nconclusion NONE\nend pseudo-Boolean proof\n\n* a\n",
            Some(ProofRefusal::Syntax(7)),
        ),
        (
            b"pseudo-Boolean proof version 2.0\nf 2\noutput NONE\nconclusion NONE\nend pseudo-Boolean proof\nend pseudo-Boolean proof\n",
            Some(ProofRefusal::Syntax(6)),
        ),
        // a bad line, whatever comes behind it
        (
            b"pseudo-Boolean proof version 2.0\nf 2\nwhat\noutput NONE\nconclusion NONE\nend pseudo-Boolean proof\n",
            Some(ProofRefusal::Syntax(3)),
        ),
    ];
    for (proof, wanted) in cases.iter() {
        assert_eq!(rt;
            judged(rt.alloc(), FREE, proof, MOST_BYTES).err(),
            *wanted,
            "{proof:?}"
        );
    }
}

// Why a proof is refused that ends with this text, where its end line is due.
fn refusal_of_end(alloc: Global, end: &[u8]) -> Option<ProofRefusal> {
    let mut proof = Vec::new(alloc);
    let Ok(()) = proof.extend_from_slice(
        b"pseudo-Boolean proof version 2.0\r\nf 2\noutput NONE\nconclusion NONE\r\n",
    ) else {
        return Some(ProofRefusal::NoMemory);
    };
    let Ok(()) = proof.extend_from_slice(end) else {
        return Some(ProofRefusal::NoMemory);
    };
    judged(alloc, FREE, &proof, MOST_BYTES).err()
}

#[test]
fn last_bytes(rt: HostRuntime) {
    let cases: [(&[u8], Option<ProofRefusal>); 18] = [
        // they may be the end line
        (b"end pseudo-Boolean proof", None),
        (b" end\tpseudo-Boolean  proof ", None),
        (b"* a\n\nend pseudo-Boolean proof", None),
        (b"", Some(ProofRefusal::Truncated)),
        (b"end pseudo-Boolean", Some(ProofRefusal::Truncated)),
        (b"what", Some(ProofRefusal::Truncated)),
        (b"\xFF", Some(ProofRefusal::Truncated)),
        (b"\n\n", Some(ProofRefusal::Truncated)),
        (b"what\n", Some(ProofRefusal::Syntax(5))),
        // behind the end line they are one more line
        (b"end pseudo-Boolean proof\n \t", None),
        (
            b"end pseudo-Boolean proof\n\n\nx",
            Some(ProofRefusal::Syntax(8)),
        ),
        (
            b"end pseudo-Boolean proof\n*",
            Some(ProofRefusal::Syntax(6)),
        ),
        // one carriage return is dropped
        (b"end pseudo-Boolean proof\r", None),
        (b"end pseudo-Boolean proof\r\n\r", None),
        (
            b"end pseudo-Boolean proof\r\r",
            Some(ProofRefusal::Truncated),
        ),
        (
            b"end pseudo-Boolean proof\r\r\n",
            Some(ProofRefusal::Syntax(5)),
        ),
        (
            b"end pseudo-Boolean proof\n\r\r",
            Some(ProofRefusal::Syntax(6)),
        ),
        (
            b"end pseudo-Boolean\r proof\n",
            Some(ProofRefusal::Syntax(5)),
        ),
    ];
    for (end, wanted) in cases.iter() {
        assert_eq!(rt; refusal_of_end(rt.alloc(), end), *wanted, "{end:?}");
    }
}

#[test]
fn an_end_line_that_is_not_due(rt: HostRuntime) {
    let cases: [(&[u8], Option<ProofRefusal>); 3] = [
        (
            b"pseudo-Boolean proof version 2.0\nf 2\nend pseudo-Boolean proof",
            Some(ProofRefusal::Truncated),
        ),
        (
            b"pseudo-Boolean proof version 2.0\nf 2\nend pseudo-Boolean proof\n",
            Some(ProofRefusal::Syntax(3)),
        ),
        (
            b"pseudo-Boolean proof version 2.0",
            Some(ProofRefusal::Truncated),
        ),
    ];
    for (proof, wanted) in cases.iter() {
        assert_eq!(rt;
            judged(rt.alloc(), FREE, proof, MOST_BYTES).err(),
            *wanted,
            "{proof:?}"
        );
    }
}
