//! Runs of `check`.
use crate::models::WORKED_MODEL;
use crate::runs::{WORKED, check, run_over};
use crate::verifies::WORKED_PROOF;
use hrt_base::Port;
use std::test::Fail;

#[test]
fn models_and_proofs(rt: HostRuntime) -> Result<(), Fail> {
    let alloc = rt.alloc();
    let cases: [(&[u8], &[u8], u8, &[u8]); 10] = [
        (
            WORKED_MODEL,
            WORKED_PROOF,
            0,
            b"accepted\nlower -2\nupper -2\n",
        ),
        (
            WORKED_MODEL,
            b"pseudo-Boolean proof version 2.0\nf 7\noutput NONE\nconclusion NONE\nend pseudo-Boolean proof\n",
            0,
            b"accepted\nno conclusion\n",
        ),
        (
            WORKED_MODEL,
            b"pseudo-Boolean proof version 2.0\nf 7\npol 1 2 +\noutput NONE\nconclusion BOUNDS -2 INF\nend pseudo-Boolean proof\n",
            0,
            b"accepted\nlower -2\nupper INF\n",
        ),
        (
            b"+1 x1 >= 1 ;\n+1 ~x1 >= 1 ;\n",
            b"pseudo-Boolean proof version 2.0\nf 2\noutput NONE\nconclusion UNSAT\nend pseudo-Boolean proof\n",
            0,
            b"accepted\nunsatisfiable\n",
        ),
        (
            b"min: +3 x1 ;\n",
            b"pseudo-Boolean proof version 2.0\nf 0\nsoli x1\noutput NONE\nconclusion BOUNDS -INF 3\nend pseudo-Boolean proof\n",
            0,
            b"accepted\nlower -INF\nupper 3\n",
        ),
        (
            b"* #variable= 3 #constraint= 7\nmin: x1 x2 ;\n",
            WORKED_PROOF,
            8,
            b"model refused line 2 Syntax\n",
        ),
        (
            b"\n\n+1 x1 >= 1329227995784915872903807060280344576 ;\n",
            WORKED_PROOF,
            8,
            b"model refused line 3 TooBig\n",
        ),
        (
            b"+1 x100001 >= 1 ;\n",
            WORKED_PROOF,
            7,
            b"limit variables 100000\n",
        ),
        (WORKED, WORKED_PROOF, 8, b"model refused line 1 Syntax\n"),
        (b"", WORKED_PROOF, 8, b"proof refused line 2 WrongCount\n"),
    ];
    for (model, proof, code, report) in cases.iter() {
        let ended = check(alloc, model, proof)?;
        assert_eq!(rt; ended.host.sent(Port::Report), *report);
        assert_eq!(rt; ended.code, *code);
    }
    Ok(())
}

#[test]
fn words_of_both_commands(rt: HostRuntime) -> Result<(), Fail> {
    let alloc = rt.alloc();
    let cases: [&[&str]; 6] = [
        &["check", "i"],
        &["check", "i", "i"],
        &["check", "i", "q", "q"],
        &["verify", "i"],
        &["verify", "i", "-q"],
        &["Verify", "i", "q"],
    ];
    for texts in cases.iter() {
        let ended = run_over(alloc, texts, WORKED, WORKED_PROOF)?;
        assert_eq!(rt; ended.code, 2);
        assert_eq!(rt;
            ended.host.sent(Port::Report),
            b"words not understood\n".as_slice()
        );
    }
    Ok(())
}

#[test]
fn the_proof_of_a_refused_model_is_not_read(rt: HostRuntime) -> Result<(), Fail> {
    let alloc = rt.alloc();
    let ended = run_over(alloc, &["check", "i", "absent"], b"min: x1 x2 ;\n", b"")?;
    assert_eq!(rt; ended.code, 8);
    assert_eq!(rt;
        ended.host.sent(Port::Report),
        b"model refused line 1 Syntax\n".as_slice()
    );
    Ok(())
}
