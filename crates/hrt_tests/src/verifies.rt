//! Runs of `verify`.
use crate::runs::{WORKED, host_with, run_over, verify, words};
use hrt_base::{NoMemory, Port};
use hrt_cli::run;
use std::alloc::Global;
use std::test::Fail;

/// A proof of the bounds 2 and 2 for the instance on which most tests run.
pub const WORKED_PROOF: &[u8] =
    b"pseudo-Boolean proof version 2.0\nf 7\npol 1 2 +\nsoli ~x1 x2 x3\noutput NONE\nconclusion BOUNDS -2 -2\nend pseudo-Boolean proof\n";

const LINES: [&str; 7] = [
    "pseudo-Boolean proof version 2.0",
    "f 7",
    "pol 1 2 +",
    "soli ~x1 x2 x3",
    "output NONE",
    "conclusion BOUNDS -2 -2",
    "end pseudo-Boolean proof",
];

// The proof with other text in the place of one line.
fn with_line(alloc: Global, number: usize, text: &[u8]) -> Result<Vec<u8>, NoMemory> {
    let mut proof = Vec::new(alloc);
    for (k, line) in LINES.iter().enumerate() {
        let line = if k < number && number - k == 1 {
            text
        } else {
            line.as_bytes()
        };
        proof.extend_from_slice(line)?;
        proof.push(b'\n')?;
    }
    Ok(proof)
}

#[test]
fn whole_proofs(rt: HostRuntime) -> Result<(), Fail> {
    let alloc = rt.alloc();
    let whole = WORKED_PROOF.len();
    let cases: [(&[u8], u8, &[u8]); 5] = [
        (WORKED_PROOF, 0, b"accepted\nbound 2\nfound 2\n"),
        (
            &WORKED_PROOF[..whole - 1],
            0,
            b"accepted\nbound 2\nfound 2\n",
        ),
        (&WORKED_PROOF[..whole - 2], 8, b"proof refused Truncated\n"),
        (b"", 8, b"proof refused Truncated\n"),
        (b"what", 8, b"proof refused Truncated\n"),
    ];
    for (proof, code, report) in cases.iter() {
        let ended = verify(alloc, WORKED, proof)?;
        assert_eq!(rt; ended.code, *code);
        assert_eq!(rt; ended.host.sent(Port::Report), *report);
    }
    Ok(())
}

#[test]
fn proofs_with_another_line(rt: HostRuntime) -> Result<(), Fail> {
    let alloc = rt.alloc();
    let cases: [(usize, &[u8], u8, &[u8]); 29] = [
        (3, b"pol 1 9 +", 8, b"proof refused line 3 BadId 9\n"),
        (3, b"pol 1 +", 8, b"proof refused line 3 StackShape\n"),
        (
            4,
            b"soli ~x1 x2 ~x3",
            8,
            b"proof refused line 4 NotASolution 5\n",
        ),
        (4, b"soli ~x1 x2", 8, b"proof refused line 4 NotFull\n"),
        (
            3,
            b"rup +1 x1 >= 1 ;",
            8,
            b"proof refused line 3 NotImplied\n",
        ),
        (2, b"f 6", 8, b"proof refused line 2 WrongCount\n"),
        (
            6,
            b"conclusion BOUNDS -1 -2",
            8,
            b"proof refused line 6 BoundNotShown\n",
        ),
        (
            6,
            b"conclusion NONE",
            0,
            b"accepted\nbound none\nfound none\n",
        ),
        (
            6,
            b"conclusion BOUNDS -INF INF",
            0,
            b"accepted\nbound none\nfound none\n",
        ),
        (
            6,
            b"conclusion BOUNDS -INF -2",
            0,
            b"accepted\nbound none\nfound 2\n",
        ),
        (
            6,
            b"conclusion BOUNDS -2 INF",
            0,
            b"accepted\nbound 2\nfound none\n",
        ),
        (
            6,
            b"conclusion BOUNDS -3 -2",
            0,
            b"accepted\nbound 3\nfound 2\n",
        ),
        (
            6,
            b"conclusion BOUNDS -2 -0001",
            0,
            b"accepted\nbound 2\nfound 1\n",
        ),
        (
            6,
            b"conclusion BOUNDS -2 +3",
            0,
            b"accepted\nbound 2\nfound -3\n",
        ),
        (
            6,
            b"conclusion BOUNDS -2 -3",
            8,
            b"proof refused line 6 BoundNotShown\n",
        ),
        (
            6,
            b"conclusion UNSAT",
            8,
            b"proof refused line 6 BoundNotShown\n",
        ),
        (
            3,
            b"rup +1329227995784915872903807060280344577 x1 >= 0 ;",
            8,
            b"proof refused line 3 TooBig\n",
        ),
        (3, b"pol 1 2 + 0 d", 8, b"proof refused line 3 Syntax\n"),
        (
            3,
            b"pol 1 664613997892457936451903530140172288 *",
            0,
            b"accepted\nbound 2\nfound 2\n",
        ),
        (
            3,
            b"pol 1 664613997892457936451903530140172288 * 4 *",
            8,
            b"proof refused line 3 TooBig\n",
        ),
        (3, b"del id 1 1", 8, b"proof refused line 3 BadId 1\n"),
        (
            3,
            b"del id 1 2 3 4 5 6 7",
            8,
            b"proof refused line 6 BoundNotShown\n",
        ),
        (
            3,
            b"rup +1 x4 >= 0 ;",
            8,
            b"proof refused line 3 BadVariable 4\n",
        ),
        (
            3,
            b"pseudo-Boolean proof version 2.0",
            8,
            b"proof refused line 3 Syntax\n",
        ),
        (3, b"pol 1 ~x1 w", 8, b"proof refused line 3 Syntax\n"),
        (5, b"", 8, b"proof refused line 6 Syntax\n"),
        (
            7,
            b"end pseudo-Boolean proof\nx",
            8,
            b"proof refused line 8 Syntax\n",
        ),
        (7, b"x", 8, b"proof refused line 7 Syntax\n"),
        (3, b"pol 1 2 +\r", 0, b"accepted\nbound 2\nfound 2\n"),
    ];
    for (number, text, code, report) in cases.iter() {
        let proof = with_line(alloc, *number, text)?;
        let ended = verify(alloc, WORKED, &proof)?;
        assert_eq!(rt; ended.host.sent(Port::Report), *report);
        assert_eq!(rt; ended.code, *code);
    }
    Ok(())
}

#[test]
fn deleted_rows_of_the_model_are_looked_at(rt: HostRuntime) -> Result<(), Fail> {
    let alloc = rt.alloc();
    let ended = verify(
        alloc,
        WORKED,
        b"pseudo-Boolean proof version 2.0\nf 7\ndel id 1 2 3 4 5 6 7\nsoli x1 ~x2 x3\noutput NONE\nconclusion NONE\nend pseudo-Boolean proof\n",
    )?;
    assert_eq!(rt; ended.code, 8);
    assert_eq!(rt;
        ended.host.sent(Port::Report),
        b"proof refused line 4 NotASolution 3\n".as_slice()
    );
    Ok(())
}

#[test]
fn the_greatest_number_is_taken(rt: HostRuntime) -> Result<(), Fail> {
    let alloc = rt.alloc();
    let ended = verify(
        alloc,
        WORKED,
        b"pseudo-Boolean proof version 2.0\nf 7\nrup +1329227995784915872903807060280344576 x1 >= 0 ;\noutput NONE\nconclusion NONE\nend pseudo-Boolean proof\n",
    )?;
    assert_eq!(rt; ended.code, 0);
    assert_eq!(rt;
        ended.host.sent(Port::Report),
        b"accepted\nbound none\nfound none\n".as_slice()
    );
    Ok(())
}

#[test]
fn a_proof_is_read_after_a_line_that_is_refused(rt: HostRuntime) -> Result<(), Fail> {
    let alloc = rt.alloc();
    let words = words(alloc, &["verify", "i", "q"])?;
    // The instance and the proof are each begun, read, and read once more to the end, where the read of the proof fails.
    let mut host = host_with(alloc, b"hrt 1\nend\n", b"what\nis this")?;
    host.fail_at(6)?;
    assert_eq!(rt; run(alloc, &words, &mut host), 4);
    assert_eq!(rt; host.sent(Port::Report), b"".as_slice());
    Ok(())
}

#[test]
fn an_instance_is_refused_before_its_proof(rt: HostRuntime) -> Result<(), Fail> {
    let alloc = rt.alloc();
    let ended = run_over(alloc, &["verify", "i", "absent"], b"hrt 1\n", b"")?;
    assert_eq!(rt; ended.code, 3);
    assert_eq!(rt;
        ended.host.sent(Port::Report),
        b"instance refused line 1 NoEnd\n".as_slice()
    );
    Ok(())
}
