//! Runs of `solve`: worked instances, budgets, words, limits.
ghost use Rattle.std.specs.Prelude.{◌<◌};

use crate::bounds::accepted;
use crate::faults::{Counts, Whole, failing_in_turn};
use crate::jobs::{EMPTY, NO_POST, OPEN, QUICK_PROOF, STRICT, TOWN};
use crate::models::WORKED_MODEL;
use crate::runs::{Ended, WORKED, run_over, solve, solve_within, words};
use hrt_base::Port;
use hrt_cli::run;
use hrt_host::MemoryHost;
use std::alloc::Global;
use std::process::Abort;
use std::test::Fail;

const REPORT: &[u8] =
    b"residents 2\nhospitals 2\npairs 3\none-sided 0\ndeleted 0\nceiling 2\nfirst 2\nconflicts 0\npair a y\npair b x\nsize 2\nbest\n";

#[test]
fn worked_instances(rt: HostRuntime) -> Result<(), Fail> {
    let alloc = rt.alloc();
    let cases: [(&[u8], &[u8]); 7] = [
        (WORKED, REPORT),
        (
            STRICT,
            b"residents 2\nhospitals 2\npairs 3\none-sided 0\ndeleted 2\nceiling 1\nfirst 1\nconflicts 0\npair a x\nsize 1\nbest\n",
        ),
        (
            EMPTY,
            b"residents 0\nhospitals 0\npairs 0\none-sided 0\ndeleted 0\nceiling 0\nfirst 0\nconflicts 0\nsize 0\nbest\n",
        ),
        (
            NO_POST,
            b"residents 2\nhospitals 1\npairs 2\none-sided 0\ndeleted 2\nceiling 0\nfirst 0\nconflicts 0\nsize 0\nbest\n",
        ),
        (
            TOWN,
            b"residents 4\nhospitals 2\npairs 7\none-sided 0\ndeleted 2\nceiling 3\nfirst 3\nconflicts 0\npair anna General\npair ben General\npair dan City\nsize 3\nbest\n",
        ),
        (
            b"hrt 1\nresident a: x y\nresident b: x y\nhospital x 1: (a b)\nhospital y 1: a\nend\n",
            b"residents 2\nhospitals 2\npairs 3\none-sided 1\ndeleted 0\nceiling 2\nfirst 2\nconflicts 0\npair a y\npair b x\nsize 2\nbest\n",
        ),
        (
            b"\r\n# a note\r\n\thrt\t1 # version\r\n\r\nhospital y 1:a\r\nresident\ta:x y # note\r\nhospital x 1 : ( a  b )\r\nresident b : x\r\nend",
            REPORT,
        ),
    ];
    for (instance, report) in cases.iter() {
        let ended = solve(alloc, instance)?;
        assert_eq!(rt; ended.code, 0);
        assert_eq!(rt; ended.host.sent(Port::Report), *report);
        assert_eq!(rt; ended.host.faults(), 0);
    }
    Ok(())
}

#[test]
fn worked_files(rt: HostRuntime) -> Result<(), Fail> {
    let alloc = rt.alloc();
    let cases: [(&[u8], &[u8], &[u8]); 2] = [
        (WORKED, WORKED_MODEL, QUICK_PROOF),
        (
            EMPTY,
            b"* #variable= 0 #constraint= 0\nmin: ;\n",
            b"pseudo-Boolean proof version 2.0\nf 0\nsoli\noutput NONE\nconclusion BOUNDS 0 0\nend pseudo-Boolean proof\n",
        ),
    ];
    for (instance, model, proof) in cases.iter() {
        let ended = solve(alloc, instance)?;
        assert_eq!(rt; ended.host.file("m"), Some(*model));
        assert_eq!(rt; ended.host.file("p"), Some(*proof));
    }
    let ended = solve(alloc, NO_POST)?;
    assert!(rt; proof_of(&ended).ends_with(b"\nconclusion BOUNDS 0 0\nend pseudo-Boolean proof\n"));
    let ended = solve(alloc, b"hrt 1\n")?;
    assert_eq!(rt; ended.code, 3);
    assert_eq!(rt; ended.host.file("m"), None);
    assert_eq!(rt; ended.host.file("p"), None);
    Ok(())
}

#[test]
fn proofs_are_accepted(rt: HostRuntime) -> Result<(), Fail> {
    let cases: [(&[u8], &[u8], &[u8]); 6] = [
        (
            WORKED,
            b"accepted\nbound 2\nfound 2\n",
            b"accepted\nlower -2\nupper -2\n",
        ),
        (
            STRICT,
            b"accepted\nbound 1\nfound 1\n",
            b"accepted\nlower -1\nupper -1\n",
        ),
        (
            OPEN,
            b"accepted\nbound 2\nfound 2\n",
            b"accepted\nlower -2\nupper -2\n",
        ),
        (
            EMPTY,
            b"accepted\nbound 0\nfound 0\n",
            b"accepted\nlower 0\nupper 0\n",
        ),
        (
            NO_POST,
            b"accepted\nbound 0\nfound 0\n",
            b"accepted\nlower 0\nupper 0\n",
        ),
        (
            TOWN,
            b"accepted\nbound 3\nfound 3\n",
            b"accepted\nlower -3\nupper -3\n",
        ),
    ];
    for (instance, verified, checked) in cases.iter() {
        accepted(&rt, rt.alloc(), "solve", instance, verified, checked)?;
    }
    Ok(())
}

// The proof that a run wrote.
fn proof_of(ended: &Ended) -> &[u8] {
    ended.host.file("p").unwrap_or(b"")
}

// How many lines of a text begin so.
fn lines_that_begin(text: &[u8], front: &[u8]) -> u32 {
    let mut count = 0u32;
    for start in 0..text.len() {
        let begins = start == 0 || text[start - 1] == b'\n';
        if begins && text[start..].starts_with(front) {
            count = count.saturating_add(1);
        }
    }
    count
}

// The first matching has two pairs, and nothing but a search shows that no other has three. The only other list that has three and is
// a matching is blocked by the pair of row 7.
#[test]
fn a_search(rt: HostRuntime) -> Result<(), Fail> {
    let ended = solve(rt.alloc(), OPEN)?;
    assert_eq!(rt; ended.code, 0);
    let report = ended.host.sent(Port::Report);
    assert!(rt;
        report.starts_with(
            b"residents 3\nhospitals 3\npairs 6\none-sided 0\ndeleted 0\nceiling 3\nfirst 2\nconflicts "
        )
    );
    assert!(rt;
        report.ends_with(b"\npair a x\npair b y\nsize 2\nbest\n")
            || report.ends_with(b"\npair a y\npair b x\nsize 2\nbest\n")
    );
    let proof = proof_of(&ended);
    assert_eq!(rt; lines_that_begin(proof, b"* note load "), 1);
    assert_eq!(rt; lines_that_begin(proof, b"* note load x3 x5 x6 : 7\n"), 1);
    assert!(rt; proof.ends_with(b"\nconclusion BOUNDS -2 -2\nend pseudo-Boolean proof\n"));
    Ok(())
}

#[test]
fn a_budget_that_is_spent(rt: HostRuntime) -> Result<(), Fail> {
    let alloc = rt.alloc();
    let ended = solve_within(alloc, OPEN, "0")?;
    assert_eq!(rt; ended.code, 10);
    assert_eq!(rt;
        ended.host.sent(Port::Report),
        b"residents 3\nhospitals 3\npairs 6\none-sided 0\ndeleted 0\nceiling 3\nfirst 2\nconflicts 0\npair a x\npair b y\nsize 2\nat most 3\n".as_slice()
    );
    let proof = proof_of(&ended);
    assert_eq!(rt; lines_that_begin(proof, b"* note learn "), 0);
    assert!(rt; proof.ends_with(b"\nconclusion BOUNDS -3 -2\nend pseudo-Boolean proof\n"));
    // Where the first matching is as large as the ceiling nothing is searched.
    let ended = solve_within(alloc, WORKED, "0")?;
    assert_eq!(rt; ended.code, 0);
    assert_eq!(rt; ended.host.sent(Port::Report), REPORT);
    Ok(())
}

// The instance has six pairs.
#[test]
fn a_budget_that_suffices(rt: HostRuntime) -> Result<(), Fail> {
    for budget in ["640064", "64", "00000000000000000064", "1000000000000"] {
        let ended = solve_within(rt.alloc(), OPEN, budget)?;
        assert_eq!(rt; ended.code, 0);
        assert!(rt; ended.host.sent(Port::Report).ends_with(b"\nsize 2\nbest\n"));
    }
    Ok(())
}

#[test]
fn words_that_ask_for_nothing(rt: HostRuntime) -> Result<(), Fail> {
    let alloc = rt.alloc();
    let cases: [&[&str]; 22] = [
        &[],
        &["solve"],
        &["solve", "i"],
        &["solve", "i", "m"],
        &["solve", "i", "p", "p"],
        &["solve", "i", "m", "i"],
        &["solve", "", "m", "p"],
        &["solve", "i", "m", "-p"],
        &["solve", "i", "m", "p", "r"],
        &["Solve", "i", "m", "p"],
        &["solve", "i", "m", "p", "--conflicts"],
        &["solve", "i", "m", "p", "--conflicts", ""],
        &["solve", "i", "m", "p", "--conflicts", "+5"],
        &["solve", "i", "m", "p", "--conflicts", "1000000000001"],
        &[
            "solve",
            "i",
            "m",
            "p",
            "--conflicts",
            "000000000000000000005",
        ],
        &[
            "solve",
            "i",
            "m",
            "p",
            "--conflicts",
            "5",
            "--conflicts",
            "5",
        ],
        &["solve", "--conflicts", "5", "i", "m", "p"],
        &["quick", "i", "m", "p", "--conflicts", "5"],
        &["audit", "i"],
        &["audit", "i", "i"],
        &["audit", "i", "q", "r"],
        &["--help"],
    ];
    for texts in cases.iter() {
        let ended = run_over(alloc, texts, WORKED, b"")?;
        assert_eq!(rt; ended.code, 2);
        assert_eq!(rt;
            ended.host.sent(Port::Report),
            b"words not understood\n".as_slice()
        );
        assert_eq!(rt; ended.host.faults(), 0);
    }
    Ok(())
}

#[test]
fn limits(rt: HostRuntime) -> Result<(), Fail> {
    let alloc = rt.alloc();
    for side in [
        ("resident r", ":\n", b"limit residents 20000\n".as_slice()),
        ("hospital h", " 1:\n", b"limit hospitals 20000\n".as_slice()),
    ] {
        let (before, behind, report) = side;
        let mut many = Vec::new(alloc);
        many.extend_from_slice(b"hrt 1\n")?;
        for number in 0..20_001u32 {
            many.extend_from_slice(format!(in alloc; "{before}{number}{behind}")?.as_bytes())?;
        }
        many.extend_from_slice(b"end\n")?;
        let ended = solve(alloc, &many)?;
        assert_eq!(rt; ended.code, 7);
        assert_eq!(rt; ended.host.sent(Port::Report), report);
    }
    Ok(())
}

#[test]
fn a_file_that_is_absent(rt: HostRuntime) -> Result<(), Fail> {
    let alloc = rt.alloc();
    let mut host = MemoryHost::new(alloc);
    host.give_room(Port::Report, "", 100)?;
    let words = words(alloc, &["solve", "i", "m", "p"])?;
    assert_eq!(rt; run(alloc, &words, &mut host), 4);
    assert_eq!(rt; host.sent(Port::Report), b"".as_slice());
    assert_eq!(rt; host.faults(), 1);
    Ok(())
}

// Each call fails in turn, with calls that move at most so many bytes.
fn fails_in_turn(
    rt: &impl Abort,
    alloc: Global,
    instance: &[u8],
    most: usize,
) -> Result<Counts, Fail>
    requires { 0 < most }
{
    let ended = solve(alloc, instance)?;
    assert_eq!(rt; ended.code, 0);
    let whole = Whole {
        command: "solve",
        instance,
        model: ended.host.file("m").unwrap_or(b""),
        proof: proof_of(&ended),
        report: ended.host.sent(Port::Report),
    };
    failing_in_turn(rt, alloc, &whole, most)
}

#[test]
fn each_call_fails_in_turn(rt: HostRuntime) -> Result<(), Fail> {
    for most in [1, 3, 16] {
        let counts = fails_in_turn(&rt, rt.alloc(), WORKED, most)?;
        assert!(rt; counts.unread > 2 && counts.unwritten > 20 && counts.done > 0);
    }
    Ok(())
}

#[test]
fn each_call_fails_in_turn_behind_a_search(rt: HostRuntime) -> Result<(), Fail> {
    for most in [16, 64] {
        let counts = fails_in_turn(&rt, rt.alloc(), OPEN, most)?;
        assert!(rt; counts.unread > 2 && counts.unwritten > 20 && counts.done > 0);
    }
    Ok(())
}
