//! Runs of `bound` and `quick`.
ghost use Rattle.std.specs.Prelude.{◌<◌};

use crate::faults::{Whole, failing_in_turn};
use crate::jobs::{BOUND_PROOF, EMPTY, NO_POST, OPEN, QUICK_PROOF, STRICT, TOWN};
use crate::models::WORKED_MODEL;
use crate::runs::{Ended, WORKED, check, run_over, run_writing, verify};
use hrt_base::{NoMemory, Port};
use std::alloc::Global;
use std::process::Abort;
use std::test::Fail;

const BOUND_REPORT: &[u8] =
    b"residents 2\nhospitals 2\npairs 3\none-sided 0\ndeleted 0\nceiling 2\nat most 2\n";

const QUICK_REPORT: &[u8] =
    b"residents 2\nhospitals 2\npairs 3\none-sided 0\ndeleted 0\nceiling 2\nfirst 2\nconflicts 0\npair a y\npair b x\nsize 2\nbest\n";

// A run of a command on `i`, `m` and `p`, with calls that move at most so many bytes.
fn prove(alloc: Global, command: &str, instance: &[u8], most: usize) -> Result<Ended, NoMemory>
    requires { 0 < most }
{
    run_writing(alloc, &[command, "i", "m", "p"], instance, most, 1_000_000)
}

#[test]
fn worked_matchings(rt: HostRuntime) -> Result<(), Fail> {
    let alloc = rt.alloc();
    let cases: [(&[u8], u8, &[u8]); 6] = [
        (WORKED, 0, QUICK_REPORT),
        (
            STRICT,
            0,
            b"residents 2\nhospitals 2\npairs 3\none-sided 0\ndeleted 2\nceiling 1\nfirst 1\nconflicts 0\npair a x\nsize 1\nbest\n",
        ),
        (
            OPEN,
            10,
            b"residents 3\nhospitals 3\npairs 6\none-sided 0\ndeleted 0\nceiling 3\nfirst 2\nconflicts 0\npair a x\npair b y\nsize 2\nat most 3\n",
        ),
        (
            EMPTY,
            0,
            b"residents 0\nhospitals 0\npairs 0\none-sided 0\ndeleted 0\nceiling 0\nfirst 0\nconflicts 0\nsize 0\nbest\n",
        ),
        (
            NO_POST,
            0,
            b"residents 2\nhospitals 1\npairs 2\none-sided 0\ndeleted 2\nceiling 0\nfirst 0\nconflicts 0\nsize 0\nbest\n",
        ),
        (
            TOWN,
            0,
            b"residents 4\nhospitals 2\npairs 7\none-sided 0\ndeleted 2\nceiling 3\nfirst 3\nconflicts 0\npair anna General\npair ben General\npair dan City\nsize 3\nbest\n",
        ),
    ];
    for (instance, code, report) in cases.iter() {
        let ended = prove(alloc, "quick", instance, 1_000)?;
        assert_eq!(rt; ended.host.sent(Port::Report), *report);
        assert_eq!(rt; ended.code, *code);
    }
    Ok(())
}

#[test]
fn worked_files(rt: HostRuntime) -> Result<(), Fail> {
    let alloc = rt.alloc();
    let cases: [(&str, &[u8], Option<&[u8]>, Option<&[u8]>); 4] = [
        ("bound", WORKED, Some(WORKED_MODEL), Some(BOUND_PROOF)),
        ("quick", WORKED, Some(WORKED_MODEL), Some(QUICK_PROOF)),
        (
            "quick",
            EMPTY,
            Some(b"* #variable= 0 #constraint= 0\nmin: ;\n"),
            Some(
                b"pseudo-Boolean proof version 2.0\nf 0\nsoli\noutput NONE\nconclusion BOUNDS 0 0\nend pseudo-Boolean proof\n",
            ),
        ),
        ("quick", b"hrt 1\n", None, None),
    ];
    for (command, instance, model, proof) in cases.iter() {
        let ended = prove(alloc, command, instance, 16)?;
        assert_eq!(rt; ended.host.file("m"), *model);
        assert_eq!(rt; ended.host.file("p"), *proof);
    }
    Ok(())
}

#[test]
fn worked_bounds(rt: HostRuntime) -> Result<(), Fail> {
    let alloc = rt.alloc();
    let cases: [(&[u8], u8, &[u8]); 4] = [
        (WORKED, 0, BOUND_REPORT),
        (
            OPEN,
            0,
            b"residents 3\nhospitals 3\npairs 6\none-sided 0\ndeleted 0\nceiling 3\nat most 3\n",
        ),
        (
            NO_POST,
            0,
            b"residents 2\nhospitals 1\npairs 2\none-sided 0\ndeleted 2\nceiling 0\nat most 0\n",
        ),
        (b"hrt 1\n", 3, b"instance refused line 1 NoEnd\n"),
    ];
    for (instance, code, report) in cases.iter() {
        let ended = prove(alloc, "bound", instance, 1_000)?;
        assert_eq!(rt; ended.host.sent(Port::Report), *report);
        assert_eq!(rt; ended.code, *code);
    }
    Ok(())
}

/// What `verify` and `check` tell of what a command wrote for the instance.
pub fn accepted(
    rt: &impl Abort,
    alloc: Global,
    command: &str,
    instance: &[u8],
    verified: &[u8],
    checked: &[u8],
) -> Result<(), Fail> {
    let written = prove(alloc, command, instance, 1_000)?;
    let proof = written.host.file("p").unwrap_or(b"");
    let ended = verify(alloc, instance, proof)?;
    assert_eq!(rt; ended.host.sent(Port::Report), verified);
    let model = written.host.file("m").unwrap_or(b"");
    let ended = check(alloc, model, proof)?;
    assert_eq!(rt; ended.host.sent(Port::Report), checked);
    Ok(())
}

#[test]
fn proofs_of_matchings_are_accepted(rt: HostRuntime) -> Result<(), Fail> {
    let cases: [(&[u8], &[u8], &[u8]); 6] = [
        (
            WORKED,
            b"accepted\nbound 2\nfound 2\n",
            b"accepted\nlower -2\nupper -2\n",
        ),
        (
            STRICT,
            b"accepted\nbound 1\nfound 1\n",
            b"accepted\nlower -1\nupper -1\n",
        ),
        (
            OPEN,
            b"accepted\nbound 3\nfound 2\n",
            b"accepted\nlower -3\nupper -2\n",
        ),
        (
            EMPTY,
            b"accepted\nbound 0\nfound 0\n",
            b"accepted\nlower 0\nupper 0\n",
        ),
        (
            NO_POST,
            b"accepted\nbound 0\nfound 0\n",
            b"accepted\nlower 0\nupper 0\n",
        ),
        (
            TOWN,
            b"accepted\nbound 3\nfound 3\n",
            b"accepted\nlower -3\nupper -3\n",
        ),
    ];
    for (instance, verified, checked) in cases.iter() {
        accepted(&rt, rt.alloc(), "quick", instance, verified, checked)?;
    }
    Ok(())
}

#[test]
fn proofs_of_bounds_are_accepted(rt: HostRuntime) -> Result<(), Fail> {
    let cases: [(&[u8], &[u8], &[u8]); 3] = [
        (
            WORKED,
            b"accepted\nbound 2\nfound none\n",
            b"accepted\nlower -2\nupper INF\n",
        ),
        (
            EMPTY,
            b"accepted\nbound 0\nfound none\n",
            b"accepted\nlower 0\nupper INF\n",
        ),
        (
            TOWN,
            b"accepted\nbound 3\nfound none\n",
            b"accepted\nlower -3\nupper INF\n",
        ),
    ];
    for (instance, verified, checked) in cases.iter() {
        accepted(&rt, rt.alloc(), "bound", instance, verified, checked)?;
    }
    Ok(())
}

#[test]
fn words_of_the_commands(rt: HostRuntime) -> Result<(), Fail> {
    let alloc = rt.alloc();
    let cases: [&[&str]; 9] = [
        &["quick", "i", "m"],
        &["quick", "i", "m", "p", "r"],
        &["quick", "i", "m", "m"],
        &["quick", "i", "p", "i"],
        &["quick", "i", "i", "p"],
        &["quick", "i", "m", "-p"],
        &["quick", "i", "", "p"],
        &["bound", "i", "m"],
        &["bound", "i", "p", "p"],
    ];
    for texts in cases.iter() {
        let ended = run_over(alloc, texts, WORKED, b"")?;
        assert_eq!(rt; ended.code, 2);
        assert_eq!(rt;
            ended.host.sent(Port::Report),
            b"words not understood\n".as_slice()
        );
        assert_eq!(rt; ended.host.file("m"), None);
        assert_eq!(rt; ended.host.file("p"), None);
    }
    Ok(())
}

#[test]
fn each_call_of_a_bound_fails_in_turn(rt: HostRuntime) -> Result<(), Fail> {
    for most in [1, 3, 16] {
        let whole = Whole {
            command: "bound",
            instance: WORKED,
            model: WORKED_MODEL,
            proof: BOUND_PROOF,
            report: BOUND_REPORT,
        };
        let counts = failing_in_turn(&rt, rt.alloc(), &whole, most)?;
        assert!(rt; counts.unread > 2 && counts.unwritten > 20 && counts.done > 0);
    }
    Ok(())
}

#[test]
fn each_call_of_a_quick_solve_fails_in_turn(rt: HostRuntime) -> Result<(), Fail> {
    for most in [1, 3, 16] {
        let whole = Whole {
            command: "quick",
            instance: WORKED,
            model: WORKED_MODEL,
            proof: QUICK_PROOF,
            report: QUICK_REPORT,
        };
        let counts = failing_in_turn(&rt, rt.alloc(), &whole, most)?;
        assert!(rt; counts.unread > 2 && counts.unwritten > 20 && counts.done > 0);
    }
    Ok(())
}
