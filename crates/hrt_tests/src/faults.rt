//! Each call of the host failing in turn, and calls that move little.
ghost use Rattle.std.specs.Prelude.{◌<◌};

use crate::models::WORKED_MODEL;
use crate::runs::{WORKED, host_with, run_writing, words};
use crate::verifies::WORKED_PROOF;
use hrt_base::Port;
use hrt_cli::run;
use std::alloc::Global;
use std::process::Abort;
use std::test::Fail;

// begin_read and two reads, twice for two inputs; and a write and a seal
const READS: u64 = 6;

const CALLS: u64 = 8;

// A run of words over the files `i` and `q`, and its report.
struct Case<'a> {
    words: &'a [&'a str],
    first: &'a [u8],
    second: &'a [u8],
    report: &'a [u8],
}

const CASES: [Case<'static>; 3] = [
    Case {
        words: &["audit", "i", "q"],
        first: WORKED,
        second: b"pair a x\n",
        report: b"stable\nsize 1\n",
    },
    Case {
        words: &["verify", "i", "q"],
        first: WORKED,
        second: WORKED_PROOF,
        report: b"accepted\nbound 2\nfound 2\n",
    },
    Case {
        words: &["check", "i", "q"],
        first: WORKED_MODEL,
        second: WORKED_PROOF,
        report: b"accepted\nlower -2\nupper -2\n",
    },
];

#[test]
fn each_call_fails_in_turn(rt: HostRuntime) -> Result<(), Fail> {
    let alloc = rt.alloc();
    for case in CASES.iter() {
        let words = words(alloc, case.words)?;
        for call in 1..CALLS + 2 {
            let mut host = host_with(alloc, case.first, case.second)?;
            host.fail_at(call)?;
            let code = run(alloc, &words, &mut host);
            let sent = host.sent(Port::Report);
            if call <= READS {
                assert_eq!(rt; code, 4, "at call {call}");
                assert_eq!(rt; sent, b"".as_slice());
            } else if call <= CALLS {
                assert_eq!(rt; code, 5, "at call {call}");
                assert!(rt; case.report.starts_with(sent));
            } else {
                assert_eq!(rt; code, 0, "at call {call}");
                assert_eq!(rt; sent, case.report);
            }
        }
    }
    Ok(())
}

#[test]
fn calls_that_move_little_change_no_byte(rt: HostRuntime) -> Result<(), Fail> {
    let alloc = rt.alloc();
    for case in CASES.iter() {
        let words = words(alloc, case.words)?;
        for most in [1, 3, 16] {
            let mut host = host_with(alloc, case.first, case.second)?;
            host.piece(most);
            assert_eq!(rt; run(alloc, &words, &mut host), 0);
            assert_eq!(rt; host.sent(Port::Report), case.report);
        }
    }
    Ok(())
}

/// A command on `i`, `m` and `p`, and what it writes and tells where no call fails.
#[derive(Clone, Copy)]
pub struct Whole<'a> {
    pub command: &'a str,
    pub instance: &'a [u8],
    pub model: &'a [u8],
    pub proof: &'a [u8],
    pub report: &'a [u8],
}

/// How often runs ended with a fault of reading, with one of writing, and well.
#[derive(Clone, Copy)]
pub struct Counts {
    pub unread: u32,
    pub unwritten: u32,
    pub done: u32,
}

/// Each call fails in turn, where calls move at most so many bytes: begin to read and reads; two begin to write, writes and two seals;
/// writes of the report and a seal.
pub fn failing_in_turn(
    rt: &impl Abort,
    alloc: Global,
    whole: &Whole,
    most: usize,
) -> Result<Counts, Fail>
    requires { 0 < most }
{
    let mut counts = Counts {
        unread: 0,
        unwritten: 0,
        done: 0,
    };
    for call in 1..900 {
        let words = [whole.command, "i", "m", "p"];
        let ended = run_writing(alloc, &words, whole.instance, most, call)?;
        let model = ended.host.sent(Port::Model);
        let lines = ended.host.sent(Port::Proof);
        let told = ended.host.sent(Port::Report);
        assert!(rt; whole.model.starts_with(model) && whole.proof.starts_with(lines));
        assert!(rt; whole.report.starts_with(told));
        assert!(rt; lines.is_empty() || ended.host.file("m") == Some(whole.model));
        assert!(rt; told.is_empty() || ended.host.file("p") == Some(whole.proof));
        if ended.code == 4 {
            assert!(rt; model.is_empty() && lines.is_empty());
            counts.unread = counts.unread.saturating_add(1);
        } else if ended.code == 5 {
            counts.unwritten = counts.unwritten.saturating_add(1);
        } else {
            assert_eq!(rt; ended.code, 0);
            assert_eq!(rt; told, whole.report);
            counts.done = counts.done.saturating_add(1);
        }
    }
    Ok(counts)
}
