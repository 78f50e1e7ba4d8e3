//! Runs of `audit`.
use crate::runs::{WORKED, audit, run_over};
use hrt_base::Port;
use std::test::Fail;

#[test]
fn audits_of_the_worked_instance(rt: HostRuntime) -> Result<(), Fail> {
    let alloc = rt.alloc();
    let cases: [(&[u8], u8, &[u8]); 14] = [
        (b"pair a x\npair b x\n", 9, b"over-capacity x\n"),
        (b"", 9, b"blocked a x\n"),
        (b"pair a x\npair a y\n", 9, b"resident-twice a\n"),
        (b"pair a x\n", 0, b"stable\nsize 1\n"),
        (b"pair b x\npair a y\n", 0, b"stable\nsize 2\n"),
        (
            b"\n pair\tb x # note\r\n\r\npair a y",
            0,
            b"stable\nsize 2\n",
        ),
        (b"pair a y\n", 9, b"blocked a x\n"),
        (b"pair b y\n", 12, b"pairs refused line 1 NotAcceptable\n"),
        (
            b"pair a x\n\npair a x\n",
            12,
            b"pairs refused line 3 RepeatedPair\n",
        ),
        (b"pair a x y\n", 12, b"pairs refused line 1 BadLine\n"),
        (b"pare a x\n", 12, b"pairs refused line 1 BadLine\n"),
        (b"pair (a x\n", 12, b"pairs refused line 1 BadLine\n"),
        (b"pair c x\n", 12, b"pairs refused line 1 UnknownName\n"),
        (
            b"pair a x\npair b q\npair b\n",
            12,
            b"pairs refused line 2 UnknownName\n",
        ),
    ];
    for (pairs, code, report) in cases.iter() {
        let ended = audit(alloc, WORKED, pairs)?;
        assert_eq!(rt; ended.code, *code);
        assert_eq!(rt; ended.host.sent(Port::Report), *report);
    }
    Ok(())
}

#[test]
fn a_refused_instance_comes_before_the_pairs(rt: HostRuntime) -> Result<(), Fail> {
    let alloc = rt.alloc();
    let ended = audit(alloc, b"hrt 1\n", b"what")?;
    assert_eq!(rt; ended.code, 3);
    assert_eq!(rt;
        ended.host.sent(Port::Report),
        b"instance refused line 1 NoEnd\n".as_slice()
    );
    Ok(())
}

#[test]
fn the_pairs_of_a_refused_instance_are_not_read(rt: HostRuntime) -> Result<(), Fail> {
    let alloc = rt.alloc();
    let ended = run_over(alloc, &["audit", "i", "absent"], b"hrt 1\n", b"")?;
    assert_eq!(rt; ended.code, 3);
    assert_eq!(rt;
        ended.host.sent(Port::Report),
        b"instance refused line 1 NoEnd\n".as_slice()
    );
    Ok(())
}
