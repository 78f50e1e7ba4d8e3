//! Instances that are refused, with their lines and kinds.
use crate::runs::solve;
use hrt_base::Port;
use std::test::Fail;

#[test]
fn refused_instances(rt: HostRuntime) -> Result<(), Fail> {
    let alloc = rt.alloc();
    let cases: [(&[u8], &[u8]); 31] = [
        (b"", b"1 BadHeader"),
        (b"hrt 2\nend\n", b"1 BadHeader"),
        (b"\n\nhrt 1 1\nend\n", b"3 BadHeader"),
        (b"hrt 1\nwhat\nend\n", b"2 BadLine"),
        (b"hrt 1\nresident a x\nend\n", b"2 BadLine"),
        (b"hrt 1\nend end\n", b"2 BadLine"),
        (b"hrt 1\nhospital x (: a\nend\n", b"2 BadLine"),
        (b"hrt 1\nresident \x01: x\nend\n", b"2 BadName"),
        (b"hrt 1\nresident a: \x7f\nend\n", b"2 BadName"),
        (b"hrt 1\nresident a\r: \nend\n", b"2 BadName"),
        (b"hrt 1\nhospital x 20001: \nend\n", b"2 BadCapacity"),
        (b"hrt 1\nhospital x +1: \nend\n", b"2 BadCapacity"),
        (b"hrt 1\nhospital x 000001: \nend\n", b"2 BadCapacity"),
        (
            b"hrt 1\nresident a:\nresident a:\nend\n",
            b"3 DeclaredTwice",
        ),
        (
            b"hrt 1\nhospital a 1:\nhospital a 2:\nend\n",
            b"3 DeclaredTwice",
        ),
        (
            b"hrt 1\nresident a: x q\nhospital x 1: a\nend\n",
            b"2 UnknownName",
        ),
        (b"hrt 1\nresident a: q\nend\nx\n", b"4 AfterEnd"),
        (
            b"hrt 1\nhospital x 1: (a b)\nresident a: x\nend\n",
            b"2 UnknownName",
        ),
        (
            b"hrt 1\nresident x: a\nhospital a 1: a\nend\n",
            b"3 UnknownName",
        ),
        (b"hrt 1\nresident a: q\nresident b:", b"3 NoEnd"),
        (
            b"hrt 1\nresident a:\nhospital a 0:\nresident a:\nend\n",
            b"4 DeclaredTwice",
        ),
        (
            b"hrt 1\nresident a: x x\nhospital x 1: a\nend\n",
            b"2 NamedTwice",
        ),
        (
            b"hrt 1\nresident a: (x y) x\nhospital x 1: a\nhospital y 1: a\nend\n",
            b"2 NamedTwice",
        ),
        (
            b"hrt 1\nresident a: ((x))\nhospital x 1: a\nend\n",
            b"2 BadTie",
        ),
        (b"hrt 1\nresident a: ()\nend\n", b"2 BadTie"),
        (b"hrt 1\nresident a: x)\nend\n", b"2 BadTie"),
        (b"hrt 1\nresident a: x : x\nend\n", b"2 NamedTwice"),
        (b"hrt 1\nresident a:\n", b"2 NoEnd"),
        (b"hrt 1\nresident a:\n\n\n", b"4 NoEnd"),
        (b"hrt 1\nend\nend\n", b"3 AfterEnd"),
        (b"hrt 1\nend # done\n# more\nresident c:\n", b"4 AfterEnd"),
    ];
    for (instance, why) in cases.iter() {
        let ended = solve(alloc, instance)?;
        assert_eq!(rt; ended.code, 3);
        let mut report = Vec::new(alloc);
        report.extend_from_slice(b"instance refused line ")?;
        report.extend_from_slice(why)?;
        report.extend_from_slice(b"\n")?;
        assert_eq!(rt; ended.host.sent(Port::Report), report.as_slice());
    }
    Ok(())
}

#[test]
fn names_and_capacities_at_their_limits(rt: HostRuntime) -> Result<(), Fail> {
    let alloc = rt.alloc();
    let ended = solve(alloc, b"hrt 1\nhospital x 20000:\nend\n")?;
    assert_eq!(rt; ended.code, 0);
    let mut text = Vec::new(alloc);
    text.extend_from_slice(b"hrt 1\nresident ")?;
    text.extend_from_slice(&[b'n'; 64])?;
    text.extend_from_slice(b":\nend\n")?;
    let ended = solve(alloc, &text)?;
    assert_eq!(rt; ended.code, 0);
    let mut text = Vec::new(alloc);
    text.extend_from_slice(b"hrt 1\nresident ")?;
    text.extend_from_slice(&[b'n'; 65])?;
    text.extend_from_slice(b":\nend\n")?;
    let ended = solve(alloc, &text)?;
    assert_eq!(rt; ended.code, 3);
    assert_eq!(rt;
        ended.host.sent(Port::Report),
        b"instance refused line 2 BadName\n".as_slice()
    );
    Ok(())
}
