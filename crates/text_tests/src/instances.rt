// Texts of instances and of pairs, with ample memory.
ghost use Rattle.std.specs.Prelude.{◌≤◌, ◌==◌, count_by};

use hrt_base::PairNo;
use hrt_reader::{PairsKind, PairsRefusal, ReadKind, ReadRefusal, read_instance, read_pairs};
use std::alloc::Global;
use std::test::Fail;

#[test]
fn an_instance(rt: HostRuntime) -> Result<(), Fail> {
    let text =
        b"hrt 1\nresident a: x y\nresident b: x\nhospital x 1: (a b)\nhospital y 1: a\nend\n";
    let instance = read_instance(rt.alloc(), text.as_slice())?;
    assert_eq!(rt; instance.residents(), 2);
    assert_eq!(rt; instance.hospitals(), 2);
    assert_eq!(rt; instance.pairs(), 3);
    assert_eq!(rt; instance.one_sided(), 0);
    Ok(())
}

#[test]
fn a_loose_spelling(rt: HostRuntime) -> Result<(), Fail> {
    let text =
        b"\r\nhrt\t1\r\nhospital y 1:a# note\r\n\r\nresident b: x y\r\nresident a: x y\r\nhospital x 1 : ( a  b )\r\nend";
    let instance = read_instance(rt.alloc(), text.as_slice())?;
    assert_eq!(rt; instance.pairs(), 3);
    assert_eq!(rt; instance.one_sided(), 1);
    assert!(rt; instance.residents() == 2);
    assert!(rt; instance.hospitals() == 2);
    assert_eq!(rt; instance.resident_name(0).bytes(), b"b".as_slice());
    assert_eq!(rt; instance.hospital_list(1).count(), 1);
    Ok(())
}

// What the text is refused as.
fn refusal(alloc: Global, text: &[u8]) -> Option<ReadRefusal>
    requires { count_by (λ b. b == 10) text.now ≤ 4294967294 }
{
    read_instance(alloc, text).err()
}

#[test]
fn refused_instances(rt: HostRuntime) {
    let alloc = rt.alloc();
    assert_eq!(rt;
        refusal(alloc, b""),
        Some(ReadRefusal::Bad {
            kind: ReadKind::BadHeader,
            line: 1
        })
    );
    assert_eq!(rt;
        refusal(alloc, b"hrt 1\nresident a: (x y) x\nhospital x 1: a\n"),
        Some(ReadRefusal::Bad {
            kind: ReadKind::NamedTwice,
            line: 2
        })
    );
    assert_eq!(rt;
        refusal(alloc, b"hrt 1\nresident a: x q\nhospital x 1: a\nend\n"),
        Some(ReadRefusal::Bad {
            kind: ReadKind::UnknownName,
            line: 2
        })
    );
    assert_eq!(rt;
        refusal(alloc, b"hrt 1\nresident a: x\nhospital x 20001: a\nend\n"),
        Some(ReadRefusal::Bad {
            kind: ReadKind::BadCapacity,
            line: 3
        })
    );
    assert_eq!(rt;
        refusal(alloc, b"hrt 1\nresident a:\nhospital x 1:\n"),
        Some(ReadRefusal::Bad {
            kind: ReadKind::NoEnd,
            line: 3
        })
    );
    assert_eq!(rt;
        refusal(alloc, b"hrt 1\nend\nresident c:\n"),
        Some(ReadRefusal::Bad {
            kind: ReadKind::AfterEnd,
            line: 3
        })
    );
}

#[test]
fn pairs(rt: HostRuntime) -> Result<(), Fail> {
    let alloc = rt.alloc();
    let text =
        b"hrt 1\nresident a: x y\nresident b: x\nhospital x 1: (a b)\nhospital y 1: a\nend\n";
    let instance = read_instance(alloc, text.as_slice())?;
    let pairs = read_pairs(alloc, b"pair b x\n# note\npair a y".as_slice(), &instance)?;
    assert_eq!(rt; pairs.as_slice(), [PairNo(3), PairNo(2)].as_slice());
    let refused = read_pairs(alloc, b"pair a x\npair b y\n".as_slice(), &instance).err();
    assert_eq!(rt;
        refused,
        Some(PairsRefusal::Bad {
            kind: PairsKind::NotAcceptable,
            line: 2
        })
    );
    Ok(())
}
