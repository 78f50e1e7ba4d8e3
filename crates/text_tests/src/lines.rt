// Lines of proofs, with ample memory.
use hrt_base::NoMemory;
use proof_lines::{LineKind, LineRefusal, first_line, is_end_text, read_note};
use std::alloc::Global;
use std::test::Fail;

// The longest line, with its line feed.
const MOST_BYTES: usize = 16_777_216;

// How many lines the bytes have, each of which is read.
fn count_lines(rt: &HostRuntime, bytes: &[u8]) -> Result<u32, LineRefusal> {
    let mut rest = bytes;
    for count in 0..100 {
        match first_line(rt.alloc(), rest)? {
            Some((_, len)) => match rest.get(len..) {
                Some(after) => rest = after,
                None => return Ok(count),
            },
            None => return Ok(count),
        }
    }
    Ok(100)
}

#[test]
fn reads_lines(rt: HostRuntime) -> Result<(), Fail> {
    let proof =
        b"pseudo-Boolean proof version 2.0\nf 7\npol 1 2 +\nsoli ~x1 x2 x3\noutput NONE\nconclusion BOUNDS -2 -2\nend pseudo-Boolean proof\n";
    assert_eq!(rt; count_lines(&rt, proof), Ok(7));
    assert_eq!(rt; count_lines(&rt, b"\n* \n\r\nf 0\npol"), Ok(4));
    assert_eq!(rt; count_lines(&rt, b"f 07\n"), Err(LineRefusal::Syntax));
    assert_eq!(rt; count_lines(&rt, b"pol 1 0 *\n"), Err(LineRefusal::Syntax));
    assert_eq!(rt;
        count_lines(
            &rt,
            b"rup 1329227995784915872903807060280344577 x1 >= 1 ;\n"
        ),
        Err(LineRefusal::TooBig(LineKind::Rup))
    );
    assert!(rt; is_end_text(b"end pseudo-Boolean proof\r"));
    assert!(rt; !is_end_text(b"end pseudo-Boolean proof\n"));
    Ok(())
}

// A text, then so many times one byte, then another text.
fn filled(
    alloc: Global,
    front: &[u8],
    byte: u8,
    count: usize,
    end: &[u8],
) -> Result<Vec<u8>, NoMemory> {
    let mut line = Vec::new(alloc);
    line.extend_from_slice(front)?;
    for _ in 0..count {
        line.push(byte)?;
    }
    line.extend_from_slice(end)?;
    Ok(line)
}

#[test]
fn reads_long_lines(rt: HostRuntime) -> Result<(), Fail> {
    let blanks = filled(rt.alloc(), b"f 7", b' ', MOST_BYTES - 4, b"\n")?;
    assert_eq!(rt; blanks.len(), MOST_BYTES);
    assert_eq!(rt; count_lines(&rt, &blanks), Ok(1));
    let longer = filled(rt.alloc(), b"* ", b'9', MOST_BYTES - 2, b"\n")?;
    assert_eq!(rt; count_lines(&rt, &longer), Err(LineRefusal::Syntax));
    let digits = filled(rt.alloc(), b"rup ", b'9', 5000, b" x1 >= 1 ;\n")?;
    assert_eq!(rt;
        count_lines(&rt, &digits),
        Err(LineRefusal::TooBig(LineKind::Rup))
    );
    let zeros = filled(rt.alloc(), b"rup ", b'0', 5000, b"7 x1 >= 1 ;\n")?;
    assert_eq!(rt; count_lines(&rt, &zeros), Ok(1));
    let unspelled = filled(rt.alloc(), b"pol ", b'9', 5000, b" * *\n")?;
    assert_eq!(rt; count_lines(&rt, &unspelled), Err(LineRefusal::Syntax));
    Ok(())
}

#[test]
fn reads_notes(rt: HostRuntime) -> Result<(), Fail> {
    assert!(rt; read_note(rt.alloc(), b"* note learn 20 : x1 ~x2 : ~x3\n")?.is_some());
    assert!(rt; read_note(rt.alloc(), b"* note load x1 : 8")?.is_some());
    assert!(rt; read_note(rt.alloc(), b"* note load x1: 8")?.is_none());
    Ok(())
}
