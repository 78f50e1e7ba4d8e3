//! The limit on the terms of the 0/1 model.
use crate::runs::{audit, solve};
use hrt_base::{NoMemory, Port};
use std::alloc::Global;
use std::test::Fail;

// Adds a hospital that ties so many residents, who name it alone: k pairs, and k for each resident and twice in their rows,
// so k * k + 2 * k terms.
fn push_tie(alloc: Global, text: &mut Vec<u8>, name: &str, residents: u32) -> Result<(), NoMemory> {
    for number in 0..residents {
        text.extend_from_slice(format!(in alloc; "resident {name}{number}: {name}\n")?.as_bytes())?;
    }
    text.extend_from_slice(format!(in alloc; "hospital {name} 1: (")?.as_bytes())?;
    for number in 0..residents {
        text.extend_from_slice(format!(in alloc; " {name}{number}")?.as_bytes())?;
    }
    text.extend_from_slice(b" )\n")?;
    Ok(())
}

// An instance of such hospitals.
fn ties(alloc: Global, sizes: &[u32]) -> Result<Vec<u8>, NoMemory> {
    let mut text = Vec::new(alloc);
    text.extend_from_slice(b"hrt 1\n")?;
    for (place, size) in sizes.iter().enumerate() {
        let name = format!(in alloc; "h{place}_")?;
        push_tie(alloc, &mut text, name.as_str(), *size)?;
    }
    text.extend_from_slice(b"end\n")?;
    Ok(text)
}

#[test]
fn terms_to_the_limit_and_past_it(rt: HostRuntime) -> Result<(), Fail> {
    let alloc = rt.alloc();
    let full = ties(alloc, &[2827, 48, 2, 1, 1, 1])?;
    let ended = audit(alloc, &full, b"")?;
    assert_eq!(rt; ended.code, 9, "8,000,000 terms");
    assert_eq!(rt;
        ended.host.sent(Port::Report),
        b"blocked h0_0 h0_\n".as_slice()
    );
    let past = ties(alloc, &[2827, 48, 3, 1])?;
    let ended = audit(alloc, &past, b"")?;
    assert_eq!(rt; ended.code, 7, "8,000,001 terms");
    assert_eq!(rt;
        ended.host.sent(Port::Report),
        b"limit terms 8000000\n".as_slice()
    );
    let ended = solve(alloc, &past)?;
    assert_eq!(rt; ended.code, 7);
    assert_eq!(rt;
        ended.host.sent(Port::Report),
        b"limit terms 8000000\n".as_slice()
    );
    Ok(())
}
