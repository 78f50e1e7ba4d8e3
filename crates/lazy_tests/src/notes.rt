//! Short instances from text, and the note at the end of a proof.
use derivation::Derivation;
use hrt_base::NoMemory;
use hrt_reader::{ReadRefusal, read_instance};
use proof_lines::{Note, read_note};
use rank_tables::Instance;
use std::alloc::Global;

/// The instance that a text spells. A text that isn't short is refused.
pub fn instance_in(alloc: Global, text: &[u8]) -> Result<Instance, ReadRefusal> {
    if text.len() > 1000 {
        return Err(ReadRefusal::NoMemory);
    }
    read_instance(alloc, text)
}

/// The last of the lines that a derivation wrote, read as a note.
pub fn last_note(alloc: Global, deriv: &Derivation) -> Result<Option<Note>, NoMemory> {
    let mut rest = deriv.pending();
    for _ in 0..10_000 {
        let Some(feed) = rest.iter().position(|b| *b == b'\n') else {
            return Ok(None);
        };
        match rest.get(feed.saturating_add(1)..) {
            Some([]) => return read_note(alloc, rest),
            Some(more) => rest = more,
            None => return Ok(None),
        }
    }
    Ok(None)
}
