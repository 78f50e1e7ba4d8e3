//! Small instances at random, and what the checker says of proofs.
use hrt_base::NoMemory;
use hrt_reader::{ReadRefusal, read_instance};
use opb_text::formula_of;
use proof_checker::Checker;
use proof_lines::Claim;
use rank_tables::Instance;
use stability_model::Model;
use std::alloc::Global;
use std::test::Fail;

/// A linear congruential generator: a number less than `below`.
pub fn next(state: &mut u32, below: u32) -> u32 {
    *state = state.wrapping_mul(1_664_525).wrapping_add(1_013_904_223);
    (*state >> 16).checked_rem(below).unwrap_or(0)
}

/// The instance that a text spells. A text that isn't short is refused.
pub fn instance_in(alloc: Global, text: &[u8]) -> Result<Instance, ReadRefusal> {
    if text.len() > 1000 {
        return Err(ReadRefusal::NoMemory);
    }
    read_instance(alloc, text)
}

// Some of five names, each of them three times in four, in a tie or not.
fn push_names(text: &mut Vec<u8>, state: &mut u32, names: &[&str; 5]) -> Result<(), NoMemory> {
    let from = next(state, 5) as usize;
    let is_tied = next(state, 3) == 0;
    if is_tied {
        text.extend_from_slice(b" (")?;
        text.extend_from_slice(names[from % 5].as_bytes())?;
    }
    for k in 0..5usize {
        if is_tied && k == 0 {
            continue;
        }
        if next(state, 4) > 0 {
            text.extend_from_slice(b" ")?;
            text.extend_from_slice(names[(from.saturating_add(k)) % 5].as_bytes())?;
        }
    }
    if is_tied {
        text.extend_from_slice(b")")?;
    }
    text.extend_from_slice(b"\n")?;
    Ok(())
}

/// The text of the instance of a number: five residents and five hospitals.
pub fn text_of(alloc: Global, number: u32) -> Result<Vec<u8>, NoMemory> {
    let residents = ["a", "b", "c", "d", "e"];
    let hospitals = ["v", "w", "x", "y", "z"];
    let mut state = number;
    let mut text = Vec::new(alloc);
    text.extend_from_slice(b"hrt 1\n")?;
    for r in 0..5usize {
        text.extend_from_slice(b"resident ")?;
        text.extend_from_slice(residents[r].as_bytes())?;
        text.extend_from_slice(b":")?;
        push_names(&mut text, &mut state, &hospitals)?;
    }
    for h in 0..5usize {
        text.extend_from_slice(b"hospital ")?;
        text.extend_from_slice(hospitals[h].as_bytes())?;
        text.extend_from_slice(match next(&mut state, 4) {
            0 => b" 0:",
            1 => b" 2:",
            _ => b" 1:",
        })?;
        push_names(&mut text, &mut state, &residents)?;
    }
    text.extend_from_slice(b"end\n")?;
    Ok(text)
}

/// The claim of a proof of an instance's model, which the checker accepts.
pub fn claim_of(alloc: Global, inst: &Instance, proof: &[u8]) -> Result<Claim, Fail> {
    if proof.len() > 1_000_000 {
        return Err(Fail::from(NoMemory));
    }
    let formula = formula_of(alloc, &Model::of(alloc, inst)?)?;
    let mut checker = Checker::new(alloc, formula)?;
    checker.feed(alloc, proof)?;
    Ok(checker.finish(alloc)?)
}
